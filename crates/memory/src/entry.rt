// The entry: what is lent as numbers is looked at, read, acted on and written back. Slices and numbers stand as parameters of their own, as a C caller lends them.
ghost use Rattle.std.specs.Prelude.{◌≡◌, length, Ok, IfOk, OnOk};
ghost use Rattle.std.specs.Result.{result_err};
ghost use Rattle.plan.specs.Numbers.{plan_in};
ghost use Rattle.plan.specs.Shape.{all_at_most};
ghost use Rattle.plan.specs.View.{plan_of};
ghost use Rattle.interlocking.specs.Says.{request_of};
ghost use Rattle.memory.specs.Entry.{marked, bad_lent, bad_asked, lent_refusal, refusal, Performs, ActSays};

use crate::{Asked, Lent, Refusal};
use interlocking::{Answer, Request, Sight};
use plan::view::Plan;

// Are no numbers above this one?
fn all_at_most(numbers: &[u16], most: u16) -> bool
    ensures { result ≡ all_at_most most numbers.now }
{
    numbers.iter().all(|&x| x <= most)
}

// `positions` says whether those, where they are lent, have their length: noting is lent none, and its refusals are the same.
fn check_lent(memory: &[u16], seen: &[u8], positions: bool, routes: u16) -> Result<(), Lent>
    ensures { result_err result ≡ bad_lent memory.now seen.now positions routes }
{
    if memory.len() != 224 {
        Err(Lent::Memory)
    } else if seen.len() != 64 {
        Err(Lent::Occupied)
    } else if !positions {
        Err(Lent::Positions)
    } else if !all_at_most(&memory[0..64], routes) {
        Err(Lent::Lock)
    } else {
        Ok(())
    }
}

// What is asked for by its number, or why there is no such thing.
fn asked(kind: u64, which: u64) -> Result<Request, Asked>
    ensures refused { result_err result ≡ bad_asked kind which }
    ensures request { OnOk result (result ≡ Ok (request_of kind which)) }
{
    if kind > 4 {
        Err(Asked::Kind)
    } else if which > 63 {
        Err(Asked::Which)
    } else {
        Ok(Request::of(kind, which as usize))
    }
}

// The plan that is lent, or why what is lent is turned away.
pub fn lent<'a>(
    plan: &'a [u16],
    memory: &[u16],
    seen: &[u8],
    positions: bool,
) -> Result<Plan<'a>, Refusal>
    ensures refused { result_err result ≡ lent_refusal plan.now memory.now seen.now positions }
    ensures plan { IfOk result (λ p. p.numbers.now ≡ plan.now) }
{
    let plan = Plan::try_from(plan)?;
    check_lent(memory, seen, positions, plan.routes())?;
    Ok(plan)
}

// The plan that is lent and what is asked, or why they are turned away; it only looks.
pub fn taken<'a>(
    plan: &'a [u16],
    memory: &[u16],
    seen: &[u8],
    turned: &[u8],
    kind: u64,
    which: u64,
) -> Result<(Plan<'a>, Request), Refusal>
    ensures refused { result_err result ≡ refusal plan.now memory.now seen.now turned.now kind which }
    ensures taken { IfOk result (λ v. (v.0.numbers.now ≡ plan.now) × (v.1 ≡ request_of kind which)) }
{
    let plan = lent(plan, memory, seen, turned.len() == 32)?;
    Ok((plan, asked(kind, which)?))
}

fn perform(
    plan: Plan<'_>,
    memory: &mut [u16],
    seen: &[u8],
    turned: &[u8],
    request: Request,
) -> Answer
    requires memory { length memory.old ≡ 224 }
    requires occupancy { length seen.now ≡ 64 }
    requires positions { length turned.now ≡ 32 }
    ensures { Performs (plan_of plan.entry) (marked seen.now) (marked turned.now) request memory.old result memory.new }
{
    let occupied = crate::marks_in::<64>(seen);
    let lies = crate::marks_in::<32>(turned);
    let sight = Sight {
        plan,
        occupied: &occupied,
        lies: &lies,
    };
    let (left, answer) = crate::read(memory).perform(sight, request);
    if answer.done {
        crate::store(&left, memory);
    }
    answer
}

// The interlocking is asked for something, by its number: 0 to set a route, 1 to show it, 2 to take it back, 3 to free a section, 4 to let time pass.
pub fn act(
    plan: &[u16],
    memory: &mut [u16],
    seen: &[u8],
    turned: &[u8],
    kind: u64,
    which: u64,
) -> Result<Answer, Refusal>
    ensures { ActSays (refusal plan.now memory.old seen.now turned.now kind which) (plan_in plan.now) (marked seen.now) (marked turned.now) (request_of kind which) memory.old result memory.new }
{
    let (plan, request) = taken(plan, memory, seen, turned, kind, which)?;
    Ok(perform(plan, memory, seen, turned, request))
}
