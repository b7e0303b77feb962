// The entry: what is reported occupied is noted, on numbers.
ghost use Rattle.std.specs.Prelude.{◌≡◌, true, length};
ghost use Rattle.plan.specs.Numbers.{plan_in};
ghost use Rattle.plan.specs.View.{plan_of};
ghost use Rattle.memory.specs.Memory.{state_in};
ghost use Rattle.memory.specs.Entry.{lent_refusal, marked, Stored};
ghost use Rattle.occupancy.specs.Notes.{notes};
ghost use Rattle.occupancy.specs.Entry.{NoteSays};

use memory::Refusal;
use plan::view::Plan;

fn noted(plan: Plan<'_>, memory: &mut [u16], seen: &[u8])
    requires memory { length memory.old ≡ 224 }
    requires occupancy { length seen.now ≡ 64 }
    ensures { Stored (notes (plan_of plan.entry) (state_in memory.old) (marked seen.now)) memory.old memory.new }
{
    let occupied = memory::marks_in::<64>(seen);
    let left = crate::note(memory::read(memory), plan, &occupied);
    memory::store(&left, memory);
}

// No positions are lent, so none are turned away.
pub fn note(plan: &[u16], memory: &mut [u16], seen: &[u8]) -> Result<(), Refusal>
    ensures { NoteSays (lent_refusal plan.now memory.old seen.now true) (plan_in plan.now) (marked seen.now) memory.old result memory.new }
{
    let plan = memory::entry::lent(plan, memory, seen, true)?;
    noted(plan, memory, seen);
    Ok(())
}
