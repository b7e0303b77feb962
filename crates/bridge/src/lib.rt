// The judge, a request and noting on numbers: slices and numbers in, three numbers out. `bridge_c` is the same for programs in C and Rust.
#![tactic(auto)]

ghost use Rattle.std.specs.Prelude.{◌≡◌, true, Result};
ghost use Rattle.bridge.specs.Codes.{act_code, judge_code, note_code, refused_code};
ghost use Rattle.interlocking.specs.Says.{request_of};
ghost use Rattle.interlocking.specs.declared.Answer.{Answer};
ghost use Rattle.memory.specs.Entry.{ActSays, lent_refusal, marked, refusal};
ghost use Rattle.memory.specs.declared.Refusal.{Refusal as TurnedAway};
ghost use Rattle.occupancy.specs.Entry.{NoteSays};
ghost use Rattle.plan.specs.Numbers.{plan_in};
ghost use Rattle.plan.specs.declared.Refusal.{Refusal as NoPlan};
ghost use Rattle.soundness.specs.Rules.{Judges};
ghost use Rattle.soundness.specs.declared.Verdict.{Verdict};

use memory::Refusal;
use soundness::Verdict;
use soundness::judge::judge;

// What was answered, and two numbers that say more. A program in C reads it, so it is numbers and no enum.
#[derive(Clone, Copy, Debug, PartialEq, Eq)]
#[repr(C)]
pub struct Code {
    pub what: u64,
    pub number: u64,
    pub place: u64,
}

fn refused(refusal: Refusal) -> Code
    ensures { result ≡ refused_code refusal }
{
    Code {
        what: 2,
        number: u64::from(refusal.number()),
        place: refusal.place() as u64,
    }
}

// 0 for a sound plan; 1, the rule, and the route or 64 for the whole plan; 2, the refusal's number and its place.
pub fn wonathippu_judge(plan: &[u16]) -> Code
    ensures { (r : Result Verdict NoPlan) × Judges plan.now r × (result ≡ judge_code r) }
{
    match judge(plan) {
        Ok(Verdict::Sound) => Code {
            what: 0,
            number: 0,
            place: 0,
        },
        Ok(Verdict::Route(r, rule)) => Code {
            what: 1,
            number: u64::from(rule.number()),
            place: u64::from(r),
        },
        Ok(Verdict::Whole(rule)) => Code {
            what: 1,
            number: u64::from(rule.number()),
            place: 64,
        },
        Err(refusal) => refused(refusal.into()),
    }
}

// 1 if the request was done, 0 if not; 2, the refusal's number and its place.
pub fn wonathippu_act(
    plan: &[u16],
    memory: &mut [u16],
    seen: &[u8],
    turned: &[u8],
    kind: u64,
    which: u64,
) -> Code
    ensures { (a : Result Answer TurnedAway) × ActSays (refusal plan.now memory.old seen.now turned.now kind which) (plan_in plan.now) (marked seen.now) (marked turned.now) (request_of kind which) memory.old a memory.new × (result ≡ act_code a) }
{
    match memory::entry::act(plan, memory, seen, turned, kind, which) {
        Ok(answer) => Code {
            what: u64::from(answer.done),
            number: 0,
            place: 0,
        },
        Err(refusal) => refused(refusal),
    }
}

// 1; or 2, the refusal's number and its place.
pub fn wonathippu_note(plan: &[u16], memory: &mut [u16], seen: &[u8]) -> Code
    ensures { (a : Result Unit TurnedAway) × NoteSays (lent_refusal plan.now memory.old seen.now true) (plan_in plan.now) (marked seen.now) memory.old a memory.new × (result ≡ note_code a) }
{
    match occupancy::entry::note(plan, memory, seen) {
        Ok(()) => Code {
            what: 1,
            number: 0,
            place: 0,
        },
        Err(refusal) => refused(refusal),
    }
}
