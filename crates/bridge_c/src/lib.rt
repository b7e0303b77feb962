// The judge, a request and noting as a static library for C and Rust: three symbols over `bridge`.
#![tactic(auto)]

ghost use Rattle.std.specs.Prelude.{◌≡◌, true, Result};
ghost use Rattle.bridge.specs.Codes.{act_code, judge_code, note_code};
ghost use Rattle.interlocking.specs.Says.{request_of};
ghost use Rattle.interlocking.specs.declared.Answer.{Answer};
ghost use Rattle.memory.specs.Entry.{ActSays, lent_refusal, marked, refusal};
ghost use Rattle.memory.specs.declared.Refusal.{Refusal as TurnedAway};
ghost use Rattle.occupancy.specs.Entry.{NoteSays};
ghost use Rattle.plan.specs.Numbers.{plan_in};
ghost use Rattle.plan.specs.declared.Refusal.{Refusal as NoPlan};
ghost use Rattle.soundness.specs.Rules.{Judges};
ghost use Rattle.soundness.specs.declared.Verdict.{Verdict};

use bridge::Code;

// 0 for a sound plan; 1, the rule, and the route or 64 for the whole plan; 2, the refusal's number and its place.
#[unsafe(no_mangle)]
pub extern "C" fn wonathippu_judge(plan: &[u16]) -> Code
    ensures { (r : Result Verdict NoPlan) × Judges plan.now r × (result ≡ judge_code r) }
{
    bridge::wonathippu_judge(plan)
}

// 1 if the request was done, 0 if not; 2, the refusal's number and its place.
#[unsafe(no_mangle)]
pub extern "C" fn wonathippu_act(
    plan: &[u16],
    memory: &mut [u16],
    seen: &[u8],
    turned: &[u8],
    kind: u64,
    which: u64,
) -> Code
    ensures { (a : Result Answer TurnedAway) × ActSays (refusal plan.now memory.old seen.now turned.now kind which) (plan_in plan.now) (marked seen.now) (marked turned.now) (request_of kind which) memory.old a memory.new × (result ≡ act_code a) }
{
    bridge::wonathippu_act(plan, memory, seen, turned, kind, which)
}

// 1; or 2, the refusal's number and its place.
#[unsafe(no_mangle)]
pub extern "C" fn wonathippu_note(plan: &[u16], memory: &mut [u16], seen: &[u8]) -> Code
    ensures { (a : Result Unit TurnedAway) × NoteSays (lent_refusal plan.now memory.old seen.now true) (plan_in plan.now) (marked seen.now) memory.old a memory.new × (result ≡ note_code a) }
{
    bridge::wonathippu_note(plan, memory, seen)
}
