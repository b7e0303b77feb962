// Rows of events played in the example stations, and what each must be answered.
#![tactic(auto)]

use plan::view::Plan;
use safety::run::run;
use script::Script;
use std::alloc::{AllocError, Global};
use trial::{in_station, locks, stages};

pub const LOOP: &str = "section 0 up 1 down outside
section 1 up point 0: 2 or 3 down 0
section 2 up 4 down 1
section 3 up 4 down 1
section 4 up 5 down point 1: 2 or 3
section 5 up outside down 4
point 0 in 1
point 1 in 4
edge 0
edge 5
signal up 0
signal up 2
signal up 3
signal down 5
signal down 2
signal down 3
route up from 0 by 1 2 needs 0 left
route up from 0 by 1 3 needs 0 right
route up from 2 by 4 5 needs 1 left
route up from 3 by 4 5 needs 1 right
route down from 5 by 4 2 needs 1 left
route down from 5 by 4 3 needs 1 right
route down from 2 by 1 0 needs 0 left
route down from 3 by 1 0 needs 0 right
time 2
";

// Plays events in the station of a plan, both given as texts: for each event `+` if it was done and `-` if not, and then the stages of the routes that are not idle, and the locks.
pub fn played(heap: Global, plan: &str, events: &str) -> Result<String, AllocError> {
    in_station(heap, plan, events, |plan, script| told(heap, plan, script))
}

fn told(heap: Global, plan: Plan<'_>, script: &Script) -> Result<String, AllocError> {
    let events = script.events.as_slice();
    let outcome = run(heap, plan, script.lies, events, events.len())?;
    let mut answers = String::new(heap);
    for done in outcome.answers.iter() {
        answers.push_str(if *done { "+" } else { "-" })?;
    }
    let interlocking = outcome.station.interlocking();
    let stages = stages(heap, &interlocking, plan.routes())?;
    let held = locks(heap, &interlocking, plan.sections())?;
    format!(in heap; "{answers}{stages} {held}")
}

#[cfg(test)]
mod tests {
    use super::*;
    use std::process::Abort;
    use std::test::Fail;

    // Plays events in the loop, and compares.
    fn comes_to(rt: &(impl Abort + AllocGlobal), events: &str, expected: &str) -> Result<(), Fail> {
        let said = played(rt.alloc(), LOOP, events)?;
        assert_eq!(rt; said.as_str(), expected);
        Ok(())
    }

    #[test]
    fn two_routes_over_one_point(rt: HostRuntime) -> Result<(), Fail> {
        comes_to(&rt, "ask 0\nask 1\n", "+- 0 set .00...")
    }

    #[test]
    fn opposite_routes(rt: HostRuntime) -> Result<(), Fail> {
        comes_to(&rt, "ask 0\nask 5\n", "++ 0 set 5 set .0055.")
    }

    #[test]
    fn cleared_once_its_point_has_turned(rt: HostRuntime) -> Result<(), Fail> {
        comes_to(
            &rt,
            "ask 5\nclear 5\nturns 1\nclear 5\n",
            "+-++ 5 shown ...55.",
        )
    }

    #[test]
    fn freed_once_the_end_has_left(rt: HostRuntime) -> Result<(), Fail> {
        comes_to(
            &rt,
            "comes 0 up 0\nask 0\nclear 0\ngoes 0\ngoes 0\ndraws 0\nfree 1\ndraws 0\nfree 1\n",
            "++++++-++ 0 used ..0...",
        )
    }

    #[test]
    fn the_last_is_freed_with_the_train_in_it(rt: HostRuntime) -> Result<(), Fail> {
        comes_to(
            &rt,
            "comes 0 up 0\nask 0\nclear 0\ngoes 0\ngoes 0\ndraws 0\ndraws 0\nfree 1\nfree 2\n",
            "+++++++++ ......",
        )
    }

    #[test]
    fn a_train_passes_a_route_just_taken_back(rt: HostRuntime) -> Result<(), Fail> {
        comes_to(
            &rt,
            "comes 0 up 0\nask 0\nclear 0\nback 0\ngoes 0\n",
            "+++++ 0 used .00...",
        )
    }

    #[test]
    fn falling_is_idle_at_the_third_tick(rt: HostRuntime) -> Result<(), Fail> {
        comes_to(
            &rt,
            "ask 0\nclear 0\nback 0\ntick\ntick\n",
            "+++++ 0 falling .00...",
        )?;
        comes_to(
            &rt,
            "ask 0\nclear 0\nback 0\ntick\ntick\ntick\n",
            "++++++ ......",
        )
    }

    #[test]
    fn both_ways_out(rt: HostRuntime) -> Result<(), Fail> {
        comes_to(
            &rt,
            "comes 0 up 0\nask 0\nclear 0\ngoes 0\ngoes 0\ndraws 0\ndraws 0\nfree 1\nfree 2\ncomes 1 up 0\nask 1\nturns 0\nclear 1\ngoes 1\ngoes 1\ndraws 1\ndraws 1\nfree 1\nfree 3\nask 2\nask 7\n",
            "+++++++++++++++++++++ 2 set 7 set 77..22",
        )
    }

    #[test]
    fn a_train_turns_round_and_its_route_is_let_go(rt: HostRuntime) -> Result<(), Fail> {
        comes_to(
            &rt,
            "comes 0 up 0\nask 0\nclear 0\ngoes 0\ngoes 0\ndraws 0\ndraws 0\nfree 1\nfree 2\nask 2\nclear 2\ngoes 0\nreverses 0\nback 2\ndraws 0\nback 2\n",
            "+++++++++++++-++ ......",
        )
    }
}
