// Rows of events played in sound and unsound plans, and what is named after each event.
#![tactic(auto)]

use model::station::Station;
use plan::view::Plan;
use script::Script;
use std::alloc::{AllocError, Global};
use trial::in_station;
use watch::first_broken;

// Plays events and looks after each: for each after which something is broken its number, from 0, and what; `can't` for one that is not done.
fn looked(heap: Global, plan: Plan<'_>, script: &Script) -> Result<String, AllocError> {
    let mut station = Station::new(heap, plan, script.lies)?;
    let mut said = String::new(heap);
    for (i, event) in script.events.iter().enumerate() {
        if !station.step(*event)? {
            let part = format!(in heap; "{i}: can't; ")?;
            said.push_str(part.as_str())?;
        }
        if let Some(broken) = first_broken(&station) {
            let part = format!(in heap; "{i}: {broken}; ")?;
            said.push_str(part.as_str())?;
        }
    }
    Ok(said)
}

// The same for texts.
pub fn played(heap: Global, plan: &str, events: &str) -> Result<String, AllocError> {
    in_station(
        heap,
        plan,
        events,
        |plan, script| looked(heap, plan, script),
    )
}

// So many events by chance, each looked after: how many were done, and after how many something was broken.
pub fn by_chance(heap: Global, plan: &str, count: u32) -> Result<String, AllocError> {
    in_station(heap, plan, "", |plan, _| {
        let (done, bad) = trial::by_chance(heap, plan, count)?;
        let many = done > count / 10;
        format!(in heap; "many done: {many}, broken after {bad}")
    })
}

#[cfg(test)]
mod tests {
    use super::*;
    use std::process::Abort;
    use std::test::Fail;

    // The loop without its first route and its points.
    const TRACK: &str = "section 0 up 1 down outside
section 1 up point 0: 2 or 3 down 0
section 2 up 4 down 1
section 3 up 4 down 1
section 4 up 5 down point 1: 2 or 3
section 5 up outside down 4
edge 0
edge 5
signal up 0
signal up 2
signal up 3
signal down 5
signal down 2
signal down 3
time 2
point 1 in 4
";

    const ROUTES: &str = "route up from 2 by 4 5 needs 1 left
route up from 3 by 4 5 needs 1 right
route down from 5 by 4 2 needs 1 left
route down from 5 by 4 3 needs 1 right
route down from 2 by 1 0 needs 0 left
route down from 3 by 1 0 needs 0 right
";

    // The loop with these lines for its point 0 and its first two routes.
    fn with(rt: &impl AllocGlobal, lines: &str) -> Result<String, Fail> {
        let text = format!(in rt.alloc(); "{TRACK}{lines}{ROUTES}")?;
        Ok(text)
    }

    fn comes_to(
        rt: &(impl Abort + AllocGlobal),
        lines: &str,
        events: &str,
        expected: &str,
    ) -> Result<(), Fail> {
        let plan = with(rt, lines)?;
        let said = played(rt.alloc(), plan.as_str(), events)?;
        assert_eq!(rt; said.as_str(), expected);
        Ok(())
    }

    const SOUND: &str = "point 0 in 1
route up from 0 by 1 2 needs 0 left
route up from 0 by 1 3 needs 0 right
";

    // Breaks 8.
    const SHORT: &str = "point 0 in 1
route up from 0 by 1 needs 0 left
route up from 0 by 1 3 needs 0 right
";

    // Breaks 6.
    const NO_NEED: &str = "point 0 in 1
route up from 0 by 1 2
route up from 0 by 1 3 needs 0 right
";

    // Breaks 9: point 2 lies in a path that does not need it.
    const NOT_HELD: &str = "point 0 in 1
point 2 in 2
route up from 0 by 1 2 needs 0 left
route up from 0 by 1 3 needs 0 right 2 right
";

    // Breaks 10 and 11.
    const MISPLACED: &str = "point 0 in 0
route up from 0 by 1 2 needs 0 left
route up from 0 by 1 3 needs 0 right
";

    #[test]
    fn two_trains_nose_to_nose(rt: HostRuntime) -> Result<(), Fail> {
        comes_to(
            &rt,
            SHORT,
            "comes 1 down 5\nask 4\nclear 4\ngoes 1\ngoes 1\ncomes 0 up 0\nask 0\nclear 0\ngoes 0\ngoes 0\n",
            "8: train 0 has no signal before it, and section 2 before it is occupied; 9: section 2 has two trains, 0 and 1; ",
        )
    }

    #[test]
    fn a_train_in_the_path_of_a_shown_route(rt: HostRuntime) -> Result<(), Fail> {
        comes_to(
            &rt,
            SHORT,
            "comes 0 up 0\nask 0\nclear 0\ngoes 0\nask 4\nclear 4\ngoes 0\n",
            "6: route 4 may be entered, and section 2 of its path is occupied; ",
        )
    }

    #[test]
    fn a_way_that_breaks(rt: HostRuntime) -> Result<(), Fail> {
        comes_to(
            &rt,
            NO_NEED,
            "ask 1\nback 1\ncomes 0 up 0\nask 0\nclear 0\ngoes 0\ngoes 0\nturns 0\n",
            "5: point 0 lies left under train 0 in section 1, and is wanted right; 6: point 0 lies left under train 0 in section 1, and is wanted right; 7: train 0 stands in sections 1 and 2, which do not hang together; ",
        )
    }

    #[test]
    fn a_point_that_no_route_holds(rt: HostRuntime) -> Result<(), Fail> {
        comes_to(
            &rt,
            NOT_HELD,
            "ask 1\nback 1\ncomes 0 up 0\nask 0\nclear 0\ngoes 0\ngoes 0\nturns 2\n",
            "6: point 2 lies left under train 0 in section 2, and is wanted right; ",
        )
    }

    #[test]
    fn a_point_in_an_edge(rt: HostRuntime) -> Result<(), Fail> {
        comes_to(
            &rt,
            MISPLACED,
            "ask 1\nback 1\ncomes 0 up 0\nturns 0\n",
            "2: point 0 lies left under train 0 in section 0, and is wanted right; ",
        )
    }

    #[test]
    fn nothing_is_broken_in_the_loop(rt: HostRuntime) -> Result<(), Fail> {
        comes_to(
            &rt,
            SOUND,
            "comes 0 up 0\nask 0\nclear 0\ngoes 0\ngoes 0\ndraws 0\ndraws 0\nfree 1\nfree 2\ncomes 1 up 0\nask 1\nturns 0\nclear 1\ngoes 1\ngoes 1\ndraws 1\ndraws 1\nfree 1\nfree 3\nask 2\nask 7\nclear 2\nback 2\ntick\ngoes 0\n",
            "",
        )
    }

    #[test]
    fn nothing_is_broken_by_chance(rt: HostRuntime) -> Result<(), Fail> {
        let plan = with(&rt, SOUND)?;
        let said = by_chance(rt.alloc(), plan.as_str(), 20000)?;
        assert_eq!(rt; said.as_str(), "many done: true, broken after 0");
        Ok(())
    }
}
