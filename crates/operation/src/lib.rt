// What holds over runs of the signals that trains see, and of the requests that come by the desk. Each function does nothing: its contract is the statement.
#![tactic(auto)]

ghost use Rattle.operation.specs.Runs.{DeskIsARun, SignalsAlwaysSafe};

// After every lawful row of events of a sound plan that there is room for, whatever signal shows proceed, or may still be passed, has its route's path locked and vacant and its points lying right.
pub fn signals_always_safe()
    ensures { SignalsAlwaysSafe }
{}

// Serving the desk is a row of requests, one after the other: it is lawful where the row before it is, and leads to the state that serving gives, with trains and points as they were. So every promise holds of runs in which requests come by the desk.
pub fn desk_is_a_run()
    ensures { DeskIsARun }
{}
