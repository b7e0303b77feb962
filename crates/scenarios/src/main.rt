// The examples, the incidents and the tables, played and answered: what is printed is held to what it must be.
#![tactic(auto)]

mod beside;
mod chance;
mod journals;
mod played;
mod reader;
mod verdicts;

fn run(rt: &HostRuntime) -> anyhow::Result<()> {
    verdicts::show(rt)?;
    played::show(rt)?;
    trial::texts::show(rt)?;
    journals::show(rt)?;
    chance::show(rt)?;
    beside::show(rt)
}

fn main(rt: HostRuntime) -> anyhow::Result<()> {
    run(&rt)
}
