// Texts from tables, read and answered, and plans written and read again.
#![tactic(auto)]

fn main(rt: HostRuntime) -> anyhow::Result<()> {
    trial::texts::show(&rt)
}
