// Events by chance in the loop, with the promises looked at after each.
use crate::verdicts::numbers_of;
use anyhow::anyhow;
use plan::view::Plan;
use trial::by_chance;

pub fn show(rt: &HostRuntime) -> anyhow::Result<()> {
    let Some(numbers) = numbers_of(rt, "loop")? else {
        return Ok(());
    };
    let Ok(plan) = Plan::try_from(numbers.as_slice()) else {
        return Err(anyhow!("the loop is refused"));
    };
    let (done, bad) = by_chance(rt.alloc(), plan, 20000)?;
    println!(rt; "20000 events by chance, {done} done, broken after {bad}")?;
    Ok(())
}
