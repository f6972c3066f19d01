// Adds to books what lies at each of their limits, and tells where one answers otherwise than it has to.
#![tactic(auto)]

mod bench;
mod descriptors;
mod few;
mod full;
mod held;
mod lent;
mod memories;
mod offer;
mod outcome;
mod rows;
mod sizes;
mod tally;
mod telling;
mod texts;
mod trial;
mod without;

use bench::Bench;

fn main(rt: HostRuntime) -> anyhow::Result<()> {
    let mut bench = Bench::new(rt.alloc())?;
    few::all(&rt, &mut bench)?;
    full::all(&rt, &mut bench)?;
    without::all(&rt, &mut bench)?;
    memories::used(&rt, &mut bench)?;
    memories::of_others(&rt, &mut bench)?;
    descriptors::all(&rt, &mut bench)?;
    held::all(&rt, &mut bench)?;
    texts::all(&rt, &mut bench)?;
    bench.tally.print(&rt)?;
    Ok(())
}
