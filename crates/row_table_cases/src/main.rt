// Offers a row table what lies at each of its limits, and tells where it answers otherwise than it has to.
#![tactic(auto)]

mod bench;
mod contradictions;
mod full;
mod limits;
mod offer;
mod outcome;
mod room;
mod rounds;
mod trial;

use bench::Bench;

fn main(rt: HostRuntime) -> anyhow::Result<()> {
    let mut bench = Bench::new(rt.alloc())?;
    limits::texts(&rt, &mut bench)?;
    limits::rows(&rt, &mut bench)?;
    contradictions::rows(&rt, &mut bench)?;
    contradictions::names(&rt, &mut bench)?;
    contradictions::columns(&rt, &mut bench)?;
    full::rows(&rt, &mut bench)?;
    full::names(&rt, &mut bench)?;
    full::parts_of_rows(&rt, &mut bench)?;
    full::columns(&rt, &mut bench)?;
    full::all(&rt, &mut bench)?;
    rounds::allowances(&rt, &mut bench)?;
    rounds::memories(&rt, &mut bench)?;
    bench.tally.print(&rt)?;
    Ok(())
}
