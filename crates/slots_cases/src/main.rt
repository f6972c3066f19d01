// Runs the tables on many random keys beside a map of std, and tells how many slots their searches look at.
#![tactic(auto)]

mod against_a_map;
mod probes;

fn main(rt: HostRuntime) -> anyhow::Result<()> {
    against_a_map::oids(&rt)?;
    against_a_map::names(&rt)?;
    probes::names(&rt)?;
    probes::oids(&rt)?;
    probes::attributes(&rt)?;
    Ok(())
}
