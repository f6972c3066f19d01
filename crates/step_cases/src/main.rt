// Steps of full size, and at the edges of what they take: each is held against what docs/RULES.md says of it, written down by hand.
// A case that comes out otherwise ends the run with an error.
#![tactic(auto)]

mod bench;
mod binds;
mod buffers;
mod fills;
mod full;
mod outcome;
mod resolves;

use bench::Memory;

fn main(rt: HostRuntime) -> anyhow::Result<()> {
    let mut memory = Memory::new(rt.alloc())?;
    fills::cases(&rt, &mut memory)?;
    resolves::cases(&rt, &mut memory)?;
    binds::cases(&rt, &mut memory)?;
    buffers::cases(&rt, &mut memory)?;
    full::cases(&rt, &mut memory)?;
    Ok(())
}
