// Settles what steps have read, and keeps it in books: chains in either order, a ring, a row that is missing, shared components.
#![tactic(auto)]

mod steps;

use heap::books::{BookMemory, FULL};
use heap::steps::FindsMemory;
use steps::{Links, Texts, step};

fn main(rt: HostRuntime) -> anyhow::Result<()> {
    let alloc = rt.alloc();
    let texts = Texts::new(alloc)?;
    let mut room = FindsMemory::new(alloc)?;
    for links in [
        Links::UsersFirst,
        Links::UsersLast,
        Links::Strided,
        Links::Ring,
        Links::Broken,
        Links::Shared,
    ] {
        let mut slots = BookMemory::new(alloc)?;
        let told = step(&texts, room.lend(), slots.lend(FULL), links);
        println!(rt; "{links:?}: {told}")?;
    }
    Ok(())
}
