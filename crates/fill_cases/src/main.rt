// Fills a book from a row table, and prints what each fill came to.
#![tactic(auto)]

mod fills;

use fills::{Lab, cases};
use heap::books::{BookMemory, FULL};
use heap::steps::FindsMemory;
use heap::tables::TableMemory;

fn main(rt: HostRuntime) -> anyhow::Result<()> {
    let alloc = rt.alloc();
    let mut slots = BookMemory::new(alloc)?;
    let mut finds = FindsMemory::new(alloc)?;
    let mut rows = TableMemory::new(alloc)?;
    let Some(mut lab) = Lab::new(slots.lend(FULL), finds.lend(), rows.lend()) else {
        println!(rt; "the memory has another size")?;
        return Ok(());
    };
    for (what, allowance, oids) in cases() {
        let told = lab.fill(allowance, oids);
        println!(rt; "{what}: {told}")?;
    }
    Ok(())
}
