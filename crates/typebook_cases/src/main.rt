// Runs stored scripts, those among them that are not understood, and prints what typebook prints for each.
#![tactic(auto)]

use runs::run::run_script;
use std::fs;

fn show(rt: &HostRuntime, path: &str) -> anyhow::Result<()> {
    let text = fs::read(rt, path)?;
    run_script(rt, text.as_slice())?;
    Ok(())
}

fn main(rt: HostRuntime) -> anyhow::Result<()> {
    for script in [
        "known.script",
        "garbled.script",
        "refusals.script",
        "limits.script",
        "spans.script",
        "parts.script",
        "two-rounds.script",
        "allowance.script",
        "missing-row.script",
        "ring.script",
        "array-by-typarray.script",
        "last-of-a-name.script",
        "bound-statement.script",
        "chain-of-65.script",
        "orders.script",
        "where-the-rust-differs.script",
        "lab.script",
        "steps-1.script",
        "steps-2.script",
        "steps-3.script",
        "steps-4.script",
        "steps-5.script",
        "steps-6.script",
    ] {
        show(&rt, script)?;
    }
    Ok(())
}
