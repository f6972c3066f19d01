// Runs the worked examples of docs/RULES.md on a book over a row table, and prints what each step told, and what is described then.
#![tactic(auto)]

mod cards;
mod examples;
mod kiosk;
mod told;

use kiosk::Memory;

fn main(rt: HostRuntime) -> anyhow::Result<()> {
    let mut memory = Memory::new(rt.alloc())?;
    examples::chains(&rt, &mut memory)?;
    examples::room_before_resolution(&rt, &mut memory)?;
    examples::built_in(&rt, &mut memory)?;
    examples::two_rounds(&rt, &mut memory)?;
    examples::two_rounds_at_one(&rt, &mut memory)?;
    examples::missing_row(&rt, &mut memory)?;
    examples::ring(&rt, &mut memory)?;
    examples::arrays(&rt, &mut memory)?;
    examples::last_field(&rt, &mut memory)?;
    examples::array_without_name(&rt, &mut memory)?;
    Ok(())
}
