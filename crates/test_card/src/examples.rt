// The examples, each on an empty book at allowance 64.
use crate::cards::{array, composite, domain, labelled, simple};
use crate::kiosk::{Kiosk, Memory, Wanted};
use book::sizes::Sizes;
use heap::books::FULL;
use type_info::oid::Oid;

// So many domains from 60001 on, each over the next and the last over int4.
fn add_chain(kiosk: &mut Kiosk<'_>, count: u32) -> anyhow::Result<()> {
    for i in 1..=count {
        let name = format!(in kiosk.alloc; "link{i}")?;
        let base = if i < count {
            60001u32.wrapping_add(i)
        } else {
            23
        };
        kiosk.row(domain(60000u32.wrapping_add(i), name.as_bytes(), base))?;
    }
    Ok(())
}

pub fn chains(rt: &HostRuntime, memory: &mut Memory) -> anyhow::Result<()> {
    for count in [64, 65] {
        println!(rt; "A chain of {count} domains, the last over int4")?;
        let mut kiosk = memory.kiosk(rt.alloc(), FULL)?;
        add_chain(&mut kiosk, count)?;
        kiosk.fill(rt, &[60001])?;
        kiosk.print_count(rt)?;
    }
    Ok(())
}

pub fn room_before_resolution(rt: &HostRuntime, memory: &mut Memory) -> anyhow::Result<()> {
    let partless = Sizes { parts: 0, ..FULL };
    for (size, sizes) in [("without room for parts", partless), ("of full size", FULL)] {
        println!(rt; "Room before resolution, in a book {size}")?;
        let mut kiosk = memory.kiosk(rt.alloc(), sizes)?;
        kiosk.row(labelled(50001, b"one", &[b"label"]))?;
        kiosk.row(composite(50002, b"two", &[(b"left", 50001), (b"right", 50099)]))?;
        kiosk.resolve(rt, &[Wanted::Name(b"nowhere"), Wanted::Name(b"two")])?;
        kiosk.print_book(rt)?;
    }
    Ok(())
}

pub fn built_in(rt: &HostRuntime, memory: &mut Memory) -> anyhow::Result<()> {
    println!(rt; "Built-in look-ups")?;
    let kiosk = memory.kiosk(rt.alloc(), FULL)?;
    for oid in [23, 1007, 3904, 705, 22, 0, u32::MAX] {
        kiosk.print_type(rt, Oid(oid))?;
    }
    Ok(())
}

fn add_prices(kiosk: &mut Kiosk<'_>) -> anyhow::Result<()> {
    kiosk.row(domain(50001, b"price", 50003))?;
    kiosk.row(composite(50002, b"crop", &[(b"left", 50003), (b"right", 50004)]))?;
    kiosk.row(labelled(50003, b"edge", &[b"near", b"far"]))?;
    kiosk.row(labelled(50004, b"hue", &[b"red"]))
}

pub fn two_rounds(rt: &HostRuntime, memory: &mut Memory) -> anyhow::Result<()> {
    println!(rt; "Two rounds")?;
    let mut kiosk = memory.kiosk(rt.alloc(), FULL)?;
    add_prices(&mut kiosk)?;
    kiosk.fill(rt, &[50001, 50002])?;
    kiosk.print_book(rt)?;
    kiosk.fill(rt, &[50004, 50003, 50002, 50001])
}

pub fn two_rounds_at_one(rt: &HostRuntime, memory: &mut Memory) -> anyhow::Result<()> {
    println!(rt; "The same at allowance 1")?;
    let mut kiosk = memory.kiosk(rt.alloc(), FULL)?;
    add_prices(&mut kiosk)?;
    kiosk.rows.set_allowance(1);
    kiosk.fill(rt, &[50001, 50002])?;
    kiosk.print_book(rt)
}

pub fn missing_row(rt: &HostRuntime, memory: &mut Memory) -> anyhow::Result<()> {
    println!(rt; "A missing row")?;
    let mut kiosk = memory.kiosk(rt.alloc(), FULL)?;
    kiosk.row(domain(50005, b"kept", 50006))?;
    kiosk.fill(rt, &[50005])?;
    kiosk.fill(rt, &[50006])?;
    kiosk.print_type(rt, Oid(50006))?;
    kiosk.fill(rt, &[50006])?;
    kiosk.print_book(rt)
}

pub fn ring(rt: &HostRuntime, memory: &mut Memory) -> anyhow::Result<()> {
    println!(rt; "A ring")?;
    let mut kiosk = memory.kiosk(rt.alloc(), FULL)?;
    kiosk.row(domain(50007, b"hen", 50008))?;
    kiosk.row(domain(50008, b"egg", 50007))?;
    kiosk.fill(rt, &[50007])?;
    kiosk.print_book(rt)
}

pub fn arrays(rt: &HostRuntime, memory: &mut Memory) -> anyhow::Result<()> {
    println!(rt; "An array is what typarray says")?;
    let mut kiosk = memory.kiosk(rt.alloc(), FULL)?;
    kiosk.row(simple(21, b"smallint", b'N').with_array(1005))?;
    kiosk.row(array(22, b"int2vector", 21).with_array(1006))?;
    kiosk.name(b"int2", 21)?;
    kiosk.resolve(rt, &[Wanted::Name(b"int2vector")])?;
    kiosk.resolve(rt, &[Wanted::ArrayOf(b"int2")])?;
    kiosk.print_book(rt)
}

pub fn last_field(rt: &HostRuntime, memory: &mut Memory) -> anyhow::Result<()> {
    println!(rt; "The last field of a name")?;
    let mut kiosk = memory.kiosk(rt.alloc(), FULL)?;
    kiosk.bind(rt, &[b"w", b"h", b"w"], &[b"w", b"h", b"x"])
}

pub fn array_without_name(rt: &HostRuntime, memory: &mut Memory) -> anyhow::Result<()> {
    println!(rt; "An array link without a name")?;
    let mut kiosk = memory.kiosk(rt.alloc(), FULL)?;
    kiosk.row(domain(50003, b"cell", 50098).with_array(50004))?;
    kiosk.row(array(50004, b"cell[]", 50003))?;
    kiosk.resolve(rt, &[Wanted::ArrayOf(b"cell")])?;
    kiosk.print_links(rt, b"cell", Oid(50003))?;
    kiosk.print_book(rt)?;
    println!(rt; "  with a row for 50098")?;
    kiosk.row(simple(50098, b"base", b'U'))?;
    for _ in 0..2u8 {
        kiosk.resolve(rt, &[Wanted::ArrayOf(b"cell")])?;
    }
    kiosk.print_links(rt, b"cell", Oid(50003))?;
    kiosk.print_book(rt)
}
