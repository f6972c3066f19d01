// Lists that are too long, buffers that are too short, and names of fields at their limits.
use crate::bench::{Memory, NO_COLUMN, NO_TYPE, UNWRITTEN, oids};
use crate::binds::fields;
use crate::outcome::{Outcome, must, refused};
use catalog::faults::Layer;
use heap::books::FULL;
use keys::span::Span;
use requests::asked::{FieldAsked, TypeAsked};
use std::alloc::Global;
use type_info::oid::Oid;

// A bind of so many parameters and fields over buffers of so many slots, without queries.
fn bound(
    alloc: Global,
    memory: &mut Memory,
    counts: (u32, u32),
    slots: (usize, usize),
    outcome: Outcome,
) -> anyhow::Result<()> {
    let parameters = oids(alloc, 0, counts.0)?;
    let fields = fields(alloc, counts.1, 256)?;
    let mut types = vec![in alloc; NO_TYPE; slots.0]?;
    let mut columns = vec![in alloc; NO_COLUMN; slots.1]?;
    let mut bench = memory.bench(FULL)?;
    let told = bench.bind(
        parameters.as_slice(),
        fields.as_slice(),
        false,
        false,
        types.as_mut_slice(),
        columns.as_mut_slice(),
    );
    must("a bind at an edge", told, outcome)
}

fn binds(rt: &HostRuntime, memory: &mut Memory) -> anyhow::Result<()> {
    let alloc = rt.alloc();
    bound(
        alloc,
        memory,
        (256, 256),
        (256, 256),
        Outcome::Accepted(0, 0),
    )?;
    bound(
        alloc,
        memory,
        (256, 256),
        (255, 256),
        refused(2, 255, Layer::Call, 0),
    )?;
    bound(
        alloc,
        memory,
        (256, 256),
        (256, 255),
        refused(2, 511, Layer::Call, 0),
    )?;
    bound(
        alloc,
        memory,
        (256, 256),
        (255, 255),
        refused(2, 255, Layer::Call, 0),
    )?;
    bound(alloc, memory, (1, 1), (0, 0), refused(2, 0, Layer::Call, 0))?;
    bound(alloc, memory, (0, 1), (0, 0), refused(2, 0, Layer::Call, 0))?;
    bound(alloc, memory, (0, 0), (0, 0), Outcome::Accepted(0, 0))?;
    bound(
        alloc,
        memory,
        (257, 256),
        (257, 256),
        refused(1, 256, Layer::Call, 0),
    )?;
    bound(
        alloc,
        memory,
        (256, 257),
        (256, 257),
        refused(1, 512, Layer::Call, 0),
    )?;
    bound(
        alloc,
        memory,
        (3, 257),
        (3, 257),
        refused(1, 259, Layer::Call, 0),
    )?;
    bound(
        alloc,
        memory,
        (257, 257),
        (0, 0),
        refused(1, 256, Layer::Call, 0),
    )?;
    println!(rt;
        "binds of 257 parameters or fields: refused 1; over buffers a slot short: refused 2"
    )?;
    Ok(())
}

// Behind two parameters and a field without a name.
fn named(memory: &mut Memory, name: Span, outcome: Outcome) -> anyhow::Result<()> {
    let field = |name: Span| FieldAsked {
        name,
        oid: Oid(23),
        relation: None,
        attribute: None,
    };
    let empty = Span {
        start: 4096,
        length: 0,
    };
    let mut types = [NO_TYPE; 2];
    let mut columns = [NO_COLUMN; 2];
    let mut bench = memory.bench(FULL)?;
    let fields = [field(empty), field(name)];
    let told = bench.bind(&[23, 25], &fields, true, true, &mut types, &mut columns);
    must("a field's name at its limit", told, outcome)
}

fn names(rt: &HostRuntime, memory: &mut Memory) -> anyhow::Result<()> {
    let taken = Outcome::Accepted(0, 0);
    let bad_name = refused(3, 3, Layer::Call, 0);
    let name = |start: u32, length: u32| Span { start, length };
    named(memory, name(0, 128), taken)?;
    named(memory, name(0, 129), bad_name)?;
    named(memory, name(0, 0), taken)?;
    named(memory, name(4095, 1), taken)?;
    named(memory, name(4095, 2), bad_name)?;
    named(memory, name(4097, 0), bad_name)?;
    named(memory, name(4294967295, 128), bad_name)?;
    println!(rt;
        "names of fields of 128 bytes and of none: taken; of 129 or outside the text: refused 3"
    )?;
    Ok(())
}

fn resolved(
    rt: &HostRuntime,
    memory: &mut Memory,
    slots: usize,
    outcome: Outcome,
) -> anyhow::Result<()> {
    let entries = vec![in rt.alloc(); TypeAsked::Oid(Oid(23)); 256]?;
    let mut out = vec![in rt.alloc(); UNWRITTEN; slots]?;
    let mut bench = memory.bench(FULL)?;
    let told = bench.resolve(entries.as_slice(), out.as_mut_slice());
    must("a resolve at an edge", told, outcome)?;
    let wanted = if outcome == Outcome::Accepted(0, 0) {
        23
    } else {
        UNWRITTEN
    };
    for slot in &out {
        must("a slot", *slot, wanted)?;
    }
    Ok(())
}

fn resolves(rt: &HostRuntime, memory: &mut Memory) -> anyhow::Result<()> {
    resolved(rt, memory, 256, Outcome::Accepted(0, 0))?;
    resolved(rt, memory, 255, refused(2, 255, Layer::Call, 0))?;
    resolved(rt, memory, 0, refused(2, 0, Layer::Call, 0))?;
    println!(rt; "resolves over buffers a slot short: refused 2")?;
    Ok(())
}

pub fn cases(rt: &HostRuntime, memory: &mut Memory) -> anyhow::Result<()> {
    binds(rt, memory)?;
    names(rt, memory)?;
    resolves(rt, memory)
}
