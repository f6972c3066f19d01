// How many slots a search for a key that is there looks at, on the average, at three loads.
use indexes::names::NameIndex;
use indexes::whole::OidIndex;
use keys::kinds::Attribute;
use slots::map::Map;
use std::alloc::AllocError;
use std::fs;
use type_info::oid::{AttributeNumber, Oid};

const KEYS: usize = 1024;

// Slots for 1,024 keys at a load of 0.50, 0.75 and 1.00.
const SIZES: [usize; 3] = [2048, 1365, 1024];

// At each load the average over the keys, in hundredths, with two places behind the point.
fn print_averages<F: Fn(usize) -> Result<usize, AllocError>>(
    rt: &HostRuntime,
    kind: &str,
    looked: F,
) -> anyhow::Result<()>
    requires { F.IsAlwaysCallable looked }
{
    for size in SIZES {
        let hundredths = looked(size)?.saturating_mul(100) / KEYS;
        let whole = hundredths / 100;
        let rest = hundredths % 100;
        println!(rt; "{kind}: {KEYS} keys in {size} slots, {whole}.{rest:02} looked at")?;
    }
    Ok(())
}

fn name_probes(rt: &HostRuntime, text: &str, size: usize) -> Result<usize, AllocError> {
    let mut bytes = vec![in rt.alloc(); 0u8; 65536]?;
    let mut slots = vec![in rt.alloc(); None; size]?;
    let mut table = NameIndex::new(&mut bytes[..], &mut slots[..]);
    for name in text.lines() {
        let _ = table.intern(name.as_bytes(), 0u8);
    }
    let looked = text.lines().map(|name| table.looked(name.as_bytes()));
    Ok(looked.fold(0, usize::saturating_add))
}

// 1,024 type names of a PostgreSQL, with and without their schemas.
pub fn names(rt: &HostRuntime) -> anyhow::Result<()> {
    let text = fs::read_to_string(rt, "type-names.txt")?;
    print_averages(
        rt,
        "type names",
        |size| name_probes(rt, text.as_str(), size),
    )
}

fn oid_probes(rt: &HostRuntime, oids: &[Oid], size: usize) -> Result<usize, AllocError> {
    let mut slots = vec![in rt.alloc(); None; size]?;
    let mut table = OidIndex::new(&mut slots[..]);
    for oid in oids {
        let _ = table.intern(*oid, 0u8);
    }
    let looked = oids.iter().map(|oid| table.looked(*oid));
    Ok(looked.fold(0, usize::saturating_add))
}

// OIDs as a database hands them out, one after the other and some way apart.
pub fn oids(rt: &HostRuntime) -> anyhow::Result<()> {
    for (kind, stride) in [("consecutive OIDs", 1u32), ("OIDs 1024 apart", 1024)] {
        let oids: Vec<Oid> = (0..1024u32)
            .map(|i| Oid(16384 + i * stride))
            .collect(rt.alloc())?;
        print_averages(rt, kind, |size| oid_probes(rt, oids.as_slice(), size))?;
    }
    Ok(())
}

fn attribute_probes(
    rt: &HostRuntime,
    attributes: &[Attribute],
    size: usize,
) -> Result<usize, AllocError> {
    let mut slots = vec![in rt.alloc(); None; size]?;
    let mut map = Map::empty::<Attribute>(&mut slots[..]);
    for attribute in attributes {
        let _ = map.insert(&[], attribute, *attribute, 0u8);
    }
    let lookup = map.over(&[]);
    let looked = attributes
        .iter()
        .map(move |attribute| lookup.seek(attribute).looked);
    Ok(looked.fold(0, usize::saturating_add))
}

// Attributes of one relation.
pub fn attributes(rt: &HostRuntime) -> anyhow::Result<()> {
    let attributes: Vec<Attribute> = (1..1025i16)
        .map(|number| Attribute {
            relation: Oid(16400),
            number: AttributeNumber(number),
        })
        .collect(rt.alloc())?;
    print_averages(rt, "attributes of a relation", |size| {
        attribute_probes(rt, attributes.as_slice(), size)
    })
}
