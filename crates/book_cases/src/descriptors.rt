// What descriptors are made of, and the rows that become none.
use crate::bench::{Bench, fill};
use crate::lent::{MANY, Room};
use crate::offer::{Offer, Sort, column, composed, labelled, name, row, simple};
use crate::outcome::Outcome::{Added, Refused};
use crate::telling::tells;
use crate::trial::Trial;
use type_info::builtin;
use type_info::builtin::BuiltInKind;

pub fn of_each_kind() -> [Offer; 7] {
    [
        simple(50001),
        row(50002, Sort::Pseudo),
        labelled(50003, 3),
        row(50004, Sort::Domain(50003)),
        row(50005, Sort::Array(50004)),
        row(50006, Sort::Range(50001)),
        composed(50007, 4, &[50005, 23, 50006]),
    ]
}

fn kinds(rt: &HostRuntime, bench: &mut Bench) -> anyhow::Result<()> {
    let [simple, pseudo, labels, domain, array, range, attributes] = of_each_kind();
    let cases = [
        (simple, Added),
        (pseudo, Added),
        (labels, Added),
        (domain, Added),
        (array, Added),
        (range, Added),
        (attributes, Added),
    ];
    bench.run(rt, MANY, &[], &cases)
}

fn many_parts(rt: &HostRuntime, bench: &mut Bench) -> anyhow::Result<()> {
    let cases = [
        (labelled(50001, 64), Added),
        (row(50002, Sort::Domain(50001)), Added),
        (
            composed(50003, 64, &[23, 50001, 25, 50002, 1007, 50001, 3904]),
            Added,
        ),
        (composed(50004, 64, &[50003]), Added),
        (labelled(50005, 63), Added),
        (composed(50006, 63, &[50004, 50003]), Added),
        (labelled(50007, 1), Added),
        (composed(50008, 1, &[50006]), Added),
        (labelled(50009, 0), Added),
        (composed(50010, 0, &[]), Added),
    ];
    bench.run(rt, MANY, &[], &cases)
}

fn shared(rt: &HostRuntime, bench: &mut Bench) -> anyhow::Result<()> {
    let cases = [
        (labelled(50001, 2), Added),
        (composed(50002, 2, &[50001, 23]), Added),
        (composed(50003, 2, &[25, 50001]), Added),
        (row(50004, Sort::Domain(50001)), Added),
        (composed(50005, 3, &[50001]), Added),
        (composed(50006, 4, &[50002, 50003, 50002, 50004]), Added),
        (row(50007, Sort::Array(50001)), Added),
        (row(50008, Sort::Array(50001)), Added),
    ];
    bench.run(rt, MANY, &[], &cases)
}

fn of_built_ins(rt: &HostRuntime, bench: &mut Bench) -> anyhow::Result<()> {
    let cases = [
        (row(50001, Sort::Array(23)), Added),
        (row(50002, Sort::Array(1007)), Added),
        (row(50003, Sort::Domain(3904)), Added),
        (row(50004, Sort::Range(25)), Added),
        (composed(50005, 4, &[705, 1007, 2249, 23]), Added),
    ];
    bench.run(rt, MANY, &[], &cases)
}

fn refused(rt: &HostRuntime, bench: &mut Bench) -> anyhow::Result<()> {
    let unknown = [
        (row(60001, Sort::Domain(60000)), Refused),
        (row(60001, Sort::Array(60000)), Refused),
        (row(60001, Sort::Range(60000)), Refused),
        (row(60001, Sort::Domain(60001)), Refused),
        (composed(60001, 1, &[60000]), Refused),
        (composed(60001, 3, &[23, 50003, 60000]), Refused),
        (composed(60001, 3, &[60000, 23, 50003]), Refused),
        (composed(60001, 2, &[23, 60001]), Refused),
        (simple(60000), Added),
        (composed(60001, 3, &[23, 50003, 60000]), Added),
    ];
    let known = [
        (simple(50001), Refused),
        (labelled(50001, 3), Refused),
        (row(50004, Sort::Domain(50001)), Refused),
        (composed(50007, 1, &[50007]), Refused),
        (simple(23), Refused),
        (labelled(25, 3), Refused),
        (row(1007, Sort::Array(50001)), Refused),
        (composed(3904, 1, &[50001]), Refused),
    ];
    let malformed = [
        (row(60001, Sort::Malformed(b'd', b'U')), Refused),
        (row(60001, Sort::Malformed(b'b', b'A')), Refused),
        (row(60001, Sort::Malformed(b'r', b'R')), Refused),
        (row(60001, Sort::Malformed(b'm', b'U')), Refused),
        (row(60001, Sort::Malformed(b'b', b'F')), Refused),
        (row(60001, Sort::Malformed(b'e', 0)), Refused),
        (row(60001, Sort::Malformed(255, b'E')), Refused),
        (row(50001, Sort::Malformed(b'd', b'U')), Refused),
        (row(23, Sort::Malformed(b'd', b'U')), Refused),
        (simple(60001), Added),
    ];
    bench.run(rt, MANY, &of_each_kind(), &unknown)?;
    bench.run(rt, MANY, &of_each_kind(), &known)?;
    bench.run(rt, MANY, &of_each_kind(), &malformed)
}

fn oids(rt: &HostRuntime, bench: &mut Bench) -> anyhow::Result<()> {
    let cases = [
        (row(60001, Sort::Domain(4294967295)), Refused),
        (simple(0), Added),
        (simple(4294967295), Added),
        (simple(0), Refused),
        (simple(4294967295), Refused),
        (row(60001, Sort::Domain(4294967295)), Added),
        (composed(4294967294, 2, &[4294967295, 60001]), Added),
        (simple(1), Added),
        (simple(22), Added),
        (simple(24), Added),
        (name(500, 0), Added),
        (name(501, 4294967295), Added),
        (Offer::Array(0, 4294967295), Added),
        (Offer::Array(4294967295, 0), Added),
        (column(0, 1, 600, 700), Added),
        (column(4294967295, 1, 601, 700), Added),
    ];
    bench.run(rt, MANY, &[], &cases)
}

// Each built-in type is told by a book that describes others.
fn built_ins(rt: &HostRuntime, bench: &mut Bench) -> anyhow::Result<()> {
    let mut room = Room::new(rt.alloc(), MANY)?;
    let host = bench.host.as_bytes();
    let mut trial = Trial::new(rt.alloc(), room.lend(), MANY, host);
    fill(rt, &mut bench.tally, &mut trial, &of_each_kind())?;
    for built_in in builtin::table() {
        let sort = match built_in.kind() {
            BuiltInKind::Simple => Sort::Simple,
            BuiltInKind::Pseudo => Sort::Pseudo,
            BuiltInKind::Array(of) => Sort::Array(of.0),
            BuiltInKind::Range(of) => Sort::Range(of.0),
        };
        let told = match trial.book.describe(built_in.oid()) {
            Some(settled) => tells(
                &trial.book,
                host,
                settled,
                built_in.oid().0,
                built_in.name(),
                sort,
            ),
            None => false,
        };
        let oid = built_in.oid();
        bench
            .tally
            .note(rt, &format_args!("{oid:?}, built in"), &told, &true)?;
    }
    Ok(())
}

pub fn all(rt: &HostRuntime, bench: &mut Bench) -> anyhow::Result<()> {
    kinds(rt, bench)?;
    many_parts(rt, bench)?;
    shared(rt, bench)?;
    of_built_ins(rt, bench)?;
    refused(rt, bench)?;
    oids(rt, bench)?;
    built_ins(rt, bench)?;
    bench.tally.close(rt, "descriptors")?;
    Ok(())
}
