// How much text each addition takes.
use crate::bench::Bench;
use crate::lent::{MANY, Room};
use crate::offer::{
    EMPTY, Offer, Sort, Texts, column, composed, labelled, long, name, row, simple,
};
use crate::trial::Trial;

// So many times the same three bytes.
fn alike(count: usize) -> Texts {
    Texts {
        first: long(9, 3),
        stride: 0,
        count,
    }
}

// So many of 63 bytes.
fn long_ones(count: usize) -> Texts {
    Texts {
        first: long(0, 63),
        stride: 4,
        count,
    }
}

pub fn all(rt: &HostRuntime, bench: &mut Bench) -> anyhow::Result<()> {
    // Each offer, and how much text is taken after it.
    let cases = [
        (Offer::Row(50001, long(1, 1), Sort::Simple), 1),
        (Offer::Row(50002, long(1, 128), Sort::Pseudo), 129),
        (row(50003, Sort::Domain(50001)), 133),
        (row(50004, Sort::Array(50001)), 137),
        (row(50005, Sort::Range(23)), 141),
        (row(50006, Sort::Enum(long_ones(3))), 334),
        (row(50007, Sort::Enum(alike(5))), 353),
        (
            row(50008, Sort::Composite(long_ones(64), &[50001, 23])),
            4389,
        ),
        (row(50009, Sort::Composite(alike(2), &[50008])), 4399),
        (labelled(50010, 0), 4403),
        (composed(50011, 0, &[]), 4407),
        (simple(50001), 4407),
        (simple(23), 4407),
        (row(50012, Sort::Domain(60000)), 4407),
        (row(50012, Sort::Malformed(b'd', b'U')), 4407),
        (simple(50012), 4411),
        (simple(51012), 4415),
        (name(12, 50012), 4419),
        (name(12, 51012), 4419),
        (name(500, 50012), 4423),
        (Offer::Name(EMPTY, 50012), 4423),
        (Offer::Name(long(500, 200), 50012), 4623),
        (Offer::Array(50001, 50004), 4623),
        (column(7, 1, 600, 700), 4631),
        (column(7, 2, 600, 700), 4635),
        (column(7, 2, 600, 701), 4635),
        (column(7, 3, 601, 702), 4639),
        (column(8, 1, 600, 700), 4647),
        (column(8, 2, 600, 600), 4651),
        (Offer::Column(9, 1, long(600, 100), EMPTY), 4751),
        (Offer::Column(9, 2, long(600, 100), long(700, 70)), 4821),
        (Offer::Column(10, 1, EMPTY, EMPTY), 4821),
        (column(10, 2, 600, 700), 4825),
    ];
    let mut room = Room::new(rt.alloc(), MANY)?;
    let mut trial = Trial::new(rt.alloc(), room.lend(), MANY, bench.host.as_bytes());
    for (offer, expected) in cases {
        trial.offer(offer)?;
        let text = trial.book.taken().text;
        bench
            .tally
            .note(rt, &format_args!("{offer:?}, text"), &text, &expected)?;
    }
    let untold = trial.untold();
    bench.tally.note(rt, &"not told", &untold, &None)?;
    bench.tally.close(rt, "bytes of text")?;
    Ok(())
}
