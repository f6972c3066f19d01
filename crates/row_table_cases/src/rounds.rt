// What an allowance grants, and the memory that a table is made of.
use crate::bench::Bench;
use crate::offer::{column, name, row};
use crate::room::Room;
use crate::trial::Trial;
use anyhow::Context;
use catalog::questions::TypeCatalog;
use row_table::table::RowTable;
use std::fmt;

// How many rounds were opened, and what was left of the allowance.
#[derive(Clone, Copy, PartialEq, Eq)]
struct Granted {
    opened: u32,
    left: u32,
}

impl fmt::Display for Granted {
    fn fmt<W: fmt::Write>(&self, f: &mut fmt::Formatter<W>) -> fmt::Result {
        write!(f, "{} opened, {} left", self.opened, self.left)
    }
}

// Asks for so many rounds, one after the other.
fn open_rounds(table: &mut RowTable<'_>, asked: u32) -> Granted {
    let mut opened = 0u32;
    for _ in 0..asked {
        if let Ok(round) = table.open() {
            table.close(round);
            opened = opened.saturating_add(1);
        }
    }
    Granted {
        opened,
        left: table.allowance(),
    }
}

// An allowance, how many rounds are asked for, how many are opened, and what is left.
const ALLOWANCES: [(u32, u32, u32, u32); 7] = [
    (0, 0, 0, 0),
    (0, 2, 0, 0),
    (1, 1, 1, 0),
    (1, 2, 1, 0),
    (2, 1, 1, 1),
    (3, 5, 3, 0),
    (4294967295, 2, 2, 4294967293),
];

// At an allowance that the table was made with, and again at one that was set. What is held stays.
pub fn allowances(rt: &HostRuntime, bench: &mut Bench) -> anyhow::Result<()> {
    let held = [row(1), name(500, 1), column(7, 1, 600, 700)];
    println!(rt; "row 1, name 0500 to 1 and column 1 of 7 are held")?;
    for (allowance, asked, opened, left) in ALLOWANCES {
        let table = RowTable::new(bench.room.lend(), allowance).context("memory of another size")?;
        let mut trial = Trial::new(rt.alloc(), table, bench.host.as_bytes(), &held)?;
        let granted = open_rounds(&mut trial.table, asked);
        trial.table.set_allowance(allowance);
        let again = open_rounds(&mut trial.table, asked);
        trial.table.set_allowance(1);
        let expected = granted == Granted { opened, left } && again == granted;
        let words = format_args!("allowance {allowance}, rounds asked for {asked}");
        let kept = trial.tells_accepted()?;
        bench.tally.note(rt, &words, &granted, expected && kept)?;
    }
    Ok(())
}

// Slots for rows and for names, bytes for names, slots for relations and for columns, and whether a table is made of them.
const MEMORIES: [(usize, usize, usize, usize, usize, bool); 11] = [
    (256, 512, 65536, 1024, 1024, true),
    (255, 512, 65536, 1024, 1024, false),
    (257, 512, 65536, 1024, 1024, false),
    (256, 511, 65536, 1024, 1024, false),
    (256, 513, 65536, 1024, 1024, false),
    (256, 512, 65535, 1024, 1024, false),
    (256, 512, 65537, 1024, 1024, false),
    (256, 512, 65536, 1023, 1024, false),
    (256, 512, 65536, 1025, 1024, false),
    (256, 512, 65536, 1024, 1023, false),
    (256, 512, 65536, 1024, 1025, false),
];

pub fn memories(rt: &HostRuntime, bench: &mut Bench) -> anyhow::Result<()> {
    for (rows, names, text, relations, columns, whole) in MEMORIES {
        let mut room = Room::new(rt.alloc(), rows, names, text, relations, columns)?;
        let made = RowTable::new(room.lend(), 0).is_some();
        let words = format_args!(
            "memory of {rows} rows, {names} names, {text} bytes, {relations} relations, {columns} columns"
        );
        let outcome = if made { "ok" } else { "none" };
        bench.tally.note(rt, &words, &outcome, made == whole)?;
    }
    Ok(())
}
