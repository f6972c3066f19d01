// Random insertions and look-ups in a small table, each compared with a map of std.
ghost use Rattle.std.specs.Prelude.{◌<◌, ◌≤◌, length};

use indexes::names::NameIndex;
use indexes::whole::OidIndex;
use std::alloc::{AllocError, Global};
use std::collections::BTreeMap;
use std::collections::btree_map::Entry;
use type_info::oid::Oid;

const TURNS: u32 = 20000;

// A linear congruential generator; the high bits are the random ones.
fn next(state: &mut u32) -> u32 {
    *state = state.wrapping_mul(1664525).wrapping_add(1013904223);
    *state >> 8
}

// What a table has to answer, and the room that is left in it.
#[derive(Drop)]
struct Expected {
    values: BTreeMap<u32, u32>,
    room: usize,
}

impl Expected {
    fn new(alloc: Global, room: usize) -> Expected {
        Expected {
            values: BTreeMap::new(alloc),
            room,
        }
    }

    fn find(&self, number: u32) -> Option<u32> {
        self.values.get(&number).copied()
    }

    fn intern(&mut self, number: u32, value: u32, size: usize) -> Result<Option<u32>, AllocError> {
        match self.values.entry(number)? {
            Entry::Occupied(present) => Ok(Some(*present.get())),
            Entry::Vacant(absent) => {
                let Some(room) = self.room.checked_sub(size) else {
                    return Ok(None);
                };
                self.room = room;
                absent.insert(value);
                Ok(Some(value))
            }
        }
    }
}

// A table whose keys are told by numbers.
trait Numbered {
    // How much of the table's room the key takes.
    fn size_of_key(number: u32) -> usize;

    fn find_number(&self, number: u32) -> Option<u32>;

    fn intern_number(&mut self, number: u32, value: u32) -> Option<u32>;
}

impl<'a> Numbered for OidIndex<'a, u32> {
    fn size_of_key(_number: u32) -> usize {
        1
    }

    fn find_number(&self, number: u32) -> Option<u32> {
        self.find(Oid(number))
    }

    fn intern_number(&mut self, number: u32, value: u32) -> Option<u32> {
        self.intern(Oid(number), value)
    }
}

// Each letter four times.
const LETTERS: &[u8; 104] =
    b"aaaabbbbccccddddeeeeffffgggghhhhiiiijjjjkkkkllllmmmmnnnnooooppppqqqqrrrrssssttttuuuuvvvvwwwwxxxxyyyyzzzz";

// Between one and four times the same letter, for a number below 4 * 26.
fn spell(number: u32) -> &'static [u8]
    ensures { length result.now ≤ 4 }
{
    let start = (number % 26) as usize * 4;
    let length = (number / 26 % 4) as usize + 1;
    let letters: &'static [u8] = LETTERS;
    &letters[start..start + length]
}

impl<'a> Numbered for NameIndex<'a, u32> {
    fn size_of_key(number: u32) -> usize {
        spell(number).len()
    }

    fn find_number(&self, number: u32) -> Option<u32> {
        self.find(spell(number))
    }

    fn intern_number(&mut self, number: u32, value: u32) -> Option<u32> {
        self.intern(spell(number), value)
    }
}

// How many of the turns with random keys the table answers as expected.
fn count_agreeing<T: Numbered>(
    table: &mut T,
    expected: &mut Expected,
    keys: u32,
    seed: u32,
) -> Result<u32, AllocError>
    requires { 0 < keys }
{
    let mut state = seed;
    let mut agree = 0;
    for turn in 0..TURNS {
        let number = next(&mut state) % keys;
        let same = if next(&mut state) % 3 == 0 {
            let answer = table.intern_number(number, turn);
            answer == expected.intern(number, turn, T::size_of_key(number))?
        } else {
            table.find_number(number) == expected.find(number)
        };
        agree += u32::from(same);
    }
    Ok(agree)
}

pub fn oids(rt: &HostRuntime) -> anyhow::Result<()> {
    let mut slots = [None; 61];
    let mut table = OidIndex::new(&mut slots);
    let mut expected = Expected::new(rt.alloc(), 61);
    let agree = count_agreeing(&mut table, &mut expected, 97, 1)?;
    let held = expected.values.len();
    println!(rt; "oids: {TURNS} turns, {agree} agree, {held} of 61 slots full")?;
    Ok(())
}

pub fn names(rt: &HostRuntime) -> anyhow::Result<()> {
    let mut bytes = [0u8; 150];
    let mut slots = [None; 128];
    let mut table = NameIndex::new(&mut bytes, &mut slots);
    let mut expected = Expected::new(rt.alloc(), 150);
    let agree = count_agreeing(&mut table, &mut expected, 104, 2)?;
    let held = expected.values.len();
    let used = 150usize.saturating_sub(expected.room);
    println!(rt; "names: {TURNS} turns, {agree} agree, {held} names in {used} of 150 bytes")?;
    Ok(())
}
