// The columns of a bound statement by name.
ghost use Rattle.std.specs.Prelude.{◌≡◌, ◌<◌, ◌≤◌, ◌&&◌, length, nat_le, if◌then◌else◌};
ghost use Rattle.std.specs.Option.{option_map};
ghost use Rattle.keys.specs.Senses.{bytes_digest};
ghost use Rattle.keys.specs.Spans.{span_bytes, span_end};
ghost use Rattle.life.specs.Ordinal.{ordinal as ordinal_of};
ghost use Rattle.requests.specs.Ordinals.{Entered, Indexed};
ghost use Rattle.slots.specs.Slots.{Kept, filled};

use crate::asked::{inside, name_in};
use crate::early::MOST;
use keys::kinds::Name;
use keys::span::Span;
use slots::map::{Entry, Map};
use std::marker::Model;
use type_info::oid::Ordinal;

// The names of the columns, as spans of the host text, and slots that lead from a name to its last column.
#[derive(Drop)]
pub struct ColumnNames<'a> {
    host: &'a [u8],
    names: &'a [Span],
    map: Map<'a, Span, u8>,
}

impl<'a> Model for ColumnNames<'a> {
    ghost use Rattle.requests.specs.Ordinals.{Columns, Indexed};

    ghost Value = { Columns };

    ghost view = { λ c. record { host = c.host.now; names = c.names.now } };

    ghost invariant = { λ c. Indexed c.host.now 0 c.names.now c.map.slots.now };
}

impl<'a> ColumnNames<'a> {
    // Nothing where there are more than 256 names, or fewer slots than names.
    pub fn new(
        host: &'a [u8],
        names: &'a [Span],
        slots: &'a mut [Entry<Span, u8>],
    ) -> Option<ColumnNames<'a>>
        ensures { result ≡ (if nat_le (length names.now) 256 && nat_le (length names.now) (length slots.old)
            then Some (record { host = host.now; names = names.now }) else None) }
    {
        if names.len() <= MOST && names.len() <= slots.len() {
            let map = indexed(host, names, slots);
            Some(ColumnNames { host, names, map })
        } else {
            None
        }
    }

    // The last column of this name, which is a span of the host text too.
    pub fn ordinal(&self, name: Span) -> Option<Ordinal>
        ensures { option_map (λ o. o.0) result ≡ ordinal_of self.now.host self.now.names name }
    {
        if inside(self.host, name) {
            let bytes = name_in(self.host, name);
            let place = self.map.over(self.host).get(&Name(bytes))?;
            Some(Ordinal(place))
        } else {
            None
        }
    }
}

// The map keeps the first value of a key, so the names go in from the last to the first.
fn indexed<'a>(host: &[u8], names: &[Span], slots: &'a mut [Entry<Span, u8>]) -> Map<'a, Span, u8>
    requires few { length names.now ≤ 256 }
    requires room { length names.now ≤ length slots.old }
    ensures { Indexed host.now 0 names.now result.slots.now }
{
    let mut map = Map::empty::<Name>(slots);
    for place in (0..names.len()).rev() {
        enter(&mut map, host, names[place], place as u8);
    }
    map
}

// A name that lies outside the text does not go in.
fn enter(map: &mut Map<'_, Span, u8>, host: &[u8], name: Span, place: u8)
    requires kept { Kept span_bytes bytes_digest span_end host.now map.old.slots.now }
    requires room { filled map.old.slots.now < length map.old.slots.now }
    ensures { Entered host.now name place map.old.slots.now map.new.slots.now }
{
    if inside(host, name) {
        let bytes = name_in(host, name);
        map.insert(host, &Name(bytes), name, place);
    }
}
