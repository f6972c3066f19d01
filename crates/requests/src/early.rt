// What is refused before any round: a list that is too long, an answer buffer that is too short, a name that may not be.
ghost use Rattle.std.specs.Prelude.{◌≡◌, ℕ, ◌+◌, ◌<◌, ◌≤◌, ◌^◌, Bool, List, length, map, nat_lt, IfSome, MatchOption, if◌then◌else◌};
ghost use Rattle.std.specs.Option.{option_map, option_or};
ghost use Rattle.life.specs.HostCalls.{early_refusal, field_name, first_misnamed as misnamed_from, host_bind, host_fill, host_resolve, misnamed as is_misnamed, type_name};
ghost use Rattle.requests.specs.Asked.{field_asked, type_asked};
ghost use Rattle.requests.specs.Early.{bind_asked, early_told, place_of, resolve_asked};

use crate::asked::{FieldAsked, TypeAsked, inside};
use keys::span::Span;

// A place counts entries from 0, in a bind from the parameters on through the fields.
#[derive(Clone, Copy, PartialEq, Eq, Debug)]
pub enum Early {
    // A list goes on here behind its 256th entry.
    TooLong { place: usize },
    // This entry, the first of them, has no slot in the answer buffer of its list.
    NoSlot { place: usize },
    // The name of this entry has a wrong length or lies outside the host text.
    BadName { place: usize },
}

// How many entries a list may have.
pub(crate) const MOST: usize = 256;

// Where nothing is refused, each list has at most so many entries, and the answer buffer of each a slot for each of its entries.
pub fn fill_refused(oids: &[u32]) -> Option<Early>
    ensures told { (host : List ℕ) → option_map early_told result ≡ early_refusal host (host_fill oids.now) }
    ensures within { MatchOption result (length oids.now ≤ 256) (λ e. place_of e ≤ 512) }
{
    let place = first_behind(MOST, 0, oids.len())?;
    Some(Early::TooLong { place })
}

pub fn resolve_refused(host: &[u8], entries: &[TypeAsked], slots: usize) -> Option<Early>
    ensures told { option_map early_told result ≡ early_refusal host.now (host_resolve (resolve_asked entries.now slots)) }
    ensures within { MatchOption result ((length entries.now ≤ 256) × (length entries.now ≤ slots)) (λ e. place_of e ≤ 512) }
{
    let count = entries.len();
    if let Some(place) = first_behind(MOST, 0, count) {
        return Some(Early::TooLong { place });
    }
    if let Some(place) = first_behind(slots, 0, count) {
        return Some(Early::NoSlot { place });
    }
    let place = first_misnamed(host, entries)?;
    Some(Early::BadName { place })
}

pub fn bind_refused(
    host: &[u8],
    parameters: &[u32],
    fields: &[FieldAsked],
    parameter_slots: usize,
    column_slots: usize,
) -> Option<Early>
    ensures told { (queries origins : Bool) → option_map early_told result ≡
        early_refusal host.now (host_bind (bind_asked parameters.now fields.now queries origins parameter_slots column_slots)) }
    ensures within { MatchOption result
        ((length parameters.now ≤ 256) × (length fields.now ≤ 256) × (length parameters.now ≤ parameter_slots) × (length fields.now ≤ column_slots))
        (λ e. place_of e ≤ 512) }
{
    let count = parameters.len();
    if let Some(place) = first_behind_either(MOST, count, MOST, fields.len()) {
        return Some(Early::TooLong { place });
    }
    if let Some(place) = first_behind_either(parameter_slots, count, column_slots, fields.len()) {
        return Some(Early::NoSlot { place });
    }
    let place = first_field_misnamed(host, count, fields)?;
    Some(Early::BadName { place })
}

// The place, counted from `from`, of the first of `count` entries that has no slot, where there are so many slots.
fn first_behind(slots: usize, from: usize, count: usize) -> Option<usize>
    requires { from + count < 2 ^ 64 }
    ensures told { result ≡ (if nat_lt slots count then Some (from + slots) else None) }
    ensures below { MatchOption result (count ≤ slots) (λ place. (place ≡ from + slots) × (slots < count)) }
{
    if slots < count {
        Some(from + slots)
    } else {
        None
    }
}

// The same of two lists, of which the second goes on behind the first.
fn first_behind_either(slots: usize, count: usize, more_slots: usize, more: usize) -> Option<usize>
    requires { count + more < 2 ^ 64 }
    ensures told { result ≡ option_or (if nat_lt slots count then Some (0 + slots) else None)
        (if nat_lt more_slots more then Some (count + more_slots) else None) }
    ensures below { MatchOption result ((count ≤ slots) × (more ≤ more_slots))
        (λ place. (place ≤ slots + more_slots) × (place < count + more)) }
{
    match first_behind(slots, 0, count) {
        Some(place) => Some(place),
        None => first_behind(more_slots, count, more),
    }
}

// The name is too short or too long, or lies outside the text.
fn misnamed(host: &[u8], span: Span, least: u32, most: u32) -> bool
    ensures { result ≡ is_misnamed host.now (Some (record { span = span; least = least; most = most })) }
{
    !(inside(host, span) && least <= span.length && span.length <= most)
}

fn type_misnamed(host: &[u8], entry: TypeAsked) -> bool
    ensures { result ≡ is_misnamed host.now (type_name (type_asked entry)) }
{
    match entry {
        TypeAsked::Oid(_) => false,
        TypeAsked::Name(span) => misnamed(host, span, 1, 128),
        TypeAsked::ArrayOf(span) => misnamed(host, span, 1, 126),
    }
}

fn first_misnamed(host: &[u8], entries: &[TypeAsked]) -> Option<usize>
    ensures told { result ≡ misnamed_from host.now type_name 0 (map type_asked entries.now) }
    ensures below { IfSome result (λ place. place < length entries.now) }
{
    for (place, entry) in entries.iter().enumerate() {
        if type_misnamed(host, *entry) {
            return Some(place);
        }
    }
    None
}

// Counted from `from`.
fn first_field_misnamed(host: &[u8], from: usize, fields: &[FieldAsked]) -> Option<usize>
    requires { from + length fields.now < 2 ^ 64 }
    ensures told { result ≡ misnamed_from host.now field_name from (map field_asked fields.now) }
    ensures below { IfSome result (λ place. place < from + length fields.now) }
{
    for (i, field) in fields.iter().enumerate() {
        if misnamed(host, field.name, 0, 128) {
            return Some(from + i);
        }
    }
    None
}
