// Noting where names lead, and what was read of an element for its array alone.
ghost use Rattle.std.specs.Prelude.{◌≡◌, ◌∷◌, ◌++◌, ◌<◌, [], MatchOption, false, length, map, nat_eq};
ghost use Rattle.std.specs.Option.{option_map};
ghost use Rattle.catalog.specs.Meaning.{oid_told};
ghost use Rattle.entries.specs.Notes.{WholeNotes, apart_of, apart_told, leads_told};
ghost use Rattle.entries.specs.Tables.{noted};
ghost use Rattle.life.specs.Lists.{is_in};
ghost use Rattle.room.specs.Tables.{look_up};

use crate::notes::{MOST_NOTES, NOTE_SLOTS, Notes, NotesMemory};
use indexes::whole::OidIndex;
use slots::stack::Stack;
use type_info::oid::Oid;

impl<'a> Notes<'a> {
    // Nothing noted; none where the memory is not of the tables' size.
    pub fn new(memory: NotesMemory<'a>) -> Option<Notes<'a>>
        ensures { MatchOption result (WholeNotes memory.entry → ⊥)
            (λ n. WholeNotes memory.entry × (leads_told n ≡ []) × (apart_told n ≡ [])) }
    {
        let NotesMemory {
            leads,
            apart,
            index,
        } = memory;
        if leads.len() != MOST_NOTES || apart.len() != MOST_NOTES || index.len() != NOTE_SLOTS {
            return None;
        }
        Some(Notes {
            leads: Stack::new(leads),
            apart: Stack::new(apart),
            index: OidIndex::new(index),
        })
    }

    // Nothing noted, whatever was there.
    pub fn clear(&mut self)
        ensures leads { leads_told self.new ≡ [] }
        ensures apart { apart_told self.new ≡ [] }
    {
        self.leads.clear();
        self.apart.clear();
        self.index.clear();
    }

    // The OID that the name of each entry leads to, if any, in the order of the entries.
    pub fn leads(&self) -> &[Option<Oid>]
        ensures { map oid_told result.now ≡ leads_told self.now }
    {
        self.leads.as_slice()
    }

    // The elements read for their typarray alone, each with it, in the order in which they were read.
    pub fn apart(&self) -> &[(Oid, Option<Oid>)]
        ensures { map noted result.now ≡ apart_told self.now }
    {
        self.apart.as_slice()
    }

    pub(crate) fn push_lead(&mut self, lead: Option<Oid>)
        ensures leads { length (leads_told self.old) < 256 → leads_told self.new ≡ leads_told self.old ++ oid_told lead ∷ [] }
        ensures apart { apart_told self.new ≡ apart_told self.old }
    {
        self.leads.push(lead);
    }

    pub(crate) fn push_apart(&mut self, element: Oid, array: Option<Oid>)
        requires new { is_in element.0 (apart_of self.old) ≡ false }
        requires room { length (apart_told self.old) < 256 }
        ensures apart { apart_told self.new ≡ apart_told self.old ++ (element.0, oid_told array) ∷ [] }
        ensures leads { leads_told self.new ≡ leads_told self.old }
    {
        self.apart.push((element, array));
        self.index.intern(element, array);
    }

    // The typarray of an element that was read for it alone.
    pub(crate) fn array_apart(&self, element: Oid) -> Option<Option<Oid>>
        ensures { option_map oid_told result ≡ look_up nat_eq (apart_told self.now) element.0 }
    {
        self.index.find(element)
    }
}
