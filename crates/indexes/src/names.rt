// Values by name. The names lie in a text of the table's own.
ghost use Rattle.std.specs.Prelude.{◌≡◌, ℕ, List, [], length, None};
ghost use Rattle.indexes.specs.Known.{GainedName, HasRoom, Interned, known, looks_by_name};
ghost use Rattle.slots.specs.Slots.{filled};
ghost use Rattle.slots.specs.Text.{Appended, lent};

use keys::kinds::Name;
use keys::span::Span;
use slots::map::{Entry, Lookup, Map, Stop};
use slots::text::Text;
use std::marker::Model;

#[derive(Drop)]
pub struct NameIndex<'a, V> {
    text: Text<'a>,
    map: Map<'a, Span, V>,
    count: usize,
}

impl<'a, V> Model for NameIndex<'a, V> {
    ghost use Rattle.std.specs.Prelude.{◌≡◌};
    ghost use Rattle.indexes.specs.Known.{Names};
    ghost use Rattle.keys.specs.Senses.{bytes_digest};
    ghost use Rattle.keys.specs.Spans.{span_bytes, span_end};
    ghost use Rattle.slots.specs.Slots.{Kept, filled};

    ghost Value = { Names V };

    ghost view = { λ t. record { text = t.text; slots = t.map.slots.now } };

    ghost invariant = { λ t. (t.count ≡ filled t.map.slots.now) × Kept span_bytes bytes_digest span_end t.text.text t.map.slots.now };
}

impl<'a, V: Copy> NameIndex<'a, V> {
    // A table without names over lent bytes and slots, whatever these held before.
    pub fn new(bytes: &'a mut [u8], slots: &'a mut [Entry<Span, V>]) -> NameIndex<'a, V>
        ensures holds { (q : List ℕ) → known result q ≡ None }
        ensures count { filled result.slots ≡ 0 }
        ensures size { length result.slots ≡ length slots.old }
        ensures text { result.text ≡ record { text = []; spare = bytes.old } }
    {
        NameIndex {
            text: Text::new(bytes),
            map: Map::empty::<Name>(slots),
            count: 0,
        }
    }

    // How many names the table has.
    pub fn len(&self) -> usize
        ensures { result ≡ filled self.now.slots }
    {
        self.count
    }

    // How many names there are slots for.
    pub fn capacity(&self) -> usize
        ensures { result ≡ length self.now.slots }
    {
        self.map.slots.len()
    }

    // The text that the names lie in, with all else that was laid there.
    pub fn text(&self) -> &[u8]
        ensures { result.now ≡ self.now.text.text }
    {
        self.text.get()
    }

    // How many bytes are lent for it.
    pub fn bytes_lent(&self) -> usize
        ensures { result ≡ lent self.now.text }
    {
        self.text.lent()
    }

    // Takes every name out, and the text that they lay in.
    pub fn clear(&mut self)
        ensures holds { (q : List ℕ) → known self.new q ≡ None }
        ensures count { filled self.new.slots ≡ 0 }
        ensures size { length self.new.slots ≡ length self.old.slots }
        ensures text { self.new.text.text ≡ [] }
        ensures lent { lent self.new.text ≡ lent self.old.text }
    {
        self.text.clear();
        self.map.clear::<Name>();
        self.count = 0;
    }

    // Lays bytes behind the text, where there is room, and adds no name.
    pub fn append(&mut self, bytes: &[u8]) -> Option<Span>
        ensures slots { self.new.slots ≡ self.old.slots }
        ensures knows { (q : List ℕ) → known self.new q ≡ known self.old q }
        ensures lent { lent self.new.text ≡ lent self.old.text }
        ensures text { Appended self.old.text bytes.now result self.new.text }
    {
        self.lookup().growth();
        self.text.append(bytes)
    }

    // The map over the text.
    fn lookup<'k>(&self) -> Lookup<'_, Name<'k>, V>
        ensures slots { result.slots.now ≡ self.now.slots }
        ensures text { result.text.now ≡ self.now.text.text }
    {
        self.map.over(self.text.get())
    }

    pub fn find(&self, name: &[u8]) -> Option<V>
        ensures { result ≡ known self.now name.now }
    {
        self.lookup().get(&Name(name))
    }

    // How many slots a search for the name looks at.
    pub fn looked(&self, name: &[u8]) -> usize
        ensures { result ≡ looks_by_name self.now name.now }
    {
        self.lookup().seek(&Name(name)).looked
    }

    // The value under the name: the one that it has, or the one that is offered, where there is room to add it.
    pub fn intern(&mut self, name: &[u8], value: V) -> Option<V>
        ensures { Interned (known self.old name.now) value (HasRoom self.old (length name.now))
            (GainedName self.old name.now value self.new) (self.new ≡ self.old) result }
    {
        let key = Name(name);
        let lookup = self.lookup();
        match lookup.seek(&key).stop {
            Stop::Hit(_, present) => Some(present),
            Stop::Crowded => None,
            Stop::Gap(slot) => {
                lookup.growth();
                let span = self.text.append(name)?;
                self.map.put(self.text.get(), slot, &key, span, value);
                self.count += 1;
                Some(value)
            }
        }
    }
}
