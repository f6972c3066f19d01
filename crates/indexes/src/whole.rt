// Values by a key that a slot keeps whole: an OID, or an attribute of a relation.
use keys::key::WholeKey;
use keys::kinds::Attribute;
use slots::map::{Entry, Map, Stop};
use std::marker::Model;
use type_info::oid::Oid;

#[derive(Drop)]
pub struct Index<'a, K: WholeKey, V> {
    map: Map<'a, K, V>,
    count: usize,
}

pub type OidIndex<'a, V> = Index<'a, Oid, V>;

pub type AttributeIndex<'a, V> = Index<'a, Attribute, V>;

impl<'a, K: WholeKey, V> Model for Index<'a, K, V> {
    ghost use Rattle.std.specs.Prelude.{◌≡◌, List, []};
    ghost use Rattle.slots.specs.Slots.{Entry, Kept, filled};

    ghost Value = { List (Entry K V) };

    ghost view = { λ t. t.map.slots.now };

    ghost invariant = { λ t. (t.count ≡ filled t.map.slots.now) × Kept K.stands K.digest K.extent [] t.map.slots.now };
}

impl<'a, K: WholeKey, V: Copy> Index<'a, K, V> {
    ghost use Rattle.std.specs.Prelude.{◌≡◌, [], length, None};
    ghost use Rattle.indexes.specs.Known.{Gained, HasEmpty, Interned};
    ghost use Rattle.slots.specs.Slots.{filled, held, looks};

    // A table without keys over lent slots, whatever these held before.
    pub fn new(slots: &'a mut [Entry<K, V>]) -> Index<'a, K, V>
        ensures holds { (q : K.Key.Sense) → held K.alike (K.stands []) result q ≡ None }
        ensures count { filled result ≡ 0 }
        ensures size { length result ≡ length slots.old }
    {
        Index {
            map: Map::empty::<K>(slots),
            count: 0,
        }
    }

    // How many keys the table has.
    pub fn len(&self) -> usize
        ensures { result ≡ filled self.now }
    {
        self.count
    }

    // How many slots are lent.
    pub fn capacity(&self) -> usize
        ensures { result ≡ length self.now }
    {
        self.map.slots.len()
    }

    // Takes every key out.
    pub fn clear(&mut self)
        ensures holds { (q : K.Key.Sense) → held K.alike (K.stands []) self.new q ≡ None }
        ensures count { filled self.new ≡ 0 }
        ensures size { length self.new ≡ length self.old }
    {
        self.map.clear::<K>();
        self.count = 0;
    }

    pub fn find(&self, key: K) -> Option<V>
        ensures { result ≡ held K.alike (K.stands []) self.now (K.means key) }
    {
        self.map.over(&[]).get(&key)
    }

    // How many slots a search for the key looks at.
    pub fn looked(&self, key: K) -> usize
        ensures { result ≡ looks K.alike (K.stands []) K.digest self.now (K.means key) }
    {
        self.map.over(&[]).seek(&key).looked
    }

    // The value under the key: the one that it has, or the one that is offered, where a slot is empty.
    pub fn intern(&mut self, key: K, value: V) -> Option<V>
        ensures { Interned (held K.alike (K.stands []) self.old (K.means key)) value (HasEmpty self.old)
            (Gained K.alike (K.stands []) self.old (K.means key) value self.new) (self.new ≡ self.old) result }
    {
        match self.map.insert(&[], &key, key, value).stop {
            Stop::Hit(_, present) => Some(present),
            Stop::Gap(_) => {
                self.count += 1;
                Some(value)
            }
            Stop::Crowded => None,
        }
    }
}
