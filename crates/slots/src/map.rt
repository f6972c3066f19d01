// A hash map over slots that the host lends, for every kind of key and value. No key is ever overwritten, and none is taken
// out but with all the others.
ghost use Rattle.std.specs.Prelude.{◌≡◌, ℕ, ◌+◌, ◌<◌, ◌≤◌, List, length, None, ⊤};
ghost use Rattle.slots.specs.Slots.{filled, held, looks, Within, Kept, StoredAs, Told, Free, Added, Inserted, Steady};

use keys::key::Key;
use std::alloc::AllocError;

// A slot: a stored key with its value, or nothing.
pub type Entry<S, V> = Option<(S, V)>;

// Where a search stopped: at the key's slot, with its value, at an empty slot, or past the last with none empty.
#[derive(Clone, Copy, PartialEq, Eq, Debug)]
pub enum Stop<V> {
    Hit(usize, V),
    Gap(usize),
    Crowded,
}

// What a search tells: how many slots it looked at, from the key's home on, and where it stopped.
#[derive(Clone, Copy, PartialEq, Eq, Debug)]
pub struct Sought<V> {
    pub looked: usize,
    pub stop: Stop<V>,
}

// A map over the text that its stored keys need to say what they stand for: what is looked up in it.
pub struct Lookup<'m, K: Key, V> {
    pub slots: &'m [Entry<K::Stored, V>],
    pub text: &'m [u8],
    ghost kept: { Kept K.stands K.digest K.extent text.now slots.now },
}

impl<K: Key, V> Clone for Lookup<'_, K, V> {
    ghost is_clone = { λ s r. r ≡ s };

    ghost is_infallible = { λ _. ⊤ };

    fn clone(&self) -> Result<Self, AllocError> {
        Ok(*self)
    }
}

impl<K: Key, V> Copy for Lookup<'_, K, V> {}

impl<'m, K: Key, V: Copy> Lookup<'m, K, V> {
    // Looks for the key, from its home slot on.
    pub fn seek(&self, key: &K) -> Sought<V>
        ensures told { Told K.alike (K.stands self.now.text.now) K.digest self.now.slots.now (K.means key.now) result.looked result.stop }
        ensures counted { result.looked ≡ looks K.alike (K.stands self.now.text.now) K.digest self.now.slots.now (K.means key.now) }
    {
        let n = self.slots.len();
        let crowded = Sought {
            looked: n,
            stop: Stop::Crowded,
        };
        if n == 0 {
            return crowded;
        }
        let home = key.hash() as usize % n;
        for (step, i) in (home..n).chain(0..home).enumerate() {
            match &self.slots[i] {
                None => return Sought {
                    looked: step + 1,
                    stop: Stop::Gap(i),
                },
                Some((stored, value)) if key.matches(*stored, self.text) => return Sought {
                    looked: step + 1,
                    stop: Stop::Hit(i, *value),
                },
                Some(_) => {}
            }
        }
        crowded
    }

    // The value under the key.
    pub fn get(&self, key: &K) -> Option<V>
        ensures { result ≡ held K.alike (K.stands self.now.text.now) self.now.slots.now (K.means key.now) }
    {
        match self.seek(key).stop {
            Stop::Hit(_, value) => Some(value),
            Stop::Gap(_) | Stop::Crowded => None,
        }
    }

    // As `Map::growth`, over the text that is looked up in.
    pub fn growth(&self)
        ensures { (more : List ℕ) → Steady K.alike K.stands K.digest K.extent self.now.text.now more self.now.slots.now }
    {}
}

// The slots of a map that grows. What keeps them is the owner's to state, as the invariant of its own model.
#[derive(Drop)]
pub struct Map<'a, S, V> {
    pub slots: &'a mut [Entry<S, V>],
}

impl<'a, S: Copy, V: Copy> Map<'a, S, V> {
    // A map over slots that the host lends, with nothing in it.
    pub fn empty<K: Key<Stored = S>>(slots: &'a mut [Entry<S, V>]) -> Map<'a, S, V>
        ensures kept { (text : List ℕ) → Kept K.stands K.digest K.extent text result.slots.now }
        ensures holds { (text : List ℕ) (q : K.Key.Sense) → held K.alike (K.stands text) result.slots.now q ≡ None }
        ensures count { filled result.slots.now ≡ 0 }
        ensures size { length result.slots.now ≡ length slots.old }
    {
        let mut map = Map { slots };
        map.clear::<K>();
        map
    }

    // Empties every slot.
    pub fn clear<K: Key<Stored = S>>(&mut self)
        ensures kept { (text : List ℕ) → Kept K.stands K.digest K.extent text self.new.slots.now }
        ensures holds { (text : List ℕ) (q : K.Key.Sense) → held K.alike (K.stands text) self.new.slots.now q ≡ None }
        ensures count { filled self.new.slots.now ≡ 0 }
        ensures size { length self.new.slots.now ≡ length self.old.slots.now }
    {
        self.slots.fill(None);
    }

    // The map over a text in which its stored keys lie.
    pub fn over<'m, K: Key<Stored = S>>(&'m self, text: &'m [u8]) -> Lookup<'m, K, V>
        requires { Kept K.stands K.digest K.extent text.now self.now.slots.now }
        ensures slots { result.slots.now ≡ self.now.slots.now }
        ensures text { result.text.now ≡ text.now }
    {
        Lookup {
            slots: self.slots,
            text,
        }
    }

    // A text that grows at its end leaves what the slots hold: the call tells a proof so, and does nothing.
    pub fn growth<K: Key<Stored = S>>(&self, text: &[u8])
        requires { Within K.extent (length text.now) self.now.slots.now }
        ensures { (more : List ℕ) → Steady K.alike K.stands K.digest K.extent text.now more self.now.slots.now }
    {}

    // Puts an absent key into the empty slot at which a search for it stopped.
    pub fn put<K: Key<Stored = S>>(
        &mut self,
        text: &[u8],
        slot: usize,
        key: &K,
        stored: S,
        value: V,
    )
        requires kept { Kept K.stands K.digest K.extent text.now self.old.slots.now }
        requires stored { StoredAs K.stands K.extent text.now (K.means key.now) stored }
        requires free { Free (K.stands text.now) K.digest self.old.slots.now (K.means key.now) slot }
        ensures added { Added K.alike (K.stands text.now) K.digest self.old.slots.now (K.means key.now) value self.new.slots.now }
        ensures kept { Kept K.stands K.digest K.extent text.now self.new.slots.now }
    {
        self.slots[slot] = Some((stored, value));
    }

    // Adds the key with the value, unless the key is there or no slot is empty.
    pub fn insert<K: Key<Stored = S>>(
        &mut self,
        text: &[u8],
        key: &K,
        stored: S,
        value: V,
    ) -> Sought<V>
        requires kept { Kept K.stands K.digest K.extent text.now self.old.slots.now }
        requires stored { StoredAs K.stands K.extent text.now (K.means key.now) stored }
        ensures told { Told K.alike (K.stands text.now) K.digest self.old.slots.now (K.means key.now) result.looked result.stop }
        ensures counted { result.looked ≡ looks K.alike (K.stands text.now) K.digest self.old.slots.now (K.means key.now) }
        ensures after { Inserted K.alike (K.stands text.now) K.digest self.old.slots.now (K.means key.now) value result.stop self.new.slots.now }
        ensures kept { Kept K.stands K.digest K.extent text.now self.new.slots.now }
    {
        let sought = self.over(text).seek(key);
        if let Stop::Gap(slot) = sought.stop {
            self.put(text, slot, key, stored, value);
        }
        sought
    }
}
