// A key that is looked up, and the form in which a slot keeps it.
ghost use Rattle.std.specs.Prelude.{◌≡◌, ℕ, ◌≤◌, Bool, List, [], length, Decides};
ghost use Rattle.keys.specs.Laws.{Laws};

// A stored key may need the text to say what it stands for.
pub trait Key {
    type Stored: Copy;

    // What keys of this kind stand for.
    ghost Sense: { Type 0 };

    // What the key stands for.
    ghost means: { Self → Sense };

    // What a stored key stands for, over a text.
    ghost stands: { List ℕ → Self.Stored → Sense };

    // Whether two keys stand for the same.
    ghost alike: { Sense → Sense → Bool };

    // How far into the text a stored key reaches: where its kind says nothing, not at all.
    ghost extent: { Self.Stored → ℕ } = { λ _. 0 };

    // The hash of what a key stands for: equal keys share it, and so share their home slot.
    ghost digest: { Sense → ℕ };

    // What each kind of key proves of these.
    ghost laws: { Laws stands alike extent };

    // Whether the two stand for the same.
    fn matches(&self, stored: Self::Stored, text: &[u8]) -> bool
        requires { extent stored ≤ length text.now }
        ensures { Decides result (stands text.now stored ≡ means self.now) };

    fn hash(&self) -> u32
        ensures { result ≡ digest (means self.now) };
}

// A key that a slot keeps whole: it says what it stands for without a text.
pub trait WholeKey: Key<Stored = Self> + Copy {
    ghost whole: { (key : Self) → (Self.Key.extent key ≡ 0) × (Self.Key.stands [] key ≡ Self.Key.means key) };
}
