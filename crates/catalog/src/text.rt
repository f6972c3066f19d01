// A text of 1 to N bytes, held in place.
ghost use Rattle.std.specs.Prelude.{◌≤◌, length};
ghost use Rattle.catalog.specs.Few.{standing};

use crate::few::Few;

#[derive(Clone, Copy, PartialEq, Eq)]
pub struct Text<const N: usize> {
    bytes: Few<u8, N>,
    ghost some: { 1 ≤ length (standing bytes) },
}

impl<const N: usize> Text<N> {
    ghost use Rattle.std.specs.Prelude.{◌≡◌, MatchOption};
    ghost use Rattle.catalog.specs.Meaning.{text_of};

    // Nothing where the bytes are none or more than N.
    pub fn new(text: &[u8]) -> Option<Text<N>>
        ensures { MatchOption result ((1 ≤ length text.now → length text.now ≤ N → ⊥)) (λ t. text_of t ≡ text.now) }
    {
        if text.is_empty() {
            return None;
        }
        let bytes = Few::from_slice(text, 0)?;
        Some(Text { bytes })
    }

    pub fn get(&self) -> &[u8]
        ensures { result.now ≡ text_of self.now }
    {
        self.bytes.as_slice()
    }
}
