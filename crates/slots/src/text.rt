// Bytes that the host lends, of which the first `used` are the text. It grows at its end, and is taken out as a whole.
ghost use Rattle.std.specs.Prelude.{◌≡◌, []};
ghost use Rattle.slots.specs.Text.{Appended, lent};

use keys::span::Span;
use std::marker::Model;

#[derive(Drop)]
pub struct Text<'a> {
    bytes: &'a mut [u8],
    used: usize,
}

impl<'a> Model for Text<'a> {
    ghost use Rattle.std.specs.Prelude.{◌≤◌, length, take, drop};
    ghost use Rattle.slots.specs.Text.{LentText};

    ghost Value = { LentText };

    ghost view = { λ t. record { text = take t.used t.bytes.now; spare = drop t.used t.bytes.now } };

    ghost invariant = { λ t. t.used ≤ length t.bytes.now };
}

impl<'a> Text<'a> {
    // A text without bytes, whatever lay in them before.
    pub fn new(bytes: &'a mut [u8]) -> Text<'a>
        ensures { result ≡ record { text = []; spare = bytes.old } }
    {
        Text { bytes, used: 0 }
    }

    pub fn get(&self) -> &[u8]
        ensures { result.now ≡ self.now.text }
    {
        &self.bytes[..self.used]
    }

    // How many bytes are lent.
    pub fn lent(&self) -> usize
        ensures { result ≡ lent self.now }
    {
        self.bytes.len()
    }

    // Takes the whole text out. All lent bytes are spare then.
    pub fn clear(&mut self)
        ensures text { self.new.text ≡ [] }
        ensures lent { lent self.new ≡ lent self.old }
    {
        self.used = 0;
    }

    // Lays bytes behind the text, unless they do not fit: then nothing changes.
    pub fn append(&mut self, bytes: &[u8]) -> Option<Span>
        ensures room { lent self.new ≡ lent self.old }
        ensures after { Appended self.old bytes.now result self.new }
    {
        let start = u32::try_from(self.used).ok()?;
        let length = u32::try_from(bytes.len()).ok()?;
        let end = start.checked_add(length)? as usize;
        if end > self.bytes.len() {
            return None;
        }
        self.bytes[self.used..end].copy_from_slice(bytes);
        self.used = end;
        Some(Span { start, length })
    }
}
