// How long the answer buffers of a step are.
ghost use Rattle.std.specs.Prelude.{◌≡◌, ◌≤◌, nat_lt};
ghost use Rattle.desk.specs.Buffers.{slots_asked};

// A list may have so many entries.
const MOST: usize = 256;

// The slots that are asked for, or as many as there are entries: of more than a list may have, no step makes use.
pub(crate) fn buffer_slots(asked: Option<u32>, entries: usize) -> usize
    ensures few { result ≤ 256 }
    ensures enough { entries ≤ 256 → nat_lt result entries ≡ nat_lt (slots_asked asked entries) entries }
{
    match asked {
        Some(slots) => MOST.min(slots as usize),
        None => MOST.min(entries),
    }
}
