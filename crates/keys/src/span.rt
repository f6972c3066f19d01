// `length` bytes of a text, from `start` on.
#[derive(Clone, Copy, PartialEq, Eq, Debug)]
pub struct Span {
    pub start: u32,
    pub length: u32,
}
