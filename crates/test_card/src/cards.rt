// The rows of the examples.
use type_info::oid::Oid;

#[derive(Clone, Copy)]
pub struct Card<'a> {
    pub oid: u32,
    pub pretty: &'a [u8],
    pub typtype: u8,
    pub typcategory: u8,
    pub typelem: Option<Oid>,
    pub typbasetype: Option<Oid>,
    pub typarray: Option<Oid>,
    pub labels: &'a [&'a [u8]],
    pub attributes: &'a [(&'a [u8], u32)],
}

pub fn simple<'a>(oid: u32, pretty: &'a [u8], typcategory: u8) -> Card<'a> {
    Card {
        oid,
        pretty,
        typtype: b'b',
        typcategory,
        typelem: None,
        typbasetype: None,
        typarray: None,
        labels: &[],
        attributes: &[],
    }
}

pub fn domain<'a>(oid: u32, pretty: &'a [u8], base: u32) -> Card<'a> {
    Card {
        typtype: b'd',
        typbasetype: Some(Oid(base)),
        ..simple(oid, pretty, b'S')
    }
}

pub fn array<'a>(oid: u32, pretty: &'a [u8], element: u32) -> Card<'a> {
    Card {
        typelem: Some(Oid(element)),
        ..simple(oid, pretty, b'A')
    }
}

pub fn labelled<'a>(oid: u32, pretty: &'a [u8], labels: &'a [&'a [u8]]) -> Card<'a> {
    Card {
        typtype: b'e',
        labels,
        ..simple(oid, pretty, b'E')
    }
}

pub fn composite<'a>(oid: u32, pretty: &'a [u8], attributes: &'a [(&'a [u8], u32)]) -> Card<'a> {
    Card {
        typtype: b'c',
        attributes,
        ..simple(oid, pretty, b'C')
    }
}

impl<'a> Card<'a> {
    pub fn with_array(self, array: u32) -> Card<'a> {
        Card {
            typarray: Some(Oid(array)),
            ..self
        }
    }
}
