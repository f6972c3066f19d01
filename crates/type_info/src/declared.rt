// A type as a program declares it, before a catalog has told what it is. It has no kind.
ghost use Rattle.std.specs.Prelude.{◌≡◌};
ghost use Rattle.std.specs.Option.{option_map};
ghost use Rattle.type_info.specs.Meaning.{as_array_of, by_its_name, by_its_oid, declaration_of, element_name};

use crate::oid::Oid;

#[derive(Clone, Copy, Debug)]
pub enum Declared<'a> {
    Oid(Oid),
    Name(&'a [u8]),
    ArrayOf(&'a [u8]),
}

impl<'a> Declared<'a> {
    pub fn with_oid(oid: Oid) -> Declared<'a>
        ensures { declaration_of result ≡ by_its_oid oid.0 }
    {
        Declared::Oid(oid)
    }

    pub fn with_name(name: &'a [u8]) -> Declared<'a>
        ensures { declaration_of result ≡ by_its_name name.now }
    {
        Declared::Name(name)
    }

    pub fn array_of(element: &'a [u8]) -> Declared<'a>
        ensures { declaration_of result ≡ as_array_of element.now }
    {
        Declared::ArrayOf(element)
    }

    // The name of the element type, as far as the declaration tells it.
    pub fn element(self) -> Option<&'a [u8]>
        ensures { option_map (λ x. x.now) result ≡ element_name (declaration_of self.entry) }
    {
        match self {
            // PostgreSQL names an array by an underscore and its element's name
            Declared::Name([b'_', element @ ..]) => Some(element),
            Declared::ArrayOf(name) => Some(name),
            Declared::Name(_) | Declared::Oid(_) => None,
        }
    }
}
