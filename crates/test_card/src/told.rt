// What steps told and what a book describes, in words.
use crate::kiosk::Wanted;
use book::settled::{Settled, TypeKind};
use book::tables::Book;
use faults::call::CallFault;
use std::{fmt, str};
use type_info::oid::Oid;

// A name. In the examples each is ASCII.
#[derive(Clone, Copy)]
pub struct Word<'a>(pub &'a [u8]);

impl<'a> fmt::Display for Word<'a> {
    fn fmt<W: fmt::Write>(&self, f: &mut fmt::Formatter<W>) -> fmt::Result {
        f.write_str(str::from_utf8(self.0).unwrap_or("?"))
    }
}

// The count of a step, or its refusal.
#[derive(Clone, Copy)]
pub struct Count(pub Result<u8, CallFault>);

impl fmt::Display for Count {
    fn fmt<W: fmt::Write>(&self, f: &mut fmt::Formatter<W>) -> fmt::Result {
        match &self.0 {
            Ok(count) => write!(f, "count {count}"),
            Err(fault) => {
                let told = fault.told();
                write!(
                    f,
                    "refused {}, place {}, layer {}, rounds {}",
                    told.number, told.place, told.layer, told.rounds
                )
            }
        }
    }
}

#[derive(Clone, Copy)]
pub struct Fill<'a> {
    pub oids: &'a [u32],
    pub told: Result<u8, CallFault>,
}

impl<'a> fmt::Display for Fill<'a> {
    fn fmt<W: fmt::Write>(&self, f: &mut fmt::Formatter<W>) -> fmt::Result {
        f.write_str("fill of")?;
        for oid in self.oids {
            write!(f, " {oid}")?;
        }
        write!(f, ": {}", Count(self.told))
    }
}

impl fmt::Display for Wanted {
    fn fmt<W: fmt::Write>(&self, f: &mut fmt::Formatter<W>) -> fmt::Result {
        match self {
            Wanted::Name(name) => write!(f, " {}", Word(name)),
            Wanted::ArrayOf(name) => write!(f, " array-of-{}", Word(name)),
        }
    }
}

// With the OIDs written, if it is accepted.
#[derive(Clone, Copy)]
pub struct Resolve<'a> {
    pub wanted: &'a [Wanted],
    pub out: &'a [u32],
    pub told: Result<u8, CallFault>,
}

impl<'a> fmt::Display for Resolve<'a> {
    fn fmt<W: fmt::Write>(&self, f: &mut fmt::Formatter<W>) -> fmt::Result {
        f.write_str("resolve of")?;
        for wanted in self.wanted {
            write!(f, "{wanted}")?;
        }
        write!(f, ": {}", Count(self.told))?;
        if self.told.is_ok() {
            f.write_str(", OIDs")?;
            for oid in self.out {
                write!(f, " {oid}")?;
            }
        }
        Ok(())
    }
}

// An OID that is held for something, or none.
#[derive(Clone, Copy)]
pub struct Held(pub Option<Oid>);

impl fmt::Display for Held {
    fn fmt<W: fmt::Write>(&self, f: &mut fmt::Formatter<W>) -> fmt::Result {
        match self.0 {
            Some(oid) => write!(f, "{}", oid.0),
            None => f.write_str("not held"),
        }
    }
}

// What a book answers for an OID: name and kind, and what the type is made of.
#[derive(Clone, Copy)]
pub struct Described<'b, 'a> {
    pub book: &'b Book<'a>,
    pub oid: Oid,
}

fn kind_word(kind: TypeKind) -> &'static str {
    match kind {
        TypeKind::Simple => "simple",
        TypeKind::Pseudo => "pseudo",
        TypeKind::Domain => "domain over",
        TypeKind::Array => "array of",
        TypeKind::Range => "range of",
        TypeKind::Enum => "enum of",
        TypeKind::Composite => "composite of",
    }
}

impl<'b, 'a> Described<'b, 'a> {
    fn write_settled<W: fmt::Write>(
        &self,
        settled: Settled,
        f: &mut fmt::Formatter<W>,
    ) -> fmt::Result {
        let name = self.book.name(settled).unwrap_or(b"?");
        let kind = self.book.kind(settled).map_or("?", kind_word);
        write!(f, "{}, {kind}", Word(name))?;
        self.write_labels(settled, f)?;
        self.write_components(settled, f)
    }

    // At most 64, as a row has.
    fn write_labels<W: fmt::Write>(
        &self,
        settled: Settled,
        f: &mut fmt::Formatter<W>,
    ) -> fmt::Result {
        for i in 0..64usize {
            if let Some(label) = self.book.label(settled, i) {
                write!(f, " {}", Word(label))?;
            }
        }
        Ok(())
    }

    fn write_components<W: fmt::Write>(
        &self,
        settled: Settled,
        f: &mut fmt::Formatter<W>,
    ) -> fmt::Result {
        for i in 0..64usize {
            if let Some(attribute) = self.book.attribute(settled, i) {
                write!(f, " {}", Word(attribute.name))?;
            }
            if let Some(component) = self.book.component(settled, i) {
                let oid = self.book.oid(component).map_or(0, |oid| oid.0);
                write!(f, " {oid}")?;
            }
        }
        Ok(())
    }
}

impl<'b, 'a> fmt::Display for Described<'b, 'a> {
    fn fmt<W: fmt::Write>(&self, f: &mut fmt::Formatter<W>) -> fmt::Result {
        write!(f, "{}: ", self.oid.0)?;
        match self.book.describe(self.oid) {
            Some(settled) => self.write_settled(settled, f),
            None => f.write_str("not described"),
        }
    }
}
