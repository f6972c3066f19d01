// What a book has already.
ghost use Rattle.std.specs.Prelude.{◌≡◌, is_some};
ghost use Rattle.std.specs.List.{list_all};
ghost use Rattle.book.specs.Book.{held_of};
ghost use Rattle.life.specs.Walk.{answered};
ghost use Rattle.book.specs.Held.{book_held};
ghost use Rattle.book.specs.Adding.{component_for, is_known};
ghost use Rattle.catalog.specs.Meaning.{links_told};
ghost use Rattle.type_info.specs.declared.oid.Oid.{Oid};

use crate::descriptor::Component;
use crate::tables::Book;
use catalog::few::Few;
use type_info::builtin::by_oid;
use type_info::oid::Oid;

impl<'a> Book<'a> {
    // What a descriptor tells of a type that it is made of, if the type is known.
    pub(crate) fn component_for(&self, oid: Oid) -> Option<Component>
        ensures { result ≡ component_for (held_of self.now).descriptions oid.0 }
    {
        if by_oid(oid).is_some() {
            return Some(Component::BuiltIn(oid));
        }
        Some(Component::Slot(self.index.find(oid)?))
    }

    // Whether the type is built in or described.
    pub fn knows(&self, oid: Oid) -> bool
        ensures { result ≡ answered (book_held (held_of self.now)).descriptors oid.0 }
    {
        self.component_for(oid).is_some()
    }

    // Whether the table of the relation is held.
    pub fn relates(&self, relation: Oid) -> bool
        ensures { result ≡ is_some ((held_of self.now).relations relation.0) }
    {
        self.relations.find(relation).is_some()
    }

    fn knows_each(&self, oids: &[Oid]) -> bool
        ensures { result ≡ list_all (λ (oid : Oid). is_known (held_of self.now).descriptions oid.0) oids.now }
    {
        oids.iter().all(|oid| self.component_for(*oid).is_some())
    }

    pub(crate) fn knows_all(&self, links: &Few<Oid, 64>) -> bool
        ensures { result ≡ list_all (is_known (held_of self.now).descriptions) (links_told links.now) }
    {
        self.knows_each(links.as_slice())
    }
}
