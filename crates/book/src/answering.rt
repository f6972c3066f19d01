// What a book tells of a settled type, in place: of a slot that it does not have, nothing.
ghost use Rattle.std.specs.Prelude.{◌≡◌, List, Some, Option, take, drop, slice_get, option_and_then};
ghost use Rattle.std.specs.Option.{option_map};
ghost use Rattle.book.specs.Book.{held_of};
ghost use Rattle.book.specs.Descriptions.{Member, components_of, head_of, names_of, run_of};
ghost use Rattle.book.specs.Held.{Held};
ghost use Rattle.book.specs.Settled.{descriptor_told, element_of, kind_of_entry, kind_of_head, settled_component, settled_told, settled_tree, tree_told};
ghost use Rattle.book.specs.declared.settled.Settled.TheVariants.{Described};
ghost use Rattle.catalog.specs.Meaning.{oid_told};
ghost use Rattle.type_info.specs.Meaning.{kind_of};
ghost use Rattle.type_info.specs.Table.{component};

use crate::descriptor::{Component, Descriptor, Kind, Part, Run};
use crate::settled::{Settled, Slot, TypeKind};
use crate::tables::Book;
use type_info::builtin;
use type_info::builtin::BuiltInKind;
use type_info::oid::Oid;

// An attribute of a composite, in the book's own text.
#[derive(Clone, Copy, Debug)]
pub struct AttributeText<'b> {
    pub name: &'b [u8],
    pub typed: Settled,
}

fn built_in_kind(kind: BuiltInKind) -> TypeKind
    ensures { result ≡ kind_of_entry (kind_of kind) }
{
    match kind {
        BuiltInKind::Simple => TypeKind::Simple,
        BuiltInKind::Pseudo => TypeKind::Pseudo,
        BuiltInKind::Array(_) => TypeKind::Array,
        BuiltInKind::Range(_) => TypeKind::Range,
    }
}

fn described_kind(kind: Kind) -> TypeKind
    ensures { (members : List Member) → result ≡ kind_of_head (head_of members kind) }
{
    match kind {
        Kind::Simple => TypeKind::Simple,
        Kind::Pseudo => TypeKind::Pseudo,
        Kind::Domain(_) => TypeKind::Domain,
        Kind::Array(_) => TypeKind::Array,
        Kind::Range(_) => TypeKind::Range,
        Kind::Enum(_) => TypeKind::Enum,
        Kind::Composite(_) => TypeKind::Composite,
    }
}

// What an array or a range of the built-in types is built of.
fn built_of(kind: BuiltInKind) -> Option<Oid>
    ensures { oid_told result ≡ component (kind_of kind) }
{
    match kind {
        BuiltInKind::Array(of) | BuiltInKind::Range(of) => Some(of),
        BuiltInKind::Simple | BuiltInKind::Pseudo => None,
    }
}

// The settled type of a component: nothing for an OID that is not built in.
fn settled_type(component: Component) -> Option<Settled>
    ensures tree { (h : Held) → option_map (settled_tree h) result ≡ settled_component h component }
    ensures told { (h : Held) →
        option_map (settled_told h) result ≡ option_map (option_and_then tree_told) (settled_component h component) }
{
    match component {
        Component::BuiltIn(oid) => Some(Settled::BuiltIn(builtin::by_oid(oid)?)),
        Component::Slot(i) => Some(Settled::Described(Slot(i))),
    }
}

impl<'a> Book<'a> {
    // Nothing for a slot that the book does not have.
    fn descriptor(&self, slot: Slot) -> Option<Descriptor>
        ensures there { result ≡ slice_get self.now.descriptors.items slot.0 }
        ensures told { option_map (descriptor_told (held_of self.now) self.now.names.text.text) result
            ≡ settled_told (held_of self.now) (Described slot) }
    {
        self.descriptors.as_slice().get(slot.0 as usize).copied()
    }

    // Nothing past the run.
    fn part(&self, run: Run, i: usize) -> Option<Part>
        ensures { result ≡ slice_get (take run.count (drop run.first self.now.parts.items)) i }
    {
        if i >= run.count as usize {
            return None;
        }
        self.parts.as_slice().get(run.first as usize + i).copied()
    }

    fn part_name(&self, run: Run, i: usize) -> Option<&[u8]>
        ensures { option_map (λ x. x.now) result ≡ slice_get (names_of (run_of run (held_of self.now).members)) i }
    {
        self.text_at(self.part(run, i)?.name)
    }

    // The i-th component of a descriptor of this kind.
    fn component_at(&self, kind: Kind, i: usize) -> Option<Component>
        ensures { result ≡ option_and_then (λ (c : Option Component). c)
            (slice_get (components_of (held_of self.now).members kind) i) }
    {
        match kind {
            Kind::Domain(of) | Kind::Array(of) | Kind::Range(of) => (i == 0).then_some(of),
            Kind::Composite(attributes) => self.part(attributes, i)?.typed,
            Kind::Simple | Kind::Pseudo | Kind::Enum(_) => None,
        }
    }

    // The i-th component of a settled type.
    fn made_of(&self, settled: Settled, i: usize) -> Option<Component>
        ensures { option_and_then (settled_component (held_of self.now)) result
            ≡ option_map (λ t. Some t) (option_and_then (λ t. slice_get t.components i) (settled_told (held_of self.now) settled)) }
    {
        match settled {
            Settled::BuiltIn(built_in) if i == 0 => {
                Some(Component::BuiltIn(built_of(built_in.kind())?))
            }
            Settled::BuiltIn(_) => None,
            Settled::Described(slot) => self.component_at(self.descriptor(slot)?.kind, i),
        }
    }

    pub fn oid(&self, settled: Settled) -> Option<Oid>
        ensures { oid_told result ≡ option_map (λ t. t.oid) (settled_told (held_of self.now) settled) }
    {
        match settled {
            Settled::BuiltIn(built_in) => Some(built_in.oid()),
            Settled::Described(slot) => Some(self.descriptor(slot)?.oid),
        }
    }

    pub fn name(&self, settled: Settled) -> Option<&[u8]>
        ensures { option_map (λ x. x.now) result ≡ option_map (λ t. t.name) (settled_told (held_of self.now) settled) }
    {
        match settled {
            Settled::BuiltIn(built_in) => Some(built_in.name()),
            Settled::Described(slot) => self.text_at(self.descriptor(slot)?.name),
        }
    }

    pub fn kind(&self, settled: Settled) -> Option<TypeKind>
        ensures { result ≡ option_map (λ t. t.kind) (settled_told (held_of self.now) settled) }
    {
        match settled {
            Settled::BuiltIn(built_in) => Some(built_in_kind(built_in.kind())),
            Settled::Described(slot) => Some(described_kind(self.descriptor(slot)?.kind)),
        }
    }

    // The i-th label of an enum.
    pub fn label(&self, settled: Settled, i: usize) -> Option<&[u8]>
        ensures { option_map (λ x. x.now) result
            ≡ option_and_then (λ t. slice_get t.labels i) (settled_told (held_of self.now) settled) }
    {
        match settled {
            Settled::BuiltIn(_) => None,
            Settled::Described(slot) => match self.descriptor(slot)?.kind {
                Kind::Enum(labels) => self.part_name(labels, i),
                Kind::Simple
                | Kind::Pseudo
                | Kind::Domain(_)
                | Kind::Array(_)
                | Kind::Range(_)
                | Kind::Composite(_) => None,
            },
        }
    }

    // The i-th type that the type is made of: the base of a domain, the element of an array and the subtype of a range are
    // the only one, and a composite has one for each attribute.
    pub fn component(&self, settled: Settled, i: usize) -> Option<Settled>
        ensures tree { option_map (settled_tree (held_of self.now)) result
            ≡ option_map (λ t. Some t) (option_and_then (λ t. slice_get t.components i) (settled_told (held_of self.now) settled)) }
        ensures told { option_map (settled_told (held_of self.now)) result
            ≡ option_map tree_told (option_and_then (λ t. slice_get t.components i) (settled_told (held_of self.now) settled)) }
    {
        settled_type(self.made_of(settled, i)?)
    }

    // The element of an array: any other type has none.
    pub fn element(&self, settled: Settled) -> Option<Settled>
        ensures tree { option_map (settled_tree (held_of self.now)) result
            ≡ option_map (λ t. Some t) (option_and_then element_of (settled_told (held_of self.now) settled)) }
        ensures told { option_map (settled_told (held_of self.now)) result
            ≡ option_map tree_told (option_and_then element_of (settled_told (held_of self.now) settled)) }
    {
        match self.kind(settled)? {
            TypeKind::Array => self.component(settled, 0),
            TypeKind::Simple
            | TypeKind::Pseudo
            | TypeKind::Domain
            | TypeKind::Range
            | TypeKind::Enum
            | TypeKind::Composite => None,
        }
    }

    // The i-th attribute of a composite.
    pub fn attribute(&self, settled: Settled, i: usize) -> Option<AttributeText<'_>>
        ensures name { option_map (λ a. a.name.now) result
            ≡ option_map (λ a. a.0) (option_and_then (λ t. slice_get t.attributes i) (settled_told (held_of self.now) settled)) }
        ensures tree { option_map (λ a. settled_tree (held_of self.now) a.typed) result
            ≡ option_map (λ a. Some a.1) (option_and_then (λ t. slice_get t.attributes i) (settled_told (held_of self.now) settled)) }
        ensures told { option_map (λ a. settled_told (held_of self.now) a.typed) result
            ≡ option_map (λ a. tree_told a.1) (option_and_then (λ t. slice_get t.attributes i) (settled_told (held_of self.now) settled)) }
    {
        match settled {
            Settled::BuiltIn(_) => None,
            Settled::Described(slot) => match self.descriptor(slot)?.kind {
                Kind::Composite(attributes) => {
                    let name = self.part_name(attributes, i)?;
                    let typed = self.component(settled, i)?;
                    Some(AttributeText { name, typed })
                }
                Kind::Simple
                | Kind::Pseudo
                | Kind::Domain(_)
                | Kind::Array(_)
                | Kind::Range(_)
                | Kind::Enum(_) => None,
            },
        }
    }
}
