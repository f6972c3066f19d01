// What is printed of a type with all that it holds.
ghost use Rattle.std.specs.Prelude.{◌≡◌, ℕ, suc, ◌+◌, ◌*◌, ◌<◌, ◌^◌, ◌≤◌, IfOk, Some, Option, drop, length, option_and_then, slice_get, if◌then◌else◌};
ghost use Rattle.std.specs.Fmt.{WritesOnOk};
ghost use Rattle.std.specs.Option.{option_map};
ghost use Rattle.book.specs.Book.{held_of};
ghost use Rattle.book.specs.Settled.{TypeTold, attributes_of_head, labels_of_head, settled_told, settled_tree, tree_told};
ghost use Rattle.catalog.specs.Meaning.{oid_told};
ghost use Rattle.catalog.specs.Shape.{Head, Name};
ghost use Rattle.transcript.specs.Appends.{Appends};
ghost use Rattle.transcript.specs.Describe.{add, describe_text, ended, holder, is_shown, label_text, labels_text, margin_behind, opening, opens, parts_laid, spaces, tree_laid};
ghost use Rattle.transcript.specs.Laying.{Stands, Within, holder_told, laid, trees_behind};
ghost use Rattle.transcript.specs.Types.{head_known_text};
ghost use Rattle.unfolding.specs.Unfolding.{Tree, Trees, node};

use crate::types::head;
use crate::words::{Shown, print};
use book::settled::{Settled, TypeKind};
use book::tables::Book;
use std::alloc::AllocError;
use std::fmt;
use type_info::oid::Oid;

// No type of a book has more labels or components, and none goes deeper.
const MOST: usize = 4096;

const DEEPEST: u32 = 512;

// An answer so far, and the types that it shows whole.
#[derive(Drop)]
struct Answer {
    text: Vec<u8>,
    shown: Vec<u32>,
}

#[derive(Clone, Copy)]
struct Spaces(u32);

impl fmt::Display for Spaces {
    ghost output = { λ margin. Some (spaces margin.0) };

    fn fmt<W: fmt::Write>(&self, f: &mut fmt::Formatter<W>) -> fmt::Result {
        write_spaces(self.0, f)
    }
}

fn write_spaces<W: fmt::Write>(count: u32, f: &mut fmt::Formatter<W>) -> fmt::Result
    ensures { WritesOnOk W.write_str_gives f.old result (spaces count) f.new }
{
    for done in 0..count {
        f.write_char(' ')?;
    }
    Ok(())
}

// Of a type that holds others or labels its OID.
fn holder_described(book: &Book<'_>, settled: Settled) -> Option<Oid>
    ensures { oid_told result ≡ option_and_then holder_told (settled_told (held_of book.now) settled) }
{
    match book.kind(settled)? {
        TypeKind::Simple | TypeKind::Pseudo => None,
        TypeKind::Domain
        | TypeKind::Array
        | TypeKind::Range
        | TypeKind::Enum
        | TypeKind::Composite => book.oid(settled),
    }
}

// The OID of a type of which is shown what it holds: a built-in type is its head alone.
fn holder(book: &Book<'_>, settled: Settled) -> Option<Oid>
    ensures { (t : Tree) → Stands (held_of book.now) settled t → oid_told result ≡ holder t }
{
    match settled {
        Settled::BuiltIn(_) => None,
        Settled::Described(_) => holder_described(book, settled),
    }
}

impl Answer {
    fn shows(&self, oid: Oid) -> bool
        ensures { result ≡ is_shown oid.0 (laid self.now) }
    {
        self.shown.contains(&oid.0)
    }

    // Ends the line of a head. Whether what the type holds is to follow.
    fn end(&mut self, holder: Option<Oid>) -> Result<bool, AllocError>
        ensures follows { IfOk result (λ more. more ≡ opens (oid_told holder) (laid self.old)) }
        ensures laid { IfOk result (λ more. laid self.new ≡ ended (oid_told holder) (laid self.old)) }
    {
        let Some(oid) = holder else {
            self.text.extend_from_slice(b"\n")?;
            return Ok(false);
        };
        if self.shows(oid) {
            self.text.extend_from_slice(b" (above)\n")?;
            return Ok(false);
        }
        self.text.extend_from_slice(b"\n")?;
        self.shown.push(oid.0)?;
        Ok(true)
    }

    // The line of a type. Whether what it holds is to follow.
    fn line(&mut self, book: &Book<'_>, settled: Settled) -> Result<bool, AllocError>
        ensures follows { (t : Tree) → Stands (held_of book.now) settled t →
            IfOk result (λ more. more ≡ opens (holder t) (add (head_known_text (tree_told t)) (laid self.old))) }
        ensures laid { (t : Tree) → Stands (held_of book.now) settled t →
            IfOk result (λ more. laid self.new ≡ ended (holder t) (add (head_known_text (tree_told t)) (laid self.old))) }
    {
        head(&mut self.text, book, settled)?;
        self.end(holder(book, settled))
    }

    // The line of the i-th label, if there is one.
    fn label(
        &mut self,
        book: &Book<'_>,
        settled: Settled,
        i: usize,
        margin: u32,
    ) -> Result<bool, AllocError>
        ensures { (t : TypeTold) → settled_told (held_of book.now) settled ≡ Some t →
            IfOk result (λ more. add (labels_text margin (drop i t.labels)) (laid self.old)
            ≡ (if more then add (labels_text margin (drop (i + 1) t.labels)) (laid self.new) else laid self.new)) }
    {
        let Some(label) = book.label(settled, i) else {
            return Ok(false);
        };
        print(
            &mut self.text,
            format_args!("{}label {}\n", Spaces(margin), Shown(label)),
        )?;
        Ok(true)
    }

    // The lines of the labels.
    fn labels(&mut self, book: &Book<'_>, settled: Settled, margin: u32) -> Result<(), AllocError>
        ensures { (t : TypeTold) → settled_told (held_of book.now) settled ≡ Some t → length t.labels ≤ 4096 →
            IfOk result (λ done. laid self.new ≡ add (labels_text margin t.labels) (laid self.old)) }
    {
        for i in 0..MOST {
            if !self.label(book, settled, i, margin)? {
                return Ok(());
            }
        }
        Ok(())
    }

    // What stands before the i-th component: for an attribute its line. The margin of the component.
    fn open(
        &mut self,
        book: &Book<'_>,
        settled: Settled,
        i: usize,
        margin: u32,
    ) -> Result<u32, AllocError>
        requires { margin + 2 < 2 ^ 32 }
        ensures bound { IfOk result (λ m. m ≤ margin + 2) }
        ensures margin { (t : TypeTold) → settled_told (held_of book.now) settled ≡ Some t →
            IfOk result (λ m. m ≡ margin_behind margin (option_map (λ a. a.0) (slice_get t.attributes i))) }
        ensures laid { (t : TypeTold) → settled_told (held_of book.now) settled ≡ Some t →
            IfOk result (λ m. laid self.new ≡ add (opening margin (option_map (λ a. a.0) (slice_get t.attributes i))) (laid self.old)) }
    {
        match book.attribute(settled, i) {
            None => {
                print(&mut self.text, Spaces(margin))?;
                Ok(margin)
            }
            Some(attribute) => {
                print(
                    &mut self.text,
                    format_args!(
                        "{}attribute {}\n{}",
                        Spaces(margin),
                        Shown(attribute.name),
                        Spaces(margin + 2)
                    ),
                )?;
                Ok(margin + 2)
            }
        }
    }

    // A type with all that it holds, which goes no deeper than this.
    #[cycle(lay)]
    fn lay(
        &mut self,
        book: &Book<'_>,
        settled: Settled,
        margin: u32,
        depth: u32,
    ) -> Result<(), AllocError>
        requires { margin + 4 * depth < 2 ^ 32 }
        ensures { (t : Tree) → Stands (held_of book.now) settled t → Within depth t →
            IfOk result (λ done. laid self.new ≡ tree_laid margin t (laid self.old)) }
    {
        if self.line(book, settled)?
            && let Some(left) = depth.checked_sub(1)
        {
            self.contents(book, settled, margin + 2, left)
        } else {
            Ok(())
        }
    }

    // What a type holds.
    #[cycle(lay)]
    fn contents(
        &mut self,
        book: &Book<'_>,
        settled: Settled,
        margin: u32,
        depth: u32,
    ) -> Result<(), AllocError>
        requires { margin + 4 * depth + 2 < 2 ^ 32 }
        ensures { (o : ℕ) (name : Name) (head : Head) (ts : Trees) → Stands (held_of book.now) settled (node o name head ts) →
            Within (suc depth) (node o name head ts) → IfOk result (λ done. laid self.new
            ≡ parts_laid margin (attributes_of_head head) ts (add (labels_text margin (labels_of_head head)) (laid self.old))) }
    {
        self.labels(book, settled, margin)?;
        for i in 0..MOST {
            if !self.part(book, settled, i, margin, depth)? {
                return Ok(());
            }
        }
        Ok(())
    }

    // The i-th component, if there is one.
    #[cycle(lay)]
    fn part(
        &mut self,
        book: &Book<'_>,
        settled: Settled,
        i: usize,
        margin: u32,
        depth: u32,
    ) -> Result<bool, AllocError>
        requires { margin + 4 * depth + 2 < 2 ^ 32 }
        ensures { (o : ℕ) (name : Name) (head : Head) (ts : Trees) → Stands (held_of book.now) settled (node o name head ts) →
            Within (suc depth) (node o name head ts) →
            IfOk result (λ more. parts_laid margin (drop i (attributes_of_head head)) (trees_behind i ts) (laid self.old)
            ≡ (if more then parts_laid margin (drop (i + 1) (attributes_of_head head)) (trees_behind (i + 1) ts) (laid self.new)
            else laid self.new)) }
    {
        let Some(component) = book.component(settled, i) else {
            return Ok(false);
        };
        let deeper = self.open(book, settled, i, margin)?;
        self.lay(book, component, deeper, depth)?;
        Ok(true)
    }
}

// The answer to a description: a type with all that it holds, each domain, array, range, enum and composite that is not built in once.
pub fn describe(out: &mut Vec<u8>, book: &Book<'_>, of: Option<Settled>) -> Result<(), AllocError>
    ensures { (t : Option Tree) → option_map (settled_tree (held_of book.now)) of ≡ option_map (λ u. Some u) t →
        option_map (settled_told (held_of book.now)) of ≡ option_map tree_told t →
        Appends (describe_text t) out.old.items out.new.items result }
{
    let Some(settled) = of else {
        return print(out, "describe: nothing\n");
    };
    let alloc = *out.allocator();
    let mut answer = Answer {
        text: Vec::new(alloc),
        shown: Vec::new(alloc),
    };
    answer.text.extend_from_slice(b"describe: ")?;
    answer.lay(book, settled, 0, DEEPEST)?;
    out.extend_from_slice(answer.text.as_slice())
}
