// What a bind line does, and what is printed of the statement that it binds.
ghost use Rattle.session.specs.Run.{AlikeCounted, run_of};

use crate::bound::Bound;
use crate::buffers::buffer_slots;
use crate::steps::{Desk, tell_refused};
use binding::whole::Rounds;
use binding::writing::{BoundColumn, BoundType, Origin};
use book::reading::ColumnText;
use book::tables::Book;
use calls::bound::bind;
use faults::call::CallFault;
use keys::span::Span;
use lines::steps::BindLine;
use lines::trouble::Trouble;
use requests::asked::name_in;
use session::session::Session;
use std::alloc::AllocError;
use transcript::answers::InUse;
use transcript::steps::Step;
use transcript::types::{BoundText, OriginText, TypeText};
use transcript::{steps, types};
use type_info::oid::{Oid, Ordinal};

// What lies in the slots that no bind has written.
const NO_TYPE: BoundType = BoundType::Declared(Oid(0));

const NO_COLUMN: BoundColumn = BoundColumn {
    name: Span {
        start: 0,
        length: 0,
    },
    ordinal: Ordinal(0),
    typed: NO_TYPE,
    relation: None,
    attribute: None,
    origin: Origin::Unknown,
};

fn type_text<'b>(book: &'b Book<'_>, typed: BoundType) -> TypeText<'b> {
    match typed {
        BoundType::Settled(oid, settled) => TypeText {
            oid,
            name: book.name(settled),
        },
        BoundType::Declared(oid) => TypeText { oid, name: None },
    }
}

fn origin_text(origin: &Origin) -> OriginText<'_> {
    match origin {
        Origin::Expression => OriginText::Expression,
        Origin::Unknown => OriginText::Unknown,
        Origin::Table(column) => OriginText::Table(ColumnText {
            table: column.table.get(),
            name: column.name.get(),
        }),
    }
}

// Prints the types of the parameters, each with its place.
fn tell_parameters(
    out: &mut Vec<u8>,
    book: &Book<'_>,
    bound: &[BoundType],
) -> Result<(), AllocError> {
    let mut place = 0;
    for typed in bound {
        types::parameter(out, place, type_text(book, *typed))?;
        place = place.saturating_add(1);
    }
    Ok(())
}

// Prints a column of the result, whose name lies in the host text.
fn tell_column(
    out: &mut Vec<u8>,
    book: &Book<'_>,
    host: &[u8],
    column: &BoundColumn,
) -> Result<(), AllocError> {
    let text = BoundText {
        name: name_in(host, column.name),
        typed: type_text(book, column.typed),
        origin: origin_text(&column.origin),
        relation: column.relation,
        attribute: column.attribute,
    };
    types::column(out, u32::from(column.ordinal.0), text)
}

fn tell_columns(
    out: &mut Vec<u8>,
    book: &Book<'_>,
    host: &[u8],
    bound: &[BoundColumn],
) -> Result<(), AllocError> {
    for column in bound {
        tell_column(out, book, host, column)?;
    }
    Ok(())
}

impl<'a> Desk<'a> {
    fn bind(
        &mut self,
        session: &mut Session<'_>,
        line: &BindLine,
        types: &mut [BoundType],
        columns: &mut [BoundColumn],
    ) -> Result<Rounds, CallFault>
        ensures { AlikeCounted (run_of session.old) (run_of session.new) }
    {
        let book = &mut self.book;
        let work = &mut self.work;
        let host = line.host.as_slice();
        let parameters = line.parameters.as_slice();
        let fields = line.fields.as_slice();
        let queries = line.queries;
        let origins = line.origins;
        let catalogs = &mut session.catalogs;
        match catalogs.in_use() {
            InUse::Rows => bind(
                book,
                &mut catalogs.rows,
                work,
                host,
                parameters,
                fields,
                queries,
                origins,
                types,
                columns,
            ),
            InUse::Shelf => bind(
                book,
                &mut catalogs.shelf,
                work,
                host,
                parameters,
                fields,
                queries,
                origins,
                types,
                columns,
            ),
        }
    }

    // From now on lines ask about this statement.
    fn keep_bound(&mut self, line: BindLine) -> Result<(), AllocError> {
        self.bound = Bound::new(line.host, line.fields.as_slice())?;
        Ok(())
    }

    // `bind queries=yes|no origins=yes|no [parameters=N] [columns=N] parameters OID.. fields (NAME TYPE RELATION ATTRIBUTE)..`
    pub(crate) fn answer_bind(
        &mut self,
        session: &mut Session<'_>,
        rest: &[u8],
        out: &mut Vec<u8>,
    ) -> Result<bool, Trouble>
        ensures { AlikeCounted (run_of session.old) (run_of session.new) }
    {
        let alloc = *out.allocator();
        let line = BindLine::read(rest, alloc)?;
        let parameters = line.parameters.len();
        let fields = line.fields.len();
        let mut types = vec![in alloc; NO_TYPE; buffer_slots(line.parameter_slots, parameters)]?;
        let mut columns = vec![in alloc; NO_COLUMN; buffer_slots(line.column_slots, fields)]?;
        let bound = self.bind(session, &line, types.as_mut_slice(), columns.as_mut_slice());
        let allowance = session.allowance();
        match bound {
            Ok(rounds) => {
                types.truncate(parameters);
                columns.truncate(fields);
                steps::bound(out, rounds.types, rounds.columns, allowance)?;
                tell_parameters(out, &self.book, types.as_slice())?;
                tell_columns(out, &self.book, line.host.as_slice(), columns.as_slice())?;
                self.keep_bound(line)?;
                Ok(false)
            }
            Err(fault) => tell_refused(out, Step::Bind, fault, allowance),
        }
    }
}
