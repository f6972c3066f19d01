// A row table, and what it has accepted.
use crate::offer::{Offer, RowOffer};
use crate::outcome::Outcome;
use catalog::faults::CatalogFault;
use catalog::questions::{ColumnCatalog, NoAllowance, TypeCatalog};
use catalog::row::Row;
use catalog::values::Column;
use keys::kinds::Attribute;
use keys::span::Span;
use offers::rows::read_row;
use offers::texts::read_column;
use row_table::rounds::TableRound;
use row_table::table::RowTable;
use std::alloc::Global;
use type_info::oid::{AttributeNumber, Oid};

#[derive(Drop)]
pub struct Trial<'a> {
    pub table: RowTable<'a>,
    pub host: &'a [u8],
    pub accepted: Vec<Offer>,
}

// What a catalog tells of what is offered.
#[derive(Clone, Copy, PartialEq, Eq)]
enum Answer {
    Row(Option<Row>, Option<Oid>),
    Name(Option<Oid>),
    Column(Option<Column>),
}

fn text_at(host: &[u8], span: Span) -> &[u8] {
    let start = span.start as usize;
    host.get(start..start + span.length as usize).unwrap_or(&[])
}

impl<'a> Trial<'a> {
    // The table with what it has to accept.
    pub fn new(
        alloc: Global,
        table: RowTable<'a>,
        host: &'a [u8],
        offers: &[Offer],
    ) -> anyhow::Result<Trial<'a>> {
        let mut trial = Trial {
            table,
            host,
            accepted: Vec::new(alloc),
        };
        for offer in offers {
            trial.add(*offer)?;
            trial.accepted.push(*offer)?;
        }
        Ok(trial)
    }

    fn add(&mut self, offer: Offer) -> Result<(), CatalogFault> {
        match offer {
            Offer::Row(n, change) => {
                let row = RowOffer::new(n, change);
                self.table.add_row(self.host, row.offered())
            }
            Offer::Name(name, oid) => self.table.add_name(self.host, name.span(), Oid(oid)),
            Offer::Column(relation, attribute, table, name) => self.table.add_column(
                self.host,
                Attribute {
                    relation: Oid(relation),
                    number: AttributeNumber(attribute),
                },
                table.span(),
                name.span(),
            ),
        }
    }

    fn ask(&self, round: &TableRound, offer: Offer) -> Answer {
        match offer {
            Offer::Row(n, change) => {
                let row = RowOffer::new(n, change);
                let row = row.offered();
                Answer::Row(
                    self.table.row(round, row.oid),
                    self.table.oid_of(round, text_at(self.host, row.pretty)),
                )
            }
            Offer::Name(name, _) => {
                Answer::Name(self.table.oid_of(round, text_at(self.host, name.span())))
            }
            Offer::Column(relation, attribute, _, _) => Answer::Column(
                self.table
                    .column(round, Oid(relation), AttributeNumber(attribute)),
            ),
        }
    }

    // What the catalog tells where the offer is held.
    fn held(&self, offer: Offer) -> Answer {
        match offer {
            Offer::Row(n, change) => {
                let row = RowOffer::new(n, change);
                let row = row.offered();
                Answer::Row(read_row(self.host, row), Some(row.oid))
            }
            Offer::Name(_, oid) => Answer::Name(Some(Oid(oid))),
            Offer::Column(_, _, table, name) => {
                Answer::Column(read_column(self.host, table.span(), name.span()))
            }
        }
    }

    fn answer(&mut self, offer: Offer) -> Result<Answer, NoAllowance> {
        let round = self.table.open()?;
        let answer = self.ask(&round, offer);
        self.table.close(round);
        Ok(answer)
    }

    // Whether all that was accepted is told.
    pub fn tells_accepted(&mut self) -> Result<bool, NoAllowance> {
        let round = self.table.open()?;
        let mut all = true;
        for offer in &self.accepted {
            all = all && self.ask(&round, *offer) == self.held(*offer);
        }
        self.table.close(round);
        Ok(all)
    }

    // What becomes of the offer, and whether the table then tells all that it accepted, and of a refused offer what it told before.
    pub fn offer(&mut self, offer: Offer) -> anyhow::Result<(Outcome, bool)> {
        let before = self.answer(offer)?;
        let outcome = Outcome::from(self.add(offer));
        let kept = match outcome {
            Outcome::Accepted => {
                self.accepted.push(offer)?;
                true
            }
            Outcome::Refused(..) => self.answer(offer)? == before,
        };
        Ok((outcome, self.tells_accepted()? && kept))
    }
}
