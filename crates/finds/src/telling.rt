// What a step has found, in place.
ghost use Rattle.std.specs.Prelude.{◌≡◌, Some, length, slice_get};
ghost use Rattle.std.specs.Option.{option_map};
ghost use Rattle.catalog.specs.Catalog.{Catalog};
ghost use Rattle.catalog.specs.Meaning.{row_meaning};
ghost use Rattle.finds.specs.Finds.{ReadFrom, order_of, reads_of, rows_of};

use crate::tables::Finds;
use catalog::row::Row;
use type_info::oid::Oid;

impl<'a> Finds<'a> {
    // How many OIDs are settled.
    pub fn settled_count(&self) -> usize
        ensures { result ≡ length (order_of self.now) }
    {
        self.order.len()
    }

    // The OID at the place and its row, if it has one. Nothing where no row was read.
    pub fn row_at(&self, place: usize) -> Option<(Oid, Option<&Row>)>
        ensures oid { option_map (λ r. r.0.0) result ≡ slice_get (reads_of self.now) place }
        ensures row { option_map (λ r. option_map (λ x. row_meaning x.now) r.1) result ≡ slice_get (rows_of self.now) place }
    {
        let row = self.rows.as_slice().get(place)?;
        let oid = self.queue.as_slice().get(place)?;
        Some((*oid, row.as_ref()))
    }

    // The k-th OID of those settled, and its row.
    pub fn settled_at(&self, k: usize) -> Option<(Oid, &Row)>
        ensures oid { option_map (λ r. r.0.0) result ≡ slice_get (order_of self.now) k }
        ensures row { (c : Catalog) → ReadFrom c self.now →
            option_map (λ r. Some (row_meaning r.1.now)) result ≡ option_map c.rows (slice_get (order_of self.now) k) }
    {
        let place = *self.order.as_slice().get(k)? as usize;
        let oid = self.queue.as_slice()[place];
        let row = self.rows.as_slice()[place].as_ref()?;
        Some((oid, row))
    }
}
