// What a step has found, and what holds of it at all times.
ghost use Rattle.finds.specs.Tables.{Distinct-prop, Lent, Ordered, Queued};
ghost use Rattle.std.proofs.Props.{props};

use catalog::row::Row;
use indexes::whole::OidIndex;
use slots::stack::Stack;
use type_info::oid::Oid;

// `rows` has the rows of the first OIDs of the queue, and `order` the places of those that are settled so far, in turn. The
// indexes lead from an OID to its place.
#[derive(Drop)]
pub struct Finds<'a> {
    pub(crate) queue: Stack<'a, Oid>,
    pub(crate) index: OidIndex<'a, u32>,
    pub(crate) rows: Stack<'a, Option<Row>>,
    pub(crate) order: Stack<'a, u32>,
    pub(crate) settled: OidIndex<'a, u32>,
    ghost lent: { Lent queue index rows order settled },
    ghost queued: { Queued queue index } by { Prim.hlevel (props, Distinct-prop) },
    ghost ordered: { Ordered queue rows order settled } by { Prim.hlevel (props, Distinct-prop) },
}
