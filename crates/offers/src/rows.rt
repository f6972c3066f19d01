// Rows read from what a host offers.
ghost use Rattle.std.specs.Prelude.{◌≡◌};
ghost use Rattle.catalog.specs.Few.{standing};
ghost use Rattle.catalog.specs.Limits.{nonzero};
ghost use Rattle.catalog.specs.Meaning.{attribute_meaning, row_told};
ghost use Rattle.offers.specs.Offered.{attribute_at, oids_fit, offer_of, offered_row};
ghost use Rattle.offers.specs.Read.{FewRead};
ghost use Rattle.std.specs.Option.{option_map};

use crate::offer::{OfferedAttribute, OfferedRow};
use crate::texts::text_at;
use catalog::few::Few;
use catalog::row::Row;
use catalog::values::{Attribute, ShortName};
use type_info::oid::Oid;

fn attribute_at(host: &[u8], offered: OfferedAttribute) -> Option<Attribute>
    ensures { option_map attribute_meaning result ≡ attribute_at host.now offered }
{
    let name = text_at(host, offered.name)?;
    if offered.oid.0 == 0 {
        return None;
    }
    Some(Attribute {
        name,
        oid: offered.oid,
    })
}

// Each read in turn; nothing where there are more than 64, or one is read as nothing.
fn read_few<A: Copy, B: Copy, F: Fn(A) -> Option<B>>(
    offered: &[A],
    read: F,
    unused: B,
) -> Option<Few<B, 64>>
    requires { F.IsAlwaysCallable read }
    ensures { FewRead (F.post read) offered.now (option_map standing result) }
{
    if offered.len() > 64 {
        return None;
    }
    let mut few = Few::new(unused);
    for one in offered {
        few.push(read(*one)?)?;
    }
    Some(few)
}

fn link_fits(link: Option<Oid>) -> bool
    ensures { result ≡ nonzero link }
{
    link != Some(Oid(0))
}

fn oids_fit(offered: OfferedRow<'_>) -> bool
    ensures { result ≡ oids_fit (offer_of offered.entry) }
{
    offered.oid.0 > 0
        && link_fits(offered.typelem)
        && link_fits(offered.typbasetype)
        && link_fits(offered.rngsubtype)
        && link_fits(offered.typarray)
}

pub fn read_row(host: &[u8], offered: OfferedRow<'_>) -> Option<Row>
    ensures { row_told result ≡ offered_row host.now (offer_of offered.entry) }
{
    let blank = ShortName::new(b"-")?;
    let unused = Attribute {
        name: blank,
        oid: Oid(1),
    };
    let pretty = text_at(host, offered.pretty)?;
    let labels = read_few(offered.labels, |span| text_at(host, span), blank)?;
    let attributes = read_few(offered.attributes, |a| attribute_at(host, a), unused)?;
    if !oids_fit(offered) {
        return None;
    }
    Some(Row {
        pretty,
        typtype: offered.typtype,
        typcategory: offered.typcategory,
        typelem: offered.typelem,
        typbasetype: offered.typbasetype,
        rngsubtype: offered.rngsubtype,
        typarray: offered.typarray,
        labels,
        attributes,
    })
}
