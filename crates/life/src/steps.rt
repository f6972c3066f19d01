// What holds of every life of a book.

ghost use Rattle.life.specs.Life.{LifetimeLaw};

// Over any history of steps that each do what a step does, on a catalog that only grows between them: Describe answers for an
// OID exactly where it is built in or an earlier step that kept its finds had a request that led to it while it had an
// unfolding, the answer is the unfolding in the catalog as it now stands, names, arrays and columns are the catalog's, and each
// count told is the last round in which anything stood.
pub fn lifetime_stands()
    ensures { LifetimeLaw }
{}
