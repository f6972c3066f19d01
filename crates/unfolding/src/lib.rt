// What an OID unfolds to, down to the built-in types, and when it does: statements about the definitions of specs/.
#![tactic(auto)]

ghost use Rattle.unfolding.specs.Laws.{Exists, Kept, Unique};

// An OID has one unfolding at most and keeps it as the catalog grows. One that leads to finitely many OIDs has an unfolding
// exactly where each of them is built in or has a well-formed row and nothing goes round.
pub fn unfolding_stands()
    ensures unique { Unique }
    ensures kept { Kept }
    ensures exists { Exists }
{}
