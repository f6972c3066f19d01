// A Bind, computed, and what it writes.

ghost use Rattle.life.specs.Bind.{BindLaw, BindNineLaw, ColumnRoundLaw, ColumnsLaw, QuestionsLaw};
ghost use Rattle.life.specs.Written.{ExpressionLaw, OriginLaw, TypesLaw};

// A Bind, computed by the walk, the passes, refusals 8 and 9 and one column round, is one more step of any life. The column round
// asks for exactly the columns that a field comes from and the book does not hold, none twice; what is told of it, and the columns
// left, are told by that. It is refused by 9 exactly where a requested OID has a row and no unfolding, and then at the first.
pub fn binding_stands()
    ensures step { BindLaw }
    ensures columns { ColumnsLaw }
    ensures questions { QuestionsLaw }
    ensures column_round { ColumnRoundLaw }
    ensures nine { BindNineLaw }
{}

// A field's origin is Table exactly where the book holds its column, and Expression exactly where its relation or its attribute is
// absent. A type is written as settled exactly where the book knows its OID, and then by its unfolding.
pub fn written_stands()
    ensures origin { OriginLaw }
    ensures expression { ExpressionLaw }
    ensures types { TypesLaw }
{}
