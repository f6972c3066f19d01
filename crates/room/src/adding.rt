// What a step adds to the tables.

ghost use Rattle.room.specs.Added.{AddedLaw, EntryLaw, HeldLaw};

// The tables with what is added, computed from the rows and the columns read, are the book that the step keeps. They hold each key
// once again, and a relation exactly where they hold one of its columns; so an entry stands for each answer of the book, and to
// count entries is to count answers.
pub fn adding_stands()
    ensures added { AddedLaw }
    ensures held { HeldLaw }
    ensures entries { EntryLaw }
{}
