// Reading a table's text is the inverse of writing it: the law over the definition of what a text gives.
#![tactic(auto)]

ghost use Rattle.std.specs.Prelude.{ℕ, List};
ghost use Rattle.reading.specs.Reading.{table_of};
ghost use Rattle.sheets.specs.Sheets.{InverseOfWriting};

// Of every text.
pub fn reading_is_the_inverse_of_writing()
    ensures { (text : List ℕ) → InverseOfWriting text (table_of text) }
{}
