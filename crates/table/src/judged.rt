// A table that was judged, for those that walk its rows.
ghost use Rattle.std.specs.Prelude.{◌≡◌, ◌<◌, length};
ghost use Rattle.rules.specs.Rows.{rows_of, row_at};
ghost use Rattle.rules.specs.Sound.{Sound};

use rows::read_row;
use rules::Row;
use std::marker::Model;

// A table that the judge accepts. Its contracts see its rows, and that these are sound is a fact of the type.
#[derive(Drop)]
pub struct JudgedTable<'a> {
    words: &'a [u32],
}

impl<'a> Model for JudgedTable<'a> {
    ghost use Rattle.std.specs.Prelude.{List};
    ghost use Rattle.rules.specs.declared.Row.{Row};
    ghost use Rattle.rules.specs.Rows.{rows_of};
    ghost use Rattle.rules.specs.Sound.{Sound};

    ghost Value = { List Row };

    ghost view = { λ t. rows_of t.words.now };

    ghost invariant = { λ t. Sound (rows_of t.words.now) };
}

impl<'a> JudgedTable<'a> {
    // The table of so many words, for callers that know that the judge accepts it.
    pub fn new(words: &'a [u32]) -> JudgedTable<'a>
        requires { Sound (rows_of words.now) }
        ensures { result ≡ rows_of words.now }
    {
        JudgedTable { words }
    }

    // The row of a number, for callers that know that the table has it.
    pub fn row(&self, row: u32) -> Row
        requires { row < length self.now }
        ensures read { result ≡ row_at self.now row }
        ensures sound { Sound self.now }
    {
        read_row(self.words, row)
    }
}
