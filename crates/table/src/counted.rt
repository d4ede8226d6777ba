// A table whose rows are counted, for the judge's passes.
ghost use Rattle.std.specs.Prelude.{◌≡◌, ◌<◌, ◌≤◌, length};
ghost use Rattle.rules.specs.Limits.{most_rows};
ghost use Rattle.rules.specs.Rows.{rows_of, row_at};

use rows::read_row;
use rules::Row;
use std::marker::Model;

// A table to which refusal 1 does not apply, and how many rows it has. Its contracts see its rows.
#[derive(Drop)]
pub struct CountedTable<'a> {
    words: &'a [u32],
    rows: u32,
}

impl<'a> Model for CountedTable<'a> {
    ghost use Rattle.std.specs.Prelude.{List, ◌≡◌, ◌≤◌, length};
    ghost use Rattle.rules.specs.declared.Row.{Row};
    ghost use Rattle.rules.specs.Limits.{most_rows};
    ghost use Rattle.rules.specs.Rows.{rows_of};

    ghost Value = { List Row };

    ghost view = { λ t. rows_of t.words.now };

    ghost invariant = { λ t. (t.rows ≡ length (rows_of t.words.now)) × (t.rows ≤ most_rows) };
}

impl<'a> CountedTable<'a> {
    // The table of so many rows.
    pub fn new(words: &'a [u32], rows: u32) -> CountedTable<'a>
        requires counted { rows ≡ length (rows_of words.now) }
        requires few { rows ≤ most_rows }
        ensures { result ≡ rows_of words.now }
    {
        CountedTable { words, rows }
    }

    // How many rows there are.
    pub fn rows(&self) -> u32
        ensures counted { result ≡ length self.now }
        ensures few { result ≤ most_rows }
    {
        self.rows
    }

    // The row of a number.
    pub fn row(&self, row: u32) -> Row
        requires { row < length self.now }
        ensures { result ≡ row_at self.now row }
    {
        read_row(self.words, row)
    }
}
