// The rows of a table of words.
#![tactic(auto)]

ghost use Rattle.std.specs.Prelude.{◌≡◌, ◌<◌, ltb, length};
ghost use Rattle.rules.specs.Rows.{rows_of, row_at};

use rules::{Kind, ROW_WORDS, Row};

// The row of a number, for callers that know that the table has it.
pub fn read_row(table: &[u32], row: u32) -> Row
    requires { row < length (rows_of table.now) }
    ensures { result ≡ row_at (rows_of table.now) row }
{
    let at = row as usize * ROW_WORDS;
    Row {
        kind: Kind::from(table[at]),
        p: table[at + 1],
        q: table[at + 2],
        r: table[at + 3],
    }
}

// Whether the table has a row of that number.
pub fn has_row(table: &[u32], row: u32) -> bool
    ensures { result ≡ ltb row (length (rows_of table.now)) }
{
    (row as usize) < table.len() / ROW_WORDS
}

// The row of a number; one that the table does not have is of no known kind.
pub fn row_at(table: &[u32], row: u32) -> Row
    ensures { result ≡ row_at (rows_of table.now) row }
{
    if has_row(table, row) {
        return read_row(table, row);
    }
    Row {
        kind: Kind::Unknown,
        p: 0,
        q: 0,
        r: 0,
    }
}
