// The rows of a table, one after the other.
ghost use Rattle.std.specs.Prelude.{◌≡◌};
ghost use Rattle.rules.specs.Rows.{kind_number};
ghost use Rattle.reader.specs.Rows.{row_put};

use rules::{Kind, MOST_ROWS, ROW_WORDS, TABLE_WORDS};

// Puts a row into a table; a row that no table can have is put nowhere.
// Stays: kind and words one by one, since each caller has them so, and a `Row` would be made at nine calls to be taken apart here.
pub fn put_row(rows: &mut [u32; TABLE_WORDS], row: u32, kind: Kind, p: u32, q: u32, r: u32)
    ensures { rows.new ≡ row_put row (kind_number kind, p, q, r) rows.old }
{
    if row as usize >= MOST_ROWS {
        return;
    }
    let at = row as usize * ROW_WORDS;
    rows[at] = u32::from(kind);
    rows[at + 1] = p;
    rows[at + 2] = q;
    rows[at + 3] = r;
}
