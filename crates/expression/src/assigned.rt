// 3.8: What a statement may assign is the set of the variables of all assigns in it, at any depth.
ghost use Rattle.std.specs.Prelude.{◌≡◌, ◌<◌, length};
ghost use Rattle.rules.specs.Rows.{rows_of};
ghost use Rattle.rules.specs.Trees.{stmt_at};
ghost use Rattle.rules.specs.Values.{may_assign};
ghost use Rattle.rules.specs.Sound.{Sound};
ghost use Rattle.expression.specs.Assigned.{said_of_assigned, assigned_at};

use leaves::marks::{joined, only_mark};
use rows::has_row;
use rules::{Kind, Marks, Refusal};
use table::judge;
use table::judged::JudgedTable;

// The variables that the statement at a row may assign.
fn may_assign_lent(table: &JudgedTable, row: u32) -> Marks
    requires { row < length table.now }
    ensures { result ≡ may_assign (stmt_at table.now row) }
{
    let here = table.row(row);
    match here.kind {
        Kind::Assign => only_mark(here.p),
        Kind::Sequence => joined(
            may_assign_lent(table, here.p),
            may_assign_lent(table, here.q),
        ),
        Kind::If => joined(
            may_assign_lent(table, here.q),
            may_assign_lent(table, here.r),
        ),
        Kind::While => may_assign_lent(table, here.q),
        _ => 0,
    }
}

// The variables that the statement at a row may assign, for callers that hold a judged table.
// Stays: words, and what is asked of their rows, since docs/CONTRACTS.md promises the call over them.
pub fn may_assign(table: &[u32], row: u32) -> Marks
    requires { Sound (rows_of table.now) × (row < length (rows_of table.now)) }
    ensures { result ≡ may_assign (stmt_at (rows_of table.now) row) }
{
    may_assign_lent(&JudgedTable::new(table), row)
}

// Stays: beside `value_at`, with a law and a default of its own; one function over both would take the walk as a closure.
// The variables that the statement at a row of any table may assign: the table is judged first. An expression's row, and a
// row that the table does not have, is read as skip: it may assign no variable.
pub fn assigned_at(table: &[u32], row: u32) -> Result<Marks, Refusal>
    ensures { said_of_assigned result ≡ assigned_at table.now row }
{
    judge(table)?;
    if !has_row(table, row) {
        return Ok(0);
    }
    Ok(may_assign(table, row))
}
