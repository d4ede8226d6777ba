// 3.7: An expression is provisional where its level is not empty, and else it is settled; ..
ghost use Rattle.std.specs.Prelude.{◌≡◌, ◌<◌, length};
ghost use Rattle.rules.specs.Trees.{expr_at};
ghost use Rattle.rules.specs.Marks.{provisional};
ghost use Rattle.rules.specs.Values.{level};
ghost use Rattle.rules.specs.LevelRules.{under};

use leaves::marks::has_mark;
use rules::{Kind, Marks};
use table::judged::JudgedTable;

// Whether the expression at a row is provisional. Its right side is looked at only where its left side is settled.
fn is_provisional(table: &JudgedTable, row: u32, marks: Marks) -> bool
    requires { row < length table.now }
    ensures { result ≡ provisional (level marks (expr_at table.now row)) }
{
    let here = table.row(row);
    match here.kind {
        Kind::Variable => has_mark(marks, here.p),
        Kind::Binary => {
            is_provisional(table, here.q, marks) || is_provisional(table, here.r, marks)
        }
        _ => false,
    }
}

// Whether the expression at a row, or the context, is provisional.
pub fn is_guarded(table: &JudgedTable, row: u32, context: bool, marks: Marks) -> bool
    requires { row < length table.now }
    ensures { result ≡ under (expr_at table.now row) context marks }
{
    context || is_provisional(table, row, marks)
}
