// Refusal 3: a child's number not below its parent's, or a child of the wrong sort.
ghost use Rattle.std.specs.Prelude.{◌≡◌, ◌<◌, length};
ghost use Rattle.rules.specs.Rows.{row_at};
ghost use Rattle.rules.specs.Answers.{judged_of};
ghost use Rattle.rules.specs.Judging.{wrong_child, wrong_children};
ghost use Rattle.table.specs.Refused.{refused_children};

use crate::counted::CountedTable;
use crate::kinds::{is_expression, is_statement, roles_of};
use crate::lowest::refuse_lowest;
use rules::{Fault, Refusal, Role, Row};

// Whether the word is a child that its parent may not have.
#[tactic(auto, unfolding(rules::specs::Judging::wrong_child))]
fn wrong_child(table: &CountedTable, parent: u32, role: Role, word: u32) -> bool
    requires { parent < length table.now }
    ensures { result ≡ wrong_child table.now parent role word }
{
    match role {
        Role::Statement => parent <= word || !is_statement(table.row(word).kind),
        Role::Expression => parent <= word || !is_expression(table.row(word).kind),
        _ => false,
    }
}

// Whether refusal 3 applies to the row of that number.
#[tactic(auto, unfolding(rules::specs::Judging::wrong_children))]
fn wrong_children(table: &CountedTable, i: u32, row: Row) -> bool
    requires { i < length table.now }
    ensures { result ≡ wrong_children table.now i row }
{
    let roles = roles_of(row.kind);
    wrong_child(table, i, roles.p, row.p)
        || wrong_child(table, i, roles.q, row.q)
        || wrong_child(table, i, roles.r, row.r)
}

// Refusal 3 at the lowest row to which it applies.
pub fn judge_children(table: &CountedTable) -> Result<(), Refusal>
    ensures { judged_of result ≡ refused_children table.now }
{
    refuse_lowest(
        Fault::WrongChild,
        table.rows(),
        |row|
            requires { row < length table.now }
            ensures { result ≡ wrong_children table.entry.now row (row_at table.entry.now row) }
        { wrong_children(table, row, table.row(row)) },
    )
}
