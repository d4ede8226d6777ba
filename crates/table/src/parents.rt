// Refusal 4: a row before the last that is a child of no row or at more than one place, or a last row that is an expression.
ghost use Rattle.std.specs.Prelude.{◌≡◌, ◌<◌, ◌≤◌, length, get_or};
ghost use Rattle.rules.specs.Limits.{most_rows};
ghost use Rattle.rules.specs.Answers.{judged_of};
ghost use Rattle.rules.specs.Judging.{child_of, children, places, wrong_parents};
ghost use Rattle.rules.specs.OnePass.{children_of};
ghost use Rattle.table.specs.Refused.{refused_parents};
ghost use Rattle.table.specs.Parents.{SameCount, Counted};

use crate::counted::CountedTable;
use crate::kinds::{is_expression, roles_of};
use crate::lowest::refuse_lowest;
use rules::{Fault, MOST_ROWS, Refusal, Role, Row};

// Counts a place at which the word stands, where its role makes it a child; two stands for any more.
fn count_child(parents: &mut [u8; MOST_ROWS], role: Role, word: u32)
    ensures { Counted parents.old parents.new (child_of role word) }
{
    match role {
        Role::Statement | Role::Expression => {
            let at = word as usize;
            if at < MOST_ROWS {
                parents[at] = if parents[at] == 0 { 1 } else { 2 };
            }
        }
        _ => {}
    }
}

// Counts the children of a row.
fn count_children(parents: &mut [u8; MOST_ROWS], row: Row)
    ensures { Counted parents.old parents.new (children_of row) }
{
    let roles = roles_of(row.kind);
    count_child(parents, roles.p, row.p);
    count_child(parents, roles.q, row.q);
    count_child(parents, roles.r, row.r);
}

// Whether refusal 4 applies to row i, which stands as a child at so many places; two stands for any more.
#[tactic(auto, unfolding(rules::specs::Judging::wrong_parents))]
fn wrong_parents(table: &CountedTable, i: u32, count: u8) -> bool
    requires { (i < length table.now) × SameCount count (places i (children table.now)) }
    ensures { result ≡ wrong_parents table.now (children table.now) i }
{
    let rows = table.rows();
    if i + 1 == rows {
        return is_expression(table.row(i).kind);
    }
    count != 1
}

// Refusal 4 at the lowest row to which it applies.
pub fn judge_parents(table: &CountedTable) -> Result<(), Refusal>
    ensures { judged_of result ≡ refused_parents table.now }
{
    let mut parents = [0u8; MOST_ROWS];
    count_parents(table, &mut parents);
    refuse_lowest(
        Fault::WrongParents,
        table.rows(),
        |row|
            requires { (row < length table.now) × (length table.now ≤ most_rows)
                × SameCount (get_or parents row 0) (places row (children table.now)) }
            ensures { result ≡ wrong_parents table.entry.now (children table.entry.now) row }
        { wrong_parents(table, row, parents[row as usize]) },
    )
}

// Counts the children of every row.
fn count_parents(table: &CountedTable, parents: &mut [u8; MOST_ROWS])
    ensures { Counted parents.old parents.new (children table.now) }
{
    for row in 0..table.rows() {
        count_children(parents, table.row(row));
    }
}
