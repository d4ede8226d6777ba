// The static level check: whether an output of a recipe may be denied, told before the recipe runs.
#![tactic(auto)]

mod pending;
mod provisional;
mod walk;

ghost use Rattle.std.specs.Prelude.{◌≡◌};
ghost use Rattle.rules.specs.Answers.{CheckAnswers};
ghost use Rattle.rules.specs.declared.Checked.{Checked};
ghost use Rattle.levels.specs.Found.{checked_at};

use crate::walk::walk;
use rules::{Advice, Checked, Marks, ROW_WORDS};
use table::judge;
use table::judged::JudgedTable;

// What is said of the lowest failing row, where there is one.
// 8.7: The check passes where no output fails, and else fails at the lowest row that does; ..
fn checked_at(lowest: Option<u16>) -> Checked
    ensures { result ≡ checked_at lowest }
{
    match lowest {
        None => Checked::Pass,
        Some(row) => Checked::Fail(u32::from(row)),
    }
}

// Checks the recipe of a table from a mark set, in a settled context: pass, or fail with the lowest failing row, and the
// final marks. A bad table is refused, and the marks are then as given.
pub fn check(table: &[u32], marks: Marks) -> Advice
    ensures { CheckAnswers table.now marks result }
{
    if let Err(refusal) = judge(table) {
        return Advice {
            checked: Checked::Refused(refusal),
            marks,
        };
    }
    let last = (table.len() / ROW_WORDS - 1) as u32;
    let found = walk(&JudgedTable::new(table), last, false, marks);
    Advice {
        checked: checked_at(found.lowest),
        marks: found.marks,
    }
}
