// The judge of a table.
#![tactic(auto)]

ghost use Rattle.std.specs.Prelude.{◌≡◌};
ghost use Rattle.rules.specs.Judging.{wrong_count};
ghost use Rattle.rules.specs.Answers.{JudgeAnswers};

use crate::counted::CountedTable;
use rules::{Fault, MOST_ROWS, ROW_WORDS, Refusal};

mod children;
mod counted;
mod depths;
pub mod judged;
mod kinds;
mod lowest;
mod parents;
mod words;

// Whether refusal 1 applies.
// 4.1: Refusal 1, at 0: the number of words is not a multiple of 4, or there is no row, or there are more than 512.
#[tactic(auto, unfolding(rules::specs::Judging::wrong_count))]
fn wrong_count(table: &[u32]) -> bool
    ensures { result ≡ wrong_count table.now }
{
    let rows = table.len() / ROW_WORDS;
    table.len() % ROW_WORDS != 0 || rows == 0 || MOST_ROWS < rows
}

// The judge: accepted, or the lowest refusal from 1 to 5 that applies anywhere, with its lowest row.
pub fn judge(table: &[u32]) -> Result<(), Refusal>
    ensures { JudgeAnswers table.now result }
{
    if wrong_count(table) {
        return Err(Refusal {
            fault: Fault::WrongCount,
            row: 0,
        });
    }
    let counted = CountedTable::new(table, (table.len() / ROW_WORDS) as u32);
    words::judge_words(&counted)?;
    children::judge_children(&counted)?;
    parents::judge_parents(&counted)?;
    depths::judge_depths(&counted)
}
