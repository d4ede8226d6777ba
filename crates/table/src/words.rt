// Refusal 2: a row of no known kind, or with a word that its role does not allow.
ghost use Rattle.std.specs.Prelude.{◌≡◌, ◌<◌, length};
ghost use Rattle.rules.specs.Rows.{row_at};
ghost use Rattle.rules.specs.Answers.{judged_of};
ghost use Rattle.rules.specs.Judging.{wrong_word, wrong_words};
ghost use Rattle.table.specs.Refused.{refused_words};

use crate::counted::CountedTable;
use crate::kinds::roles_of;
use crate::lowest::refuse_lowest;
use rules::{Fault, Kind, Refusal, Role, Row, VARIABLES};

// Whether the word is out of its role's range, or not 0 where it is not named.
#[tactic(auto, unfolding(rules::specs::Judging::wrong_word))]
fn wrong_word(role: Role, word: u32) -> bool
    ensures { result ≡ wrong_word role word }
{
    match role {
        Role::Unnamed => word != 0,
        Role::Variable => VARIABLES as u32 <= word,
        Role::Channel => 1 < word,
        Role::Operator => 5 < word,
        _ => false,
    }
}

// Whether refusal 2 applies to the row.
#[tactic(auto, unfolding(rules::specs::Judging::wrong_words, rules::specs::Rows::is_unknown))]
fn wrong_words(row: Row) -> bool
    ensures { result ≡ wrong_words row }
{
    let roles = roles_of(row.kind);
    row.kind == Kind::Unknown
        || wrong_word(roles.p, row.p)
        || wrong_word(roles.q, row.q)
        || wrong_word(roles.r, row.r)
}

// Refusal 2 at the lowest row to which it applies.
pub fn judge_words(table: &CountedTable) -> Result<(), Refusal>
    ensures { judged_of result ≡ refused_words table.now }
{
    refuse_lowest(
        Fault::WrongWord,
        table.rows(),
        |row|
            requires { row < length table.now }
            ensures { result ≡ wrong_words (row_at table.entry.now row) }
        { wrong_words(table.row(row)) },
    )
}
