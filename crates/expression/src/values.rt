// An expression's value and level.
ghost use Rattle.std.specs.Prelude.{◌≡◌, ◌%◌, ◌<◌, length};
ghost use Rattle.rules.specs.Limits.{width};
ghost use Rattle.rules.specs.Rows.{rows_of};
ghost use Rattle.rules.specs.Trees.{variable, expr_at};
ghost use Rattle.rules.specs.Sound.{Sound};
ghost use Rattle.expression.specs.Valued.{valued_of, valued_in, said_of_value, value_at};

use leaves::marks::{joined, only_mark};
use leaves::memory::read_lent;
use leaves::operators::operated;
use rows::has_row;
use rules::{Kind, Marks, Memory, Refusal, VARIABLES, WORD_VALUES};
use table::judge;
use table::judged::JudgedTable;

// An expression's value, and its level: the marked variables that are read in it.
#[derive(Drop)]
pub struct Valued {
    pub value: u32,
    pub level: Marks,
}

// Value and level in one word, the level above.
// Stays: a struct in place of the word comes back through memory, and took 6.0 in place of 4.1 ns a step of the counting loop (docs/SPEED.md).
fn pack(value: u32, level: Marks) -> u64
    ensures { valued_in result ≡ record { value = value; level = level } }
{
    u64::from(level) * WORD_VALUES + u64::from(value)
}

// The value and level that stand in one word.
fn unpack(word: u64) -> Valued
    ensures { result ≡ valued_in word }
{
    Valued {
        value: (word % WORD_VALUES) as u32,
        level: (word / WORD_VALUES) as Marks,
    }
}

// The variable's value, and its level: itself where it is marked.
fn read_variable(words: &[u32; VARIABLES], marks: Marks, v: u32) -> u64
    ensures { valued_in result ≡ valued_of words.now marks (variable (v % width)) }
{
    pack(read_lent(words, v), marks & only_mark(v))
}

// The value and level of the expression at a row.
fn evaluate_lent(table: &JudgedTable, row: u32, words: &[u32; VARIABLES], marks: Marks) -> u64
    requires { row < length table.now }
    ensures { valued_in result ≡ valued_of words.now marks (expr_at table.now row) }
{
    let here = table.row(row);
    match here.kind {
        Kind::Constant => pack(here.p, 0),
        Kind::Variable => read_variable(words, marks, here.p),
        Kind::Binary => {
            let left = unpack(evaluate_lent(table, here.q, words, marks));
            let right = unpack(evaluate_lent(table, here.r, words, marks));
            pack(
                operated(here.p, left.value, right.value),
                joined(left.level, right.level),
            )
        }
        _ => pack(0, 0),
    }
}

// The value and level of the expression at a row, for callers that hold a judged table.
// Stays: words, and what is asked of their rows, since docs/CONTRACTS.md promises the call over them.
pub fn evaluate(table: &[u32], row: u32, words: &[u32; VARIABLES], marks: Marks) -> Valued
    requires { Sound (rows_of table.now) × (row < length (rows_of table.now)) }
    ensures { result ≡ valued_of words.now marks (expr_at (rows_of table.now) row) }
{
    unpack(evaluate_lent(&JudgedTable::new(table), row, words, marks))
}

// The value and level of the expression at a row of any table: the table is judged first. A statement's row, and a row that
// the table does not have, is read as the constant 0: its value is 0, and its level too.
pub fn value_at(table: &[u32], row: u32, memory: Memory, marks: Marks) -> Result<Valued, Refusal>
    ensures { said_of_value result ≡ value_at table.now row memory.words marks }
{
    judge(table)?;
    if !has_row(table, row) {
        return Ok(Valued { value: 0, level: 0 });
    }
    Ok(evaluate(table, row, &memory.words, marks))
}
