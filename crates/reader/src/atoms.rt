// What a word is in an expression.
ghost use Rattle.std.specs.Prelude.{◌≡◌, ◌+◌, ◌≤◌, length, IsSome};
ghost use Rattle.lines.specs.Limits.{most_word};
ghost use Rattle.reader.specs.Atoms.{NumberTo, VariableAt, ConstantAt, SignAt};

use numbers::{MOST_WORD, Parsed, number_at};
use rules::{Operator, VARIABLES};
use spans::is_joined;

// The number that stands from a place on to the end of a word, where it is at most so much.
fn number_to_end(text: &[u8], at: usize, most: u64) -> Option<Parsed<u32>>
    requires { most ≤ most_word }
    ensures { NumberTo text.now at most result }
{
    let Parsed { value, next } = number_at(text, at)?;
    if most < value || is_joined(text, next) {
        return None;
    }
    Some(Parsed {
        value: value as u32,
        next,
    })
}

// The variable that the word at a place is.
pub fn variable_at(text: &[u8], at: usize) -> Option<Parsed<u32>>
    ensures { VariableAt text.now at result }
{
    match text.get(at)? {
        b'v' => number_to_end(text, at + 1, VARIABLES as u64 - 1),
        _ => None,
    }
}

// The number that the word at a place is.
pub fn constant_at(text: &[u8], at: usize) -> Option<Parsed<u32>>
    ensures { ConstantAt text.now at result }
{
    number_to_end(text, at, MOST_WORD)
}

// The operator that the word at a place is.
pub fn sign_at(text: &[u8], at: usize) -> Option<Operator>
    ensures { SignAt text.now at result }
{
    match text.get(at)? {
        b'+' => Some(Operator::Sum),
        b'-' => Some(Operator::Difference),
        b'*' => Some(Operator::Product),
        b'/' => Some(Operator::Quotient),
        b'=' => Some(Operator::Equal),
        b'<' => Some(Operator::Less),
        _ => None,
    }
}
