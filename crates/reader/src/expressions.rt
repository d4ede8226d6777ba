// An expression's words, read from the left to the right. What is open stands in a lent array, an entry for each parenthesis: 0
// where its left side is being read, and else the left side's row and the operator's number.
ghost use Rattle.std.specs.Prelude.{true, false, [], ◌∷◌, ◌≡◌, ◌≢◌, ◌+◌, ◌-◌, ◌*◌, ◌/◌, ◌%◌, ◌≤◌, length};
ghost use Rattle.rules.specs.Trees.{operator_number};
ghost use Rattle.rules.specs.Limits.{most_rows};
ghost use Rattle.reader.specs.Machine.{expr};
ghost use Rattle.reader.specs.Steps.{Asked, Stepped, expressions};
ghost use Rattle.reader.specs.Frames.{Ready, Turned};

use crate::atoms::{constant_at, sign_at, variable_at};
use crate::put::put_row;
use crate::words::is_word;
use numbers::Parsed;
use rules::{Kind, MOST_ROWS, Operator, TABLE_WORDS};
use spans::start_at;

// 13.12: Refusal 9, at 0: the text has more than 16,384 bytes.
pub const MOST_TEXT: usize = 16384;

// As many parentheses as a text can open and close again within each other, four bytes each. Of more the outer ones are never come
// back to, and their entries are laid over.
pub const MOST_HELD: usize = MOST_TEXT / 4;

// An entry has room for so many operators beside a row.
// Stays: an entry is one number of 16 bits, as a call clears them all; docs/SPEED.md has what longer ones took, and what else changed.
const SIGNS: u16 = 8;

// The arrays that the readers fill: a table's rows, and the entries of the parentheses that are open.
// Stays: arrays of a fixed size, since the project allows no heap.
#[derive(Drop)]
pub struct Arrays {
    pub rows: [u32; TABLE_WORDS],
    pub held: [u16; MOST_HELD],
}

// How far a text is read: the place after what was read, and how many rows there are.
#[derive(Clone, Copy)]
pub struct Place {
    pub at: usize,
    pub count: u32,
}

// How far an expression is: the place, the rows, how many parentheses are open, and whether one of its expressions is whole there.
#[derive(Clone, Copy)]
pub struct Inside {
    pub at: usize,
    pub count: u32,
    pub depth: usize,
    pub whole: bool,
}

// The entry of a left side's row and an operator. Of a row that no table can have only a part is kept: no row after it is put.
#[tactic(auto, using(crate::proofs::FrameLaws::sign_few))]
fn entry_of(row: u32, sign: Operator) -> u16
    ensures { result ≡ (row % most_rows) * 8 + operator_number sign + 1 }
{
    (row as usize % MOST_ROWS) as u16 * SIGNS + u32::from(sign) as u16 + 1
}

// The operator's number of an entry.
fn sign_in(entry: u16) -> u32
    requires { entry ≢ 0 }
    ensures { result ≡ (entry - 1) % 8 }
{
    u32::from((entry - 1) % SIGNS)
}

// The left side's row of an entry.
fn row_in(entry: u16) -> u32
    requires { entry ≢ 0 }
    ensures { result ≡ (entry - 1) / 8 }
{
    u32::from((entry - 1) / SIGNS)
}

// Reads a word where an expression begins: a parenthesis, a number or a variable.
fn begin(text: &[u8], s: Inside, arrays: &mut Arrays) -> Result<Inside, usize>
    requires { Ready text.now s × (s.whole ≡ false) }
    ensures { Turned text.now s arrays.old.rows arrays.old.held result arrays.new.rows arrays.new.held }
{
    let start = start_at(text, s.at);
    if is_word(text, start, b"(") {
        arrays.held[s.depth % MOST_HELD] = 0;
        return Ok(Inside {
            at: start + 1,
            depth: s.depth + 1,
            ..s
        });
    }
    if let Some(Parsed { value, next }) = variable_at(text, start) {
        put_row(&mut arrays.rows, s.count, Kind::Variable, value, 0, 0);
        return Ok(Inside {
            at: next,
            count: s.count + 1,
            whole: true,
            ..s
        });
    }
    let Parsed { value, next } = constant_at(text, start).ok_or(s.at)?;
    put_row(&mut arrays.rows, s.count, Kind::Constant, value, 0, 0);
    Ok(Inside {
        at: next,
        count: s.count + 1,
        whole: true,
        ..s
    })
}

// Reads a word after an expression within parentheses: the operator after a left side, or the end after a right one.
fn go_on(text: &[u8], s: Inside, arrays: &mut Arrays) -> Result<Inside, usize>
    requires { Ready text.now s × (s.whole ≡ true) × (s.depth ≢ 0) }
    ensures { Turned text.now s arrays.old.rows arrays.old.held result arrays.new.rows arrays.new.held }
{
    let start = start_at(text, s.at);
    let last = s.depth - 1;
    let entry = arrays.held[last % MOST_HELD];
    if entry == 0 {
        let sign = sign_at(text, start).ok_or(s.at)?;
        arrays.held[last % MOST_HELD] = entry_of(s.count - 1, sign);
        return Ok(Inside {
            at: start + 1,
            whole: false,
            ..s
        });
    }
    if !is_word(text, start, b")") {
        return Err(s.at);
    }
    put_row(
        &mut arrays.rows,
        s.count,
        Kind::Binary,
        sign_in(entry),
        row_in(entry),
        s.count - 1,
    );
    Ok(Inside {
        at: start + 1,
        count: s.count + 1,
        depth: last,
        ..s
    })
}

// Reads the next word of an expression that is not over.
fn read_word(text: &[u8], s: Inside, arrays: &mut Arrays) -> Result<Inside, usize>
    requires { Ready text.now s × (s.whole ≡ true → s.depth ≢ 0) }
    ensures { Turned text.now s arrays.old.rows arrays.old.held result arrays.new.rows arrays.new.held }
{
    if s.whole {
        go_on(text, s, arrays)
    } else {
        begin(text, s, arrays)
    }
}

// Reads the expression at a place; the error is the place from which on the first word is at fault.
pub fn read_expression(text: &[u8], from: Place, arrays: &mut Arrays) -> Result<Place, usize>
    requires { Asked text.now from }
    ensures { Stepped expressions (expr ∷ []) text.now from arrays.old.rows result arrays.new.rows }
{
    let Place { at, count } = from;
    let mut s = Inside {
        at,
        count,
        depth: 0,
        whole: false,
    };
    while !(s.whole && s.depth == 0) {
        s = read_word(text, s, arrays)?;
    }
    Ok(Place {
        at: s.at,
        count: s.count,
    })
}
