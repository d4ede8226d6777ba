// The walk over a statement: what it makes of the marks, and which of its outputs fail.
ghost use Rattle.std.specs.Prelude.{◌&&◌, ◌≡◌, ◌+◌, ◌<◌, eqb, length, take};
ghost use Rattle.rules.specs.declared.Kind.{Kind};
ghost use Rattle.rules.specs.Limits.{most_rows};
ghost use Rattle.rules.specs.Rows.{row_at};
ghost use Rattle.rules.specs.Trees.{expr_at, stmt_at};
ghost use Rattle.rules.specs.LevelRules.{under};
ghost use Rattle.rules.specs.LevelCheck.{walk};
ghost use Rattle.rules.specs.Sound.{Sound};
ghost use Rattle.levels.specs.Found.{lower_of, failed_at, found_of, loop_found};

use crate::pending::Pending;
use crate::provisional::is_guarded;
use leaves::marks::{joined, mark_as};
use rules::{Kind, MOST_ROWS, Marks, Row, VARIABLES};
use table::judged::JudgedTable;

// What a walk finds: the marks after the statement, and its lowest failing row. It comes back through memory, so the row has 16 bits.
#[derive(Clone, Copy)]
pub struct Found {
    pub marks: Marks,
    pub lowest: Option<u16>,
}

// The lower of two failing rows, where there are any. The second is looked at first, since most parts have none.
fn lower(a: Option<u16>, b: Option<u16>) -> Option<u16>
    ensures { result ≡ lower_of a b }
{
    match (a, b) {
        (a, None) => a,
        (None, b) => b,
        (Some(a), Some(b)) => Some(a.min(b)),
    }
}

// 8.6: An output .. fails where its channel is 0 and its expression guarded; ..
fn failing_at(
    table: &JudgedTable,
    row: u16,
    channel: u32,
    shown: u32,
    context: bool,
    marks: Marks,
) -> Option<u16>
    requires { shown < length table.now }
    ensures { result ≡ failed_at (eqb channel 0 && under (expr_at table.now shown) context marks) row }
{
    // Stays: `then_some` puts an answer together also where none fails, a quarter more instructions for outputs in loops of many rounds.
    if channel == 0 && is_guarded(table, shown, context, marks) {
        Some(row)
    } else {
        None
    }
}

// Walks a loop's body from the incoming set, adds what comes back, and walks again until nothing is added. The walk that adds
// nothing started from the final set, so what failed in it is what fails. Each walk but the last adds a variable.
// Stays: a struct of table and pending rows would be lent for writing whole, and each contract would also say that its table stays.
// Stays: the rules' own `walk` and `under` take context and marks one by one, and a contract would take a struct of them apart.
#[cycle(walks)]
fn walk_loop(
    table: &JudgedTable,
    rows: &mut [u16; MOST_ROWS],
    len: usize,
    test: u32,
    body: u32,
    context: bool,
    marks: Marks,
) -> Found
    requires test { test < length table.now }
    requires body { len + body < length table.now }
    ensures found { result ≡ loop_found table.now test body context marks }
    ensures kept { take len rows.new ≡ take len rows.old }
    ensures long { length rows.new ≡ most_rows }
{
    let mut set = marks;
    for _ in 0..VARIABLES + 1 {
        let inside = is_guarded(table, test, context, set);
        let turn = walk_on(table, rows, len, body, inside, set);
        let grown = joined(set, turn.marks);
        if grown == set {
            return Found {
                marks: set,
                lowest: turn.lowest,
            };
        }
        set = grown;
    }
    Found {
        marks: set,
        lowest: None,
    }
}

// Walks a statement that is no sequence, whose row was read.
#[cycle(walks)]
fn walk_part(
    table: &JudgedTable,
    rows: &mut [u16; MOST_ROWS],
    len: usize,
    row: u32,
    here: Row,
    context: bool,
    marks: Marks,
) -> Found
    requires sound { Sound table.now }
    requires row { len + row < length table.now }
    requires here { here ≡ row_at table.now row }
    requires part { here.kind ≡ Kind.Sequence → ⊥ }
    ensures found { result ≡ found_of (walk (stmt_at table.now row) context marks) }
    ensures kept { take len rows.new ≡ take len rows.old }
    ensures long { length rows.new ≡ most_rows }
{
    match here.kind {
        Kind::Assign => {
            let bit = is_guarded(table, here.q, context, marks);
            Found {
                marks: mark_as(marks, here.p, bit),
                lowest: None,
            }
        }
        Kind::If => {
            let inside = is_guarded(table, here.p, context, marks);
            let then = walk_on(table, rows, len, here.q, inside, marks);
            let other = walk_on(table, rows, len, here.r, inside, marks);
            Found {
                marks: joined(then.marks, other.marks),
                lowest: lower(then.lowest, other.lowest),
            }
        }
        Kind::While => walk_loop(table, rows, len, here.p, here.q, context, marks),
        Kind::Output => Found {
            marks,
            lowest: failing_at(table, row as u16, here.p, here.q, context, marks),
        },
        _ => Found {
            marks,
            lowest: None,
        },
    }
}

// Walks the statement at a row, in a context, from a mark set. The parts of its sequences are taken in a loop, so that only an if
// or a while calls anew; what is pending at the call, as many of the rows as `len`, stays so.
#[cycle(walks)]
fn walk_on(
    table: &JudgedTable,
    rows: &mut [u16; MOST_ROWS],
    len: usize,
    row: u32,
    context: bool,
    marks: Marks,
) -> Found
    requires { len + row < length table.now }
    ensures found { result ≡ found_of (walk (stmt_at table.now row) context marks) }
    ensures kept { take len rows.new ≡ take len rows.old }
    ensures long { length rows.new ≡ most_rows }
{
    let mut pending = Pending { rows, len };
    let mut found = Found {
        marks,
        lowest: None,
    };
    let mut at = row;
    loop {
        let here = table.row(at);
        if let Kind::Sequence = here.kind {
            pending.push(here.q as u16);
            at = here.p;
            continue;
        }
        let n = pending.len;
        let part = walk_part(table, pending.rows, n, at, here, context, found.marks);
        found = Found {
            marks: part.marks,
            lowest: lower(found.lowest, part.lowest),
        };
        if n == len {
            return found;
        }
        at = u32::from(pending.pop());
    }
}

// Walks the statement at a row, in a context, from a mark set.
pub fn walk(table: &JudgedTable, row: u32, context: bool, marks: Marks) -> Found
    requires { row < length table.now }
    ensures { result ≡ found_of (walk (stmt_at table.now row) context marks) }
{
    walk_on(table, &mut [0; MOST_ROWS], 0, row, context, marks)
}
