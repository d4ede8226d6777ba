// A recipe's declarations.
ghost use Rattle.std.specs.Prelude.{◌≡◌};
ghost use Rattle.reader.specs.Heads.{LevelClosed, LevelRead, DeclarationRead, seen_with, HeadRead};

use crate::atoms::variable_at;
use crate::words::expect;
use leaves::marks::{has_mark, mark_as};
use numbers::Parsed;
use rules::Marks;
use spans::{Span, is_key, start_at, word_at, word_part};

// A declaration after its first word: its variable and where that stands, whether it is provisional, and the place after it.
#[derive(Clone, Copy)]
pub struct Declared {
    pub variable: u32,
    pub name: Span,
    pub provisional: bool,
    pub next: usize,
}

// The declarations so far: the place after them, the variables that they declare, the marks, and where the first variable stands
// that is declared again.
#[derive(Clone, Copy)]
pub struct Seen {
    pub at: usize,
    pub declared: Marks,
    pub marks: Marks,
    pub again: Option<Span>,
}

// Reads the semicolon after a level word.
fn close_level(text: &[u8], from: usize, provisional: bool) -> Result<Parsed<bool>, usize>
    ensures { LevelClosed text.now from provisional result }
{
    match expect(text, from, b";") {
        Ok(next) => Ok(Parsed {
            value: provisional,
            next,
        }),
        Err(_) => Err(from),
    }
}

// Reads a declaration after its variable, a level word or none, and a semicolon: whether it is provisional, and the place after it.
fn read_level(text: &[u8], from: usize) -> Result<Parsed<bool>, usize>
    ensures { LevelRead text.now from result }
{
    let Span { start, end } = word_at(text, from);
    let word = word_part(text, start, end);
    if is_key(word, b";") {
        return Ok(Parsed {
            value: false,
            next: end,
        });
    }
    if is_key(word, b"settled") {
        return close_level(text, end, false);
    }
    if is_key(word, b"provisional") {
        return close_level(text, end, true);
    }
    Err(from)
}

// Reads a declaration after its first word.
fn read_declaration(text: &[u8], from: usize) -> Result<Declared, usize>
    ensures { DeclarationRead text.now from result }
{
    let start = start_at(text, from);
    let name = variable_at(text, start).ok_or(from)?;
    let level = read_level(text, name.next)?;
    Ok(Declared {
        variable: name.value,
        name: Span {
            start,
            end: name.next,
        },
        provisional: level.value,
        next: level.next,
    })
}

// Takes a declaration into account.
fn seen_with(s: Seen, d: Declared) -> Seen
    ensures { result ≡ seen_with s d }
{
    let again = has_mark(s.declared, d.variable).then_some(d.name);
    Seen {
        at: d.next,
        declared: mark_as(s.declared, d.variable, true),
        marks: mark_as(s.marks, d.variable, d.provisional),
        again: s.again.or(again),
    }
}

// Reads the declarations at the front of a text; the error is the place from which on the first word is at fault.
pub fn read_head(text: &[u8]) -> Result<Seen, usize>
    ensures { HeadRead text.now result }
{
    let mut s = Seen {
        at: 0,
        declared: 0,
        marks: 0,
        again: None,
    };
    while let Ok(next) = expect(text, s.at, b"in") {
        s = seen_with(s, read_declaration(text, next)?);
    }
    Ok(s)
}
