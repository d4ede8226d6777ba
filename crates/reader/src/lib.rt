// Reads a recipe's text into a table.
#![tactic(auto)]

mod atoms;
mod expressions;
mod head;
mod put;
mod statements;
mod words;

ghost use Rattle.std.specs.Prelude.{false, ◌≡◌, ◌≤◌, length};
ghost use Rattle.language.specs.Limits.{most_text_bytes};
ghost use Rattle.language.specs.Answers.{said_of};
ghost use Rattle.language.specs.Readings.{Reads, end_of, part_at};
ghost use Rattle.spans.specs.Cut.{from};
ghost use Rattle.reader.specs.Heads.{HeadRead};
ghost use Rattle.reader.specs.Wholes.{Made};

use crate::expressions::{Arrays, MOST_HELD, MOST_TEXT, Place};
use crate::head::{Seen, read_head};
use crate::statements::read_block;
use language::{Flaw, Part, Recipe, Unread};
use leaves::copy::copy_words;
use rules::{MOST_ROWS, ROW_WORDS, TABLE_WORDS};
use spans::word_at;
use table::judge;

// Where no recipe goes on with the first word from a place on.
fn faulty(text: &[u8], place: usize) -> Unread
    ensures { result ≡ record { flaw = Flaw.FaultyWord; part = part_at text.now (from text.now place) } }
{
    Unread {
        flaw: Flaw::FaultyWord,
        part: Part::from(word_at(text, place)),
    }
}

// A refusal that hands back the empty part at the text's end.
fn at_end(text: &[u8], flaw: Flaw) -> Unread
    ensures { result ≡ record { flaw = flaw; part = end_of text.now } }
{
    Unread {
        flaw,
        part: Part {
            start: text.len(),
            size: 0,
        },
    }
}

// The answer to a text that is a recipe, from its declarations and its rows.
fn finish(
    text: &[u8],
    s: Seen,
    rows: &[u32; TABLE_WORDS],
    count: u32,
    table: &mut [u32],
) -> Result<Recipe, Unread>
    ensures { Made text.now s rows.now count table.old (said_of text.now result) table.new }
{
    if let Some(name) = s.again {
        return Err(Unread {
            flaw: Flaw::DeclaredAgain,
            part: Part::from(name),
        });
    }
    if count as usize > MOST_ROWS {
        return Err(at_end(text, Flaw::TooManyRows));
    }
    let words = count as usize * ROW_WORDS;
    if let Err(refusal) = judge(&rows[..words]) {
        return Err(at_end(text, Flaw::Refused(refusal)));
    }
    if table.len() < words {
        return Err(at_end(text, Flaw::TableTooShort));
    }
    copy_words(rows, words, table);
    Ok(Recipe {
        rows: count,
        marks: s.marks,
    })
}

// Reads the block of a text after its declarations, and answers.
fn read_body(text: &[u8], s: Seen, arrays: &mut Arrays, table: &mut [u32]) -> Result<Recipe, Unread>
    requires { (length text.now ≤ most_text_bytes) × HeadRead text.now (Ok s) }
    ensures { Reads false text.now table.old (record { said = said_of text.now result; table = table.new }) }
{
    let from = Place { at: s.at, count: 0 };
    let read = match read_block(text, from, arrays) {
        Ok(read) => read,
        Err(place) => return Err(faulty(text, place)),
    };
    let rest = word_at(text, read.at);
    if rest.start < rest.end {
        return Err(Unread {
            flaw: Flaw::FaultyWord,
            part: Part::from(rest),
        });
    }
    finish(text, s, &arrays.rows, read.count, table)
}

// Reads a recipe's text into a table: how many rows it has and its start marks; or a refusal, and then the table is as it was lent.
// 13.8: .. neither means settled.
pub fn read_text(text: &[u8], table: &mut [u32]) -> Result<Recipe, Unread>
    ensures { Reads false text.now table.old (record { said = said_of text.now result; table = table.new }) }
{
    if text.len() > MOST_TEXT {
        return Err(at_end(text, Flaw::TooLong));
    }
    let s = match read_head(text) {
        Ok(s) => s,
        Err(place) => return Err(faulty(text, place)),
    };
    let mut arrays = Arrays {
        rows: [0; TABLE_WORDS],
        held: [0; MOST_HELD],
    };
    read_body(text, s, &mut arrays, table)
}
