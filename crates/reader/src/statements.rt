// Statements and blocks: their readers call each other. Each answers how far it read, or, as the error, the place from which on the
// first word is at fault.
ghost use Rattle.std.specs.Prelude.{[], ◌∷◌};
ghost use Rattle.language.specs.Tokens as word;
ghost use Rattle.reader.specs.Machine.{statement};
ghost use Rattle.reader.specs.Steps.{statements, Asked, Stepped, BlockStepped};
ghost use Rattle.reader.specs.Statements.{Ended, After, OutputAfter};

use crate::atoms::variable_at;
use crate::expressions::{Arrays, Place, read_expression};
use crate::put::put_row;
use crate::words::{expect, is_word};
use rules::Kind;
use spans::start_at;

// Stays: a channel is only the word of an output's row here, and an enum would be turned into that number at once.
// 2.8: Channel 0 is the settled one, which the stations read, and channel 1 the provisional one.
const SETTLED: u32 = 0;

const PROVISIONAL: u32 = 1;

// Stays: text and place are two parameters, since the error is a place of the same text, and a cursor would have moved past it.
// Reads this word after what was read.
fn ended(text: &[u8], read: Place, key: &[u8]) -> Result<Place, usize>
    ensures { Ended text.now key.now read result }
{
    match expect(text, read.at, key) {
        Ok(at) => Ok(Place { at, ..read }),
        Err(_) => Err(read.at),
    }
}

// Reads an output after its first word.
fn read_output(text: &[u8], from: Place, channel: u32, arrays: &mut Arrays) -> Result<Place, usize>
    requires { Asked text.now from }
    ensures { OutputAfter channel text.now from arrays.old.rows result arrays.new.rows }
{
    let read = read_expression(text, from, arrays)?;
    put_row(
        &mut arrays.rows,
        read.count,
        Kind::Output,
        channel,
        read.count - 1,
        0,
    );
    Ok(Place {
        count: read.count + 1,
        ..read
    })
}

// Reads an assignment after its first word.
fn read_set(text: &[u8], from: Place, arrays: &mut Arrays) -> Result<Place, usize>
    requires { Asked text.now from }
    ensures { After word.set text.now from arrays.old.rows result arrays.new.rows }
{
    let start = start_at(text, from.at);
    let name = variable_at(text, start).ok_or(from.at)?;
    let equal = match expect(text, name.next, b"=") {
        Ok(at) => Place { at, ..from },
        Err(_) => return Err(name.next),
    };
    let read = read_expression(text, equal, arrays)?;
    put_row(
        &mut arrays.rows,
        read.count,
        Kind::Assign,
        name.value,
        read.count - 1,
        0,
    );
    Ok(Place {
        count: read.count + 1,
        ..read
    })
}

// Reads an if after its first word.
#[cycle(statements)]
fn read_if(text: &[u8], from: Place, arrays: &mut Arrays) -> Result<Place, usize>
    requires { Asked text.now from }
    ensures { After word.if text.now from arrays.old.rows result arrays.new.rows }
{
    let test = read_expression(text, from, arrays)?;
    let tested = ended(text, test, b"then")?;
    let choice = read_block(text, tested, arrays)?;
    let chosen = ended(text, choice, b"else")?;
    let other = read_block(text, chosen, arrays)?;
    let read = ended(text, other, b"end")?;
    put_row(
        &mut arrays.rows,
        read.count,
        Kind::If,
        tested.count - 1,
        chosen.count - 1,
        read.count - 1,
    );
    Ok(Place {
        count: read.count + 1,
        ..read
    })
}

// Reads a while after its first word.
#[cycle(statements)]
fn read_while(text: &[u8], from: Place, arrays: &mut Arrays) -> Result<Place, usize>
    requires { Asked text.now from }
    ensures { After word.while text.now from arrays.old.rows result arrays.new.rows }
{
    let test = read_expression(text, from, arrays)?;
    let tested = ended(text, test, b"do")?;
    let body = read_block(text, tested, arrays)?;
    let read = ended(text, body, b"end")?;
    put_row(
        &mut arrays.rows,
        read.count,
        Kind::While,
        tested.count - 1,
        read.count - 1,
        0,
    );
    Ok(Place {
        count: read.count + 1,
        ..read
    })
}

// Reads the statement at a place.
#[cycle(statements)]
pub fn read_statement(text: &[u8], from: Place, arrays: &mut Arrays) -> Result<Place, usize>
    requires { Asked text.now from }
    ensures { Stepped statements (statement ∷ []) text.now from arrays.old.rows result arrays.new.rows }
{
    let start = start_at(text, from.at);
    if text.len() <= start {
        return Err(from.at);
    }
    // Three keys begin with this letter: the first byte spares comparing most keys.
    if text[start] == b's' {
        if is_word(text, start, b"set") {
            return read_set(
                text,
                Place {
                    at: start + 3,
                    ..from
                },
                arrays,
            );
        }
        if is_word(text, start, b"skip") {
            put_row(&mut arrays.rows, from.count, Kind::Skip, 0, 0, 0);
            return Ok(Place {
                at: start + 4,
                count: from.count + 1,
            });
        }
        if is_word(text, start, b"settled") {
            return read_output(
                text,
                Place {
                    at: start + 7,
                    ..from
                },
                SETTLED,
                arrays,
            );
        }
        return Err(from.at);
    }
    if is_word(text, start, b"if") {
        return read_if(
            text,
            Place {
                at: start + 2,
                ..from
            },
            arrays,
        );
    }
    if is_word(text, start, b"while") {
        return read_while(
            text,
            Place {
                at: start + 5,
                ..from
            },
            arrays,
        );
    }
    if is_word(text, start, b"provisional") {
        return read_output(
            text,
            Place {
                at: start + 11,
                ..from
            },
            PROVISIONAL,
            arrays,
        );
    }
    Err(from.at)
}

// Reads the block at a place: a statement, and where a semicolon follows a block after it.
#[cycle(statements)]
pub fn read_block(text: &[u8], from: Place, arrays: &mut Arrays) -> Result<Place, usize>
    requires { Asked text.now from }
    ensures { BlockStepped text.now from arrays.old.rows result arrays.new.rows }
{
    let first = read_statement(text, from, arrays)?;
    match expect(text, first.at, b";") {
        Err(at) => Ok(Place { at, ..first }),
        Ok(at) => {
            let read = read_block(text, Place { at, ..first }, arrays)?;
            put_row(
                &mut arrays.rows,
                read.count,
                Kind::Sequence,
                first.count - 1,
                read.count - 1,
                0,
            );
            Ok(Place {
                count: read.count + 1,
                ..read
            })
        }
    }
}
