// Reads a job. Every function here takes the whole text and a place in it.
// Stays: text and place are two parameters: a cursor would have moved at an `Err`, and each clause would have to say where it stands.
#![tactic(auto)]

ghost use Rattle.std.specs.Prelude.{◌≡◌, [], ◌∷◌, ◌+◌, ◌*◌, ◌≤◌, ◌<◌, length, take, drop, IfOk, MatchResult};
ghost use Rattle.rules.specs.Limits.{width, row_words, most_rows, table_words};
ghost use Rattle.lines.specs.Limits.{most_word};
ghost use Rattle.lines.specs.Numbers.{number, no_number};
ghost use Rattle.lines.specs.Lines.{line_end, after, absent, after_key, field, line_of, lines_of};
ghost use Rattle.job.specs.Jobs.{head, first_input, number_lines, row_line, read_table, read_job};
ghost use Rattle.job.specs.Faults.{fault_number};
ghost use Rattle.job.specs.Read.{key_said, line_said, row_said, NumberRead, RowRead, numbers_of, head_said, inputs_said, LinesRead, filled, said_of_reading, reading};
ghost use Rattle.job.specs.declared.Fault.TheVariants.{LacksForm, OutOfRange};

use numbers::{MOST_WORD, Parsed, number_at};
use rules::{MOST_ROWS, Marks, Memory, ROW_WORDS, TABLE_WORDS, VARIABLES};

// The numbers of a job, as `specs/Limits` has them.
pub const MOST_BYTES: usize = 32768;

pub const MOST_ROOM: u64 = 8192;

// The line of the first input.
const FIRST_INPUT: u32 = 5;

// Why a job is refused: a line lacks its form, a number is out of range, or the job is too long.
#[derive(Clone, Copy, PartialEq)]
pub enum Fault {
    LacksForm,
    OutOfRange,
    TooLong,
}

// The rules' number of a fault: refusals 7 to 9.
impl From<Fault> for u32 {
    ghost from_gives = { λ fault number. number ≡ fault_number fault };

    fn from(fault: Fault) -> u32 {
        match fault {
            Fault::LacksForm => 7,
            Fault::OutOfRange => 8,
            Fault::TooLong => 9,
        }
    }
}

// A job's refusal, and the line at which it is.
#[derive(Clone, Copy)]
pub struct Refusal {
    pub fault: Fault,
    pub line: u32,
}

// What a job says. The values of its inputs are the first of the memory's words, the rows' words the first of the table's; all
// others are 0.
// Stays: rows and inputs are counted beside arrays of the most words, since no heap is used.
#[derive(Drop)]
pub struct Job {
    pub budget: u32,
    pub room: u32,
    pub marks: Marks,
    pub rows: u32,
    pub memory: Memory,
    pub table: [u32; TABLE_WORDS],
}

// The numbers of a job's head.
#[derive(Clone, Copy)]
struct Head {
    budget: u32,
    room: u32,
    marks: Marks,
    inputs: u32,
}

// The place after a key that stands at a place.
// Stays: that a key is not empty and a bound fits a word is asked of literals alone; a type for each would be longer than the clauses.
fn after_key(text: &[u8], at: usize, key: &[u8]) -> Option<usize>
    requires { 0 < length key.now }
    ensures { key_said text.now result ≡ after_key key.now (drop at text.now) }
{
    text.get(at..)?.starts_with(key).then_some(at + key.len())
}

// The number after a key that stands at a place.
// Always inlined, since a row's line asks for it four times, and a key that is known there is compared at once.
#[inline(always)]
fn read_field(text: &[u8], at: usize, key: &[u8]) -> Result<Parsed<u64>, Fault>
    requires { 0 < length key.now }
    ensures { MatchResult result
        (λ read. number read.value (drop read.next text.now) ≡ field key.now (drop at text.now))
        (λ fault. (fault ≡ LacksForm) × (no_number ≡ field key.now (drop at text.now))) }
{
    let after = after_key(text, at, key).ok_or(Fault::LacksForm)?;
    number_at(text, after).ok_or(Fault::LacksForm)
}

// The place after the LF that stands at a place.
fn end_line(text: &[u8], at: usize) -> Result<usize, Fault>
    ensures { MatchResult result
        (λ next. after (drop next text.now) ≡ after_key line_end (drop at text.now))
        (λ fault. (fault ≡ LacksForm) × (absent ≡ after_key line_end (drop at text.now))) }
{
    after_key(text, at, b"\n").ok_or(Fault::LacksForm)
}

// A number of a line, which is to be at most `most`.
fn in_range(value: u64, most: u64) -> Result<u32, Fault>
    requires { most ≤ most_word }
    ensures { MatchResult result
        (λ word. (word ≡ value) × (value ≤ most))
        (λ fault. (fault ≡ OutOfRange) × (most < value)) }
{
    if value <= most {
        Ok(value as u32)
    } else {
        Err(Fault::OutOfRange)
    }
}

// A line of one number, which is at most `most`.
fn number_line(text: &[u8], at: usize, key: &[u8], most: u64) -> Result<Parsed<u32>, Fault>
    requires { (0 < length key.now) × (most ≤ most_word) }
    ensures { line_said text.now result ≡ line_of (key.now ∷ []) most (drop at text.now) }
{
    let read = read_field(text, at, key)?;
    let next = end_line(text, read.next)?;
    let value = in_range(read.value, most)?;
    Ok(Parsed { value, next })
}

// The words of a row's line.
// Stays: one function over N keys needs an index and a first array of zeros, where each number here is a `?` with a name.
fn row_line(text: &[u8], at: usize) -> Result<Parsed<[u32; ROW_WORDS]>, Fault>
    ensures { row_said text.now result ≡ row_line (drop at text.now) }
{
    let kind = read_field(text, at, b"row=")?;
    let p = read_field(text, kind.next, b",")?;
    let q = read_field(text, p.next, b",")?;
    let r = read_field(text, q.next, b",")?;
    let next = end_line(text, r.next)?;
    let value = [
        in_range(kind.value, MOST_WORD)?,
        in_range(p.value, MOST_WORD)?,
        in_range(q.value, MOST_WORD)?,
        in_range(r.value, MOST_WORD)?,
    ];
    Ok(Parsed { value, next })
}

// The number of a line of one number; a refusal says which line it is.
// Stays: beside `read_row`, since the clauses take a number and four words apart by definitions of their own.
fn read_number(
    text: &[u8],
    at: usize,
    line: u32,
    key: &[u8],
    most: u64,
) -> Result<Parsed<u32>, Refusal>
    requires { (0 < length key.now) × (most ≤ most_word) }
    ensures { NumberRead text.now line result (line_of (key.now ∷ []) most (drop at text.now)) }
{
    number_line(text, at, key, most).map_err(|fault| Refusal { fault, line })
}

// The words of a row's line; a refusal says which line it is.
fn read_row(text: &[u8], at: usize, line: u32) -> Result<Parsed<[u32; ROW_WORDS]>, Refusal>
    ensures { RowRead text.now line result (row_line (drop at text.now)) }
{
    row_line(text, at).map_err(|fault| Refusal { fault, line })
}

// The lines of the head.
fn read_head(text: &[u8]) -> Result<Parsed<Head>, Refusal>
    ensures { head_said text.now result ≡ number_lines (length head) 1 [] text.now }
{
    let budget = read_number(text, 0, 1, b"budget=", MOST_WORD)?;
    let room = read_number(text, budget.next, 2, b"room=", MOST_ROOM)?;
    let marks = read_number(text, room.next, 3, b"levels=", MOST_WORD)?;
    let inputs = read_number(text, marks.next, 4, b"inputs=", VARIABLES as u64)?;
    let value = Head {
        budget: budget.value,
        room: room.value,
        marks: marks.value,
        inputs: inputs.value,
    };
    Ok(Parsed {
        value,
        next: inputs.next,
    })
}

// The lines of so many inputs, whose values become the first words of the memory.
fn read_inputs(text: &[u8], from: usize, count: u32) -> Result<Parsed<Memory>, Refusal>
    requires { count ≤ width }
    ensures { (inputs_said text.now count result ≡ number_lines count first_input [] (drop from text.now))
        × IfOk result (λ read. read.value.words ≡ filled width (take count read.value.words)) }
{
    let mut memory = Memory {
        words: [0; VARIABLES],
    };
    let mut at = from;
    for i in 0..count {
        let read = read_number(text, at, FIRST_INPUT + i, b"in=", MOST_WORD)?;
        memory.words[i as usize] = read.value;
        at = read.next;
    }
    Ok(Parsed {
        value: memory,
        next: at,
    })
}

// Reads so many rows' lines, from a line on, into the table's words.
fn read_rows(
    text: &[u8],
    from: usize,
    line: u32,
    count: u32,
    table: &mut [u32; TABLE_WORDS],
) -> Result<usize, Refusal>
    requires { (count ≤ most_rows) × (line ≤ first_input + 1 + width) }
    ensures { LinesRead text.now (row_words * count) table.old
        table.new result (lines_of row_line count line [] (drop from text.now)) }
{
    let mut at = from;
    for i in 0..count {
        let row = read_row(text, at, line + i)?;
        let start = ROW_WORDS * i as usize;
        table[start..start + ROW_WORDS].copy_from_slice(&row.value);
        at = row.next;
    }
    Ok(at)
}

// The job whose table stands at a place, after its head and the inputs.
fn read_table(text: &[u8], at: usize, head: Head, memory: Memory) -> Result<Job, Refusal>
    requires { (head.inputs ≤ width) × (memory.words ≡ filled width (take head.inputs memory.words)) }
    ensures { said_of_reading result
        ≡ reading (read_table (first_input + head.inputs) (numbers_of head) (take head.inputs memory.words) (drop at text.now)) }
{
    let line = FIRST_INPUT + head.inputs;
    let rows = read_number(text, at, line, b"rows=", MOST_ROWS as u64)?;
    let mut table = [0; TABLE_WORDS];
    let end = read_rows(text, rows.next, line + 1, rows.value, &mut table)?;
    if end < text.len() {
        return Err(Refusal {
            fault: Fault::LacksForm,
            line: line + 1 + rows.value,
        });
    }
    Ok(Job {
        budget: head.budget,
        room: head.room,
        marks: head.marks,
        rows: rows.value,
        memory,
        table,
    })
}

// The job that a text is, or its refusal.
pub fn read_job(text: &[u8]) -> Result<Job, Refusal>
    ensures { said_of_reading result ≡ reading (read_job text.now) }
{
    if MOST_BYTES < text.len() {
        return Err(Refusal {
            fault: Fault::TooLong,
            line: 0,
        });
    }
    let head = read_head(text)?;
    let memory = read_inputs(text, head.next, head.value.inputs)?;
    read_table(text, memory.next, head.value, memory.value)
}
