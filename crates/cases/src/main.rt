// Reads cases, one number a line, and writes what the proved functions answer, a line for each case, or for each row that it
// asks. The crate's `stdin` and `stdout` are written by the independent implementation (independent/regenerate), so the check
// holds the two to each other.
//
// A case is a code and what it asks; vectors/README.md says how each is answered. A 0, or a number that lacks its form, ends it
// all.
#![tactic(auto)]

mod input;

use input::Input;
use rules::{Advice, Answer, Checked, Ended, Marks, Memory, Refusal};
use std::io;

// Stays: text, words and trace lie in arrays of these lengths, since the project uses fixed memory and no heap.
const MOST_BYTES: usize = 262144;

const MOST_CASES: u32 = 4096;

const MOST_WORDS: usize = 4096;

const MOST_TRACE_WORDS: usize = 16400;

// A trace of more words is shown by a sum over all of them.
const MOST_SHOWN_WORDS: usize = 64;

// An odd factor: every place has a weight of its own in the sum, and no changed word is lost in it.
const SUM_FACTOR: u32 = 31;

// What a case asks.
#[derive(Clone, Copy)]
enum Case {
    Table(Question),
    Operator,
    Marks,
}

// What is asked about a table.
#[derive(Clone, Copy)]
enum Question {
    Judge,
    Run,
    Levels,
    Rows,
}

// A code that is no case's.
#[derive(Clone, Copy)]
struct UnknownCase;

impl TryFrom<u32> for Case {
    type Error = UnknownCase;

    fn try_from(code: u32) -> Result<Case, UnknownCase> {
        match code {
            1 => Ok(Case::Table(Question::Judge)),
            2 => Ok(Case::Table(Question::Run)),
            3 => Ok(Case::Operator),
            4 => Ok(Case::Table(Question::Levels)),
            5 => Ok(Case::Table(Question::Rows)),
            6 => Ok(Case::Marks),
            _ => Err(UnknownCase),
        }
    }
}

// Writes numbers, each with a space before it.
fn write_numbers(rt: &impl Print, values: &[u32]) -> io::Result<()> {
    for value in values {
        print!(rt; " {value}")?;
    }
    Ok(())
}

// Starts a line with how a run ended: whether it was refused, then a number and a row, and what it was stopped because of.
fn write_end_of_run(rt: &impl Print, ended: Ended) -> io::Result<()> {
    match ended {
        Ended::Done => print!(rt; "0 0 0 0"),
        Ended::Stopped { row, because } => print!(rt; "0 1 {row} {because}"),
        Ended::Spent => print!(rt; "0 2 0 0"),
        Ended::NoRoom(row) => print!(rt; "0 3 {row} 0"),
        Ended::Refused { number, row } => print!(rt; "1 {number} {row} 0"),
    }
}

// The whole of a short trace; of a long one the sum over all its words.
fn write_trace(rt: &impl Print, trace: &[u32]) -> io::Result<()> {
    if trace.len() <= MOST_SHOWN_WORDS {
        write_numbers(rt, trace)
    } else {
        print!(rt; " {}", sum_of(trace))
    }
}

// A sum over all words modulo 2^32, in which a word counts by its place.
fn sum_of(words: &[u32]) -> u32 {
    words.iter().fold(0u32, |sum, &word| {
        sum.wrapping_mul(SUM_FACTOR).wrapping_add(word)
    })
}

fn write_answer(rt: &impl Print, answer: Answer) -> io::Result<()> {
    write_end_of_run(rt, answer.ended)?;
    print!(rt; " {} {}", answer.steps, answer.marks)?;
    write_numbers(rt, &answer.memory.words)?;
    print!(rt; " {}", answer.records)
}

// A case of a table: word count, words, and what is asked further.
fn answer_table(rt: &impl Print, input: &mut Input<'_>, question: Question) -> io::Result<()> {
    let count = input.number() as usize;
    if MOST_WORDS < count {
        input.end();
        return Ok(());
    }
    let mut words = [0u32; MOST_WORDS];
    let table = &mut words[..count];
    input.fill(table);
    match question {
        Question::Judge => answer_judge(rt, table),
        Question::Run => answer_run(rt, input, table),
        Question::Levels => answer_levels(rt, input, table),
        Question::Rows => answer_rows(rt, input, table),
    }
}

fn answer_judge(rt: &impl Print, table: &[u32]) -> io::Result<()> {
    match table::judge(table) {
        Ok(()) => println!(rt; "0 0"),
        Err(refusal) => println!(rt; "{} {}", u32::from(refusal.fault), refusal.row),
    }
}

// A case of the level check, after its words: marks. It is answered by whether the check was refused, and by what; else whether it
// failed, and where; then the marks.
fn answer_levels(rt: &impl Print, input: &mut Input<'_>, table: &[u32]) -> io::Result<()> {
    let Advice { checked, marks } = levels::check(table, input.number());
    match checked {
        Checked::Pass => println!(rt; "0 0 0 {marks}"),
        Checked::Fail(row) => println!(rt; "0 1 {row} {marks}"),
        Checked::Refused(refusal) => {
            println!(rt; "1 {} {} {marks}", u32::from(refusal.fault), refusal.row)
        }
    }
}

// A case of rows, after its words: memory, marks, row count, rows. It is answered by a line for each row.
fn answer_rows(rt: &impl Print, input: &mut Input<'_>, table: &[u32]) -> io::Result<()> {
    let memory = input.memory();
    let marks = input.number();
    for _ in 0..input.number() {
        let row = input.number();
        write_row(rt, table, row)?;
        write_value(rt, table, row, memory, marks)?;
        write_assigned(rt, table, row)?;
        println!(rt)?;
    }
    Ok(())
}

// Whether the table has the row; then its kind and words.
fn write_row(rt: &impl Print, table: &[u32], row: u32) -> io::Result<()> {
    let there = u32::from(rows::has_row(table, row));
    let here = rows::row_at(table, row);
    let kind = u32::from(here.kind);
    print!(rt; "{there} {kind} {} {} {}", here.p, here.q, here.r)
}

// A refusal in the middle of a line, after a 1.
fn write_refusal(rt: &impl Print, refusal: Refusal) -> io::Result<()> {
    print!(rt; " 1 {} {}", u32::from(refusal.fault), refusal.row)
}

// Whether the table was refused, and by what; else the value and level of the row.
fn write_value(
    rt: &impl Print,
    table: &[u32],
    row: u32,
    memory: Memory,
    marks: Marks,
) -> io::Result<()> {
    match expression::values::value_at(table, row, memory, marks) {
        Ok(found) => print!(rt; " 0 {} {}", found.value, found.level),
        Err(refusal) => write_refusal(rt, refusal),
    }
}

// Whether the table was refused, and by what; else the variables that the row may assign.
fn write_assigned(rt: &impl Print, table: &[u32], row: u32) -> io::Result<()> {
    match expression::assigned::assigned_at(table, row) {
        Ok(variables) => print!(rt; " 0 {variables}"),
        Err(refusal) => write_refusal(rt, refusal),
    }
}

// A case of the run, after its words: memory, marks, budget, trace word count, trace words. It is answered by what the run answers and
// leaves in the trace.
fn answer_run(rt: &impl Print, input: &mut Input<'_>, table: &[u32]) -> io::Result<()> {
    // Made before anything is read: further down it would be cleared twice.
    let mut words = [0u32; MOST_TRACE_WORDS];
    let memory = input.memory();
    let marks = input.number();
    let budget = input.number();
    let count = input.number() as usize;
    if MOST_TRACE_WORDS < count {
        input.end();
        return Ok(());
    }
    let trace = &mut words[..count];
    input.fill(trace);
    write_answer(rt, monitor::run(table, memory, marks, budget, trace))?;
    write_trace(rt, trace)?;
    println!(rt)
}

// A case of an operator: operator, left, right.
fn answer_operator(rt: &impl Print, input: &mut Input<'_>) -> io::Result<()> {
    let operator = input.number();
    let left = input.number();
    let right = input.number();
    println!(rt; "{}", leaves::operators::operated(operator, left, right))
}

// A case of mark sets: marks, variable, other marks. It is answered by the variable alone; whether it is in the set; the set with and
// without it; both sets.
fn answer_marks(rt: &impl Print, input: &mut Input<'_>) -> io::Result<()> {
    let marks = input.number();
    let variable = input.number();
    let others = input.number();
    let only = leaves::marks::only_mark(variable);
    let has = u32::from(leaves::marks::has_mark(marks, variable));
    let with = leaves::marks::mark_as(marks, variable, true);
    let without = leaves::marks::mark_as(marks, variable, false);
    let joined = leaves::marks::joined(marks, others);
    println!(rt; "{only} {has} {with} {without} {joined}")
}

// Answers the case that comes next.
fn answer_one(rt: &impl Print, input: &mut Input<'_>) -> io::Result<()> {
    match Case::try_from(input.number()) {
        Ok(Case::Table(question)) => answer_table(rt, input, question),
        Ok(Case::Operator) => answer_operator(rt, input),
        Ok(Case::Marks) => answer_marks(rt, input),
        Err(UnknownCase) => {
            input.end();
            Ok(())
        }
    }
}

// Answers the cases up to the end of the input, or to one that lacks its form.
fn answer_all(rt: &impl Print, input: &mut Input<'_>) -> io::Result<()> {
    for _ in 0..MOST_CASES {
        if input.is_at_end() {
            break;
        }
        answer_one(rt, input)?;
    }
    Ok(())
}

fn main(rt: HostRuntime) -> io::Result<()> {
    let mut text = [0u8; MOST_BYTES];
    let count = streams::read_all(&mut rt.stdin(), &mut text)?;
    answer_all(&rt, &mut Input::new(&text[..count]))
}
