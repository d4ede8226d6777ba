// The functions for C and Rust: numbers and slices only. What they answer is laid over the first words of a buffer that the
// caller lends; a buffer that is too short is refused with a number of its own, and then nothing has changed. `embed_c` exports
// them.
#![tactic(auto)]

ghost use Rattle.std.specs.Prelude.{◌≡◌, ◌%◌, ◌^◌, Err};
ghost use Rattle.rules.specs.Limits.{word_bits};
ghost use Rattle.rules.specs.Answers.{inputs, judged_of, said_of_judge, said_of_run, because_of, said_of_check};
ghost use Rattle.language.specs.Answers.{flaw_number, flaw_row, said_of};
ghost use Rattle.embed.specs.Calls.{numbers_of, read_words, judge_call, check_call, run_call, ReadCalls};

use language::{Flaw, Recipe, Unread};
use reader::read_text;
use rules::{Checked, Ended, Marks, Memory, Refusal, VARIABLES, WORD_VALUES};
use spans::handed_back;

// What a call returns: that it has answered, or which buffer was too short.
// Stays: numbers, since the C interface returns them (`embed/buzorinde.h`), and each is returned at once.
const ANSWERED: u32 = 0;

const ANSWER_TOO_SHORT: u32 = 1;

const MEMORY_TOO_SHORT: u32 = 2;

// How many words an answer takes.
const JUDGE_WORDS: usize = 3;

const CHECK_WORDS: usize = 4;

const RUN_WORDS: usize = 7;

const READ_WORDS: usize = 7;

// The first three words of every answer: the refusal's number or 0; the verdict; the place, or the refusal's row.
#[derive(Clone, Copy)]
pub struct Numbers {
    pub refusal: u32,
    pub verdict: u32,
    pub row: u32,
}

impl Numbers {
    // The numbers of a verdict and its place.
    fn verdict(verdict: u32, row: u32) -> Numbers
        ensures { result ≡ record { refusal = 0; verdict = verdict; row = row } }
    {
        Numbers {
            refusal: 0,
            verdict,
            row,
        }
    }
}

impl From<Refusal> for Numbers {
    ghost from_gives = { λ refusal numbers. numbers ≡ numbers_of (said_of_judge (judged_of (Err refusal))) };

    fn from(refusal: Refusal) -> Numbers {
        Numbers {
            refusal: u32::from(refusal.fault),
            verdict: 0,
            row: refusal.row,
        }
    }
}

impl From<Result<(), Refusal>> for Numbers {
    ghost from_gives = { λ judged numbers. numbers ≡ numbers_of (said_of_judge (judged_of judged)) };

    fn from(judged: Result<(), Refusal>) -> Numbers {
        match judged {
            Ok(()) => Numbers::verdict(0, 0),
            Err(refusal) => refusal.into(),
        }
    }
}

impl From<Ended> for Numbers {
    ghost from_gives = { λ ended numbers. numbers ≡ numbers_of (said_of_run ended) };

    fn from(ended: Ended) -> Numbers {
        match ended {
            Ended::Done => Numbers::verdict(0, 0),
            Ended::Stopped { row, .. } => Numbers::verdict(1, row),
            Ended::Spent => Numbers::verdict(2, 0),
            Ended::NoRoom(row) => Numbers::verdict(3, row),
            Ended::Refused { number, row } => Numbers {
                refusal: number,
                verdict: 0,
                row,
            },
        }
    }
}

// A check that fails has verdict 1.
impl From<Checked> for Numbers {
    ghost from_gives = { λ checked numbers. numbers ≡ numbers_of (said_of_check checked) };

    fn from(checked: Checked) -> Numbers {
        match checked {
            Checked::Pass => Numbers::verdict(0, 0),
            Checked::Fail(row) => Numbers::verdict(1, row),
            Checked::Refused(refusal) => refusal.into(),
        }
    }
}

// Only a table's own refusal has a row.
impl From<Flaw> for Numbers {
    ghost from_gives = { λ flaw numbers. numbers ≡ record { refusal = flaw_number flaw; verdict = 0; row = flaw_row flaw } };

    fn from(flaw: Flaw) -> Numbers {
        match flaw {
            Flaw::Refused(refusal) => refusal.into(),
            _ => Numbers {
                refusal: u32::from(flaw),
                verdict: 0,
                row: 0,
            },
        }
    }
}

// What a run was stopped because of, as a set.
fn because_of(ended: Ended) -> Marks
    ensures { result ≡ because_of ended }
{
    match ended {
        Ended::Stopped { because, .. } => because,
        _ => 0,
    }
}

// A number of bytes as a word.
// Stays: std has no conversion that takes a number modulo 2^32, as `read_words` has it.
fn word_of(bytes: usize) -> u32
    ensures { result ≡ bytes % 2 ^ word_bits }
{
    (bytes as u64 % WORD_VALUES) as u32
}

// The words of what a text reads as.
fn reading_words(text: &[u8], read: Result<Recipe, Unread>) -> [u32; READ_WORDS]
    ensures { result ≡ read_words text.now (said_of text.now read) }
{
    match read {
        Ok(recipe) => [0, 0, 0, recipe.rows, word_of(text.len()), 0, recipe.marks],
        Err(unread) => {
            let said = Numbers::from(unread.flaw);
            [
                said.refusal,
                said.verdict,
                said.row,
                0,
                word_of(unread.part.start),
                word_of(handed_back(text, unread.part).len()),
                0,
            ]
        }
    }
}

// The judge. The answer's three words are the refusal's number or 0, 0, and the refusal's row.
pub fn buzorinde_judge(table: &[u32], answer: &mut [u32]) -> u32
    ensures { judge_call table.now answer.old
        ≡ record { status = result; answer = answer.new } }
{
    let Some(first) = answer.first_chunk_mut::<JUDGE_WORDS>() else {
        return ANSWER_TOO_SHORT;
    };
    let said = Numbers::from(table::judge(table));
    *first = [said.refusal, said.verdict, said.row];
    ANSWERED
}

// The level check. The answer's four words are the refusal's number or 0, 1 for a check that fails and else 0, the lowest
// failing row or the refusal's row, and the final marks.
pub fn buzorinde_check(table: &[u32], marks: Marks, answer: &mut [u32]) -> u32
    ensures { check_call table.now marks answer.old
        ≡ record { status = result; answer = answer.new } }
{
    let Some(first) = answer.first_chunk_mut::<CHECK_WORDS>() else {
        return ANSWER_TOO_SHORT;
    };
    let advice = levels::check(table, marks);
    let said = Numbers::from(advice.checked);
    *first = [said.refusal, said.verdict, said.row, advice.marks];
    ANSWERED
}

// The run under the monitor. Memory is lent: its first 32 words are those of the variables, before and after. The answer's
// seven words are the refusal's number or 0, the verdict, the place or the refusal's row, steps, records, marks, and what the run was
// stopped because of.
pub fn buzorinde_run(
    table: &[u32],
    memory: &mut [u32],
    marks: Marks,
    budget: u32,
    trace: &mut [u32],
    answer: &mut [u32],
) -> u32
    ensures { run_call (inputs table.now memory.old marks budget trace.old) answer.old
        ≡ record { status = result; memory = memory.new; trace = trace.new; answer = answer.new } }
{
    let Some(first) = answer.first_chunk_mut::<RUN_WORDS>() else {
        return ANSWER_TOO_SHORT;
    };
    let Some(words) = memory.first_chunk_mut::<VARIABLES>() else {
        return MEMORY_TOO_SHORT;
    };
    let given = *words;
    let reached = monitor::run(table, Memory { words: given }, marks, budget, trace);
    let left = reached.memory.words;
    *words = left;
    let said = Numbers::from(reached.ended);
    *first = [
        said.refusal,
        said.verdict,
        said.row,
        reached.steps,
        reached.records,
        reached.marks,
        because_of(reached.ended),
    ];
    ANSWERED
}

// Reads a recipe's text into a table. The answer's seven words are the refusal's number or 0, 0, the refusal's row, how many rows
// the table begins with, start and length of the part of the text that is handed back, and the start marks.
pub fn buzorinde_read(text: &[u8], table: &mut [u32], answer: &mut [u32]) -> u32
    ensures { ReadCalls text.now table.old answer.old
        (record { status = result; table = table.new; answer = answer.new }) }
{
    let Some(first) = answer.first_chunk_mut::<READ_WORDS>() else {
        return ANSWER_TOO_SHORT;
    };
    let read = read_text(text, table);
    *first = reading_words(text, read);
    ANSWERED
}
