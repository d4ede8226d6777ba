// The run under the monitor: prepare, go on, finish.
#![tactic(auto)]

ghost use Rattle.std.specs.Prelude.{◌≡◌, ◌^◌, ◌≤◌, length};
ghost use Rattle.rules.specs.Judged.{Judged};
ghost use Rattle.rules.specs.Limits.{word_bits};
ghost use Rattle.rules.specs.Judging.{judge};
ghost use Rattle.rules.specs.Rows.{rows_of};
ghost use Rattle.rules.specs.Answers.{inputs, answered, Tells, RunAnswers};
ghost use Rattle.step.specs.Denoted.{arrays_of, held_of, Holds};
ghost use Rattle.monitor.specs.Going.{reached_by, turned_away, Went};

use rules::{Answer, Ended, Fault, Marks, Memory, ROW_WORDS, Refusal};
use step::Machine;

// 4.6: Refusal 6, at 0: the trace that is lent has more than 16,384 words.
const MOST_TRACE_WORDS: usize = 16384;

// How a run ended, and after how many steps.
#[derive(Drop)]
pub struct Finish {
    pub ended: Ended,
    pub steps: u32,
}

// Goes on with the run until it ends.
fn go_on(table: &[u32], machine: &mut Machine, trace: &mut [u32], budget: u32) -> Finish
    requires { Holds (rows_of table.now) (arrays_of machine.old trace.old) (held_of machine.old) }
    ensures { Went (rows_of table.now)
        (arrays_of machine.old trace.old) (held_of machine.old)
        budget
        machine.new.pending.items machine.new.pile.items trace.new
        (reached_by result machine.new) }
{
    for steps in 0..budget {
        if machine.is_done() {
            return Finish {
                ended: Ended::Done,
                steps,
            };
        }
        if let Err(halt) = machine.step(table, trace) {
            return Finish {
                ended: halt.into(),
                steps,
            };
        }
    }
    let ended = if machine.is_done() {
        Ended::Done
    } else {
        Ended::Spent
    };
    Finish {
        ended,
        steps: budget,
    }
}

// What a refused run answers: 0 steps and 0 records, memory and marks as given.
fn turned_away(refusal: Refusal, memory: Memory, marks: Marks) -> Answer
    ensures { result ≡ turned_away refusal memory marks }
{
    Answer {
        ended: Ended::Refused {
            number: u32::from(refusal.fault),
            row: refusal.row,
        },
        steps: 0,
        records: 0,
        memory,
        marks,
    }
}

// Runs the recipe of an accepted table with a trace whose records a word can count: the arrays are prepared, the run goes on
// until it ends, and the answer is put together.
fn run_accepted(
    table: &[u32],
    memory: Memory,
    marks: Marks,
    budget: u32,
    trace: &mut [u32],
) -> Answer
    requires { (judge table.now ≡ Judged.Accepted) × (length trace.old ≤ 2 ^ word_bits) }
    ensures { Tells (answered Judged.Accepted (inputs table.now memory.words marks budget trace.old))
        trace.old result
        trace.new }
{
    let last = table.len() / ROW_WORDS - 1;
    let mut machine = Machine::new(memory, marks, last as u32);
    let finish = go_on(table, &mut machine, trace, budget);
    let words = machine.words;
    Answer {
        ended: finish.ended,
        steps: finish.steps,
        records: machine.records as u32,
        memory: Memory { words },
        marks: machine.marks,
    }
}

// Runs a recipe under the monitor, within a budget of steps and the room that the lent trace has: how it ended, with the
// steps, records, memory and marks that it reached. A bad table or an oversized trace is refused, and then nothing has changed.
pub fn run(table: &[u32], memory: Memory, marks: Marks, budget: u32, trace: &mut [u32]) -> Answer
    ensures { RunAnswers (inputs table.now memory.words marks budget trace.old) result
        trace.new }
{
    if let Err(refusal) = table::judge(table) {
        return turned_away(refusal, memory, marks);
    }
    if MOST_TRACE_WORDS < trace.len() {
        let refusal = Refusal {
            fault: Fault::LongTrace,
            row: 0,
        };
        return turned_away(refusal, memory, marks);
    }
    run_accepted(table, memory, marks, budget, trace)
}
