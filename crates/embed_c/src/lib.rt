// The static library for C and Rust: the functions of `embed` under their names, each with the clauses that it has there. C passes
// a slice as a pointer and how many words or bytes there are (embed/buzorinde.h).
#![tactic(auto)]

ghost use Rattle.std.specs.Prelude.{◌≡◌};
ghost use Rattle.rules.specs.Answers.{inputs};
ghost use Rattle.embed.specs.Calls.{judge_call, check_call, run_call, ReadCalls};

use rules::Marks;

// The judge.
#[unsafe(no_mangle)]
pub extern "C" fn buzorinde_judge(table: &[u32], answer: &mut [u32]) -> u32
    ensures { judge_call table.now answer.old
        ≡ record { status = result; answer = answer.new } }
{
    embed::buzorinde_judge(table, answer)
}

// The level check.
#[unsafe(no_mangle)]
pub extern "C" fn buzorinde_check(table: &[u32], marks: Marks, answer: &mut [u32]) -> u32
    ensures { check_call table.now marks answer.old
        ≡ record { status = result; answer = answer.new } }
{
    embed::buzorinde_check(table, marks, answer)
}

// The run under the monitor.
#[unsafe(no_mangle)]
pub extern "C" fn buzorinde_run(
    table: &[u32],
    memory: &mut [u32],
    marks: Marks,
    budget: u32,
    trace: &mut [u32],
    answer: &mut [u32],
) -> u32
    ensures { run_call (inputs table.now memory.old marks budget trace.old) answer.old
        ≡ record { status = result; memory = memory.new; trace = trace.new; answer = answer.new } }
{
    embed::buzorinde_run(table, memory, marks, budget, trace, answer)
}

// Reads a recipe's text into a table.
#[unsafe(no_mangle)]
pub extern "C" fn buzorinde_read(text: &[u8], table: &mut [u32], answer: &mut [u32]) -> u32
    ensures { ReadCalls text.now table.old answer.old
        (record { status = result; table = table.new; answer = answer.new }) }
{
    embed::buzorinde_read(text, table, answer)
}
