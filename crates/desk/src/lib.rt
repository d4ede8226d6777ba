// A job's bytes to its report's bytes: the job is read, run under the monitor, and its report written.
#![tactic(auto)]

ghost use Rattle.std.specs.Prelude.{◌≡◌, ◌*◌, ◌≤◌, length, replicate};
ghost use Rattle.rules.specs.Limits.{row_words, record_words, most_trace_words};
ghost use Rattle.rules.specs.Answers.{answer};
ghost use Rattle.job.specs.Limits.{most_room};
ghost use Rattle.report.specs.Reports.{report};
ghost use Rattle.report.specs.Written.{said_of_wrote, placed_in};
ghost use Rattle.desk.specs.Desk.{most_report, job_report};
ghost use Rattle.desk.specs.Read.{inputs_with};

use job::{Job, MOST_ROOM};
use report::{RECORD_BYTES, RECORD_WORDS, RUN_BYTES, Unwritten};
use rules::ROW_WORDS;

// The words of the most records that a job has room for, and the bytes of their report, the longest one.
const TRACE_WORDS: usize = RECORD_WORDS * MOST_ROOM as usize;

pub const REPORT_BYTES: usize = RUN_BYTES + RECORD_BYTES * MOST_ROOM as usize;

// Runs a job with this trace, and writes the report.
fn report_traced(job: &Job, trace: &mut [u32], out: &mut [u8]) -> Result<usize, Unwritten>
    requires { (row_words * job.now.rows ≤ length job.now.table) × (length trace.old ≤ most_trace_words) × (most_report ≤ length out.old) }
    ensures { (record { said = said_of_wrote result; out = out.new })
        ≡ placed_in most_report (report (answer (inputs_with job.now trace.old))) out.old }
{
    let table = &job.table[..ROW_WORDS * job.rows as usize];
    let answer = monitor::run(table, job.memory, job.marks, job.budget, trace);
    report::write_report(answer, trace, out)
}

// Runs a job with room for its records, and writes the report.
fn report_run(job: &Job, out: &mut [u8]) -> Result<usize, Unwritten>
    requires { (row_words * job.now.rows ≤ length job.now.table) × (job.now.room ≤ most_room) × (most_report ≤ length out.old) }
    ensures { (record { said = said_of_wrote result; out = out.new })
        ≡ placed_in most_report
        (report (answer (inputs_with job.now (replicate (record_words * job.now.room) 0)))) out.old }
{
    let mut trace = [0; TRACE_WORDS];
    let words = RECORD_WORDS * job.room as usize;
    report_traced(job, &mut trace[..words], out)
}

// Answers a job's bytes with the bytes of its report, at the front of a buffer with room for the longest report; a shorter
// buffer is kept as it is.
pub fn answer_job(text: &[u8], out: &mut [u8]) -> Result<usize, Unwritten>
    ensures { (record { said = said_of_wrote result; out = out.new })
        ≡ placed_in most_report (job_report text.now) out.old }
{
    if out.len() < REPORT_BYTES {
        return Err(Unwritten::TooShort);
    }
    match job::read_job(text) {
        Ok(job) => report_run(&job, out),
        Err(refusal) => report::write_refusal(u32::from(refusal.fault), refusal.line, out),
    }
}
