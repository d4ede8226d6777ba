// Reads a job from standard input and writes its report to standard output. Where a call of the system fails, a line on
// standard error says so; then no report is begun, or no more of it is written.
#![tactic(auto)]

use std::io;
use std::io::Write;
use streams::Uninterrupted;

// One byte more than a job may have, so that a longer one is seen to be too long.
// Stays: job, report and reason lie in arrays, since the project uses fixed memory and no heap.
const TEXT_BYTES: usize = job::MOST_BYTES + 1;

// Room for the reason of a failed call.
const REASON_BYTES: usize = 128;

// Says on standard error what failed and why.
fn tell(rt: &impl Eprint, what: &str, why: io::Error) {
    let mut said = [0u8; REASON_BYTES];
    let mut room = &mut said[..];
    // what finds no room is left off; and where standard error takes nothing, there is nowhere left to say so
    let _ = write!(room, "{why}");
    let _ = eprintln!(rt; "{what}: {}", reason_in(&said));
}

// The system's words for an error, which stand in the buffer as std writes them: the error's number follows them.
fn reason_in(said: &[u8]) -> &str {
    let Ok(text) = str::from_utf8(said) else {
        return "";
    };
    match text.split_once(" (os error ") {
        Some((reason, _)) => reason,
        None => text.trim_end_matches('\0'),
    }
}

// Answers a job's bytes with its report.
fn answer(rt: &HostRuntime, text: &[u8]) {
    let mut out = [0u8; desk::REPORT_BYTES];
    let wrote = desk::answer_job(text, &mut out);
    // such a buffer has room for every report
    let Ok(count) = wrote else {
        return;
    };
    let mut to = Uninterrupted(rt.stdout());
    if let Err(why) = streams::write_all(&mut to, &out[..count]) {
        tell(rt, "watch: cannot write the report", why);
    }
}

fn main(rt: HostRuntime) {
    let mut text = [0u8; TEXT_BYTES];
    let mut from = Uninterrupted(rt.stdin());
    match streams::read_all(&mut from, &mut text) {
        Ok(count) => answer(&rt, &text[..count]),
        Err(why) => tell(&rt, "watch: cannot read the job", why),
    }
}
