// Writes a report.
#![tactic(auto)]

ghost use Rattle.std.specs.Prelude.{◌≡◌, ◌+◌, ◌-◌, ◌*◌, ◌≤◌, ◌<◌, length, drop, replicate};
ghost use Rattle.rules.specs.Limits.{width, record_words};
ghost use Rattle.lines.specs.Limits.{most_digits};
ghost use Rattle.lines.specs.Numbers.{decimal};
ghost use Rattle.report.specs.Reports.{run_text};
ghost use Rattle.report.specs.Written.{Placed, most_run, said_of_wrote, refusal_written, whole_of, run_written, report_written};

use rules::{Answer, Ended, Marks, VARIABLES};

// The most bytes of a refusal's report; of a run's report but for its records; and of a record.
const REFUSAL_BYTES: usize = 33;

pub const RUN_BYTES: usize = 483;

pub const RECORD_BYTES: usize = 26;

// The words of a record.
pub const RECORD_WORDS: usize = 2;

// Why a report is not written: the buffer is too short for the longest such report; or the trace lacks records that the answer
// counts.
#[derive(Clone, Copy, PartialEq)]
pub enum Unwritten {
    TooShort,
    Lacking,
}

// A verdict's number, its place, and the variables because of which the run was stopped.
#[derive(Clone, Copy)]
struct Verdict {
    number: u32,
    place: u32,
    because: Marks,
}

// Puts the digits of a number at a place, and answers the place after them. It calls itself, so it isn't inlined: a writer that was
// lent to it would stay in memory, and each byte that is put would load the place from there and store it.
// Stays: no clause of std's formatting says that writing a number succeeds, nor which bytes it leaves in a lent slice.
fn put_digits(out: &mut [u8], at: usize, n: u32) -> usize
    requires { at + most_digits ≤ length out.old }
    ensures { Placed out.old at (decimal n) most_digits result out.new }
{
    if n < 10 {
        out[at] = b'0' + n as u8;
        return at + 1;
    }
    let last = put_digits(out, at, n / 10);
    out[last] = b'0' + (n % 10) as u8;
    last + 1
}

// A buffer that a report is put into, and the place after what has been put.
#[derive(Drop)]
struct Writer<'a> {
    out: &'a mut [u8],
    at: usize,
}

impl Writer<'_> {
    ghost use Rattle.std.specs.Prelude.{◌≡◌, ◌+◌, ◌-◌, ◌*◌, ◌≤◌, length, drop, replicate};
    ghost use Rattle.rules.specs.Limits.{width, record_words};
    ghost use Rattle.lines.specs.Limits.{most_digits};
    ghost use Rattle.lines.specs.Numbers.{decimal};
    ghost use Rattle.lines.specs.Lines.{comma, field_text, fields_text, one_text};
    ghost use Rattle.report.specs.Reports.{head_text, memory_text, record_text, records_text, run_text};
    ghost use Rattle.report.specs.Written.{most_field, most_line, most_head, most_memory, most_record, most_run, records_of, whole_of};
    ghost use Rattle.report.specs.Putting.{HasRoom, Puts};

    // Puts some bytes.
    fn bytes(&mut self, bytes: &[u8])
        requires { HasRoom self.old (length bytes.now) }
        ensures { Puts self.old self.new bytes.now (length bytes.now) }
    {
        let end = self.at + bytes.len();
        self.out[self.at..end].copy_from_slice(bytes);
        self.at = end;
    }

    // Puts the digits of a number.
    fn number(&mut self, n: u32)
        requires { HasRoom self.old most_digits }
        ensures { Puts self.old self.new (decimal n) most_digits }
    {
        self.at = put_digits(self.out, self.at, n);
    }

    // Puts a key and a number after it.
    fn field(&mut self, key: &[u8], n: u32)
        requires { HasRoom self.old (most_field key.now) }
        ensures { Puts self.old self.new (field_text key.now n) (most_field key.now) }
    {
        self.bytes(key);
        self.number(n);
    }

    // Puts a line of one number.
    fn line(&mut self, key: &[u8], n: u32)
        requires { HasRoom self.old (most_line key.now) }
        ensures { Puts self.old self.new (one_text key.now n) (most_line key.now) }
    {
        self.field(key, n);
        self.bytes(b"\n");
    }

    // Puts the lines before the memory's.
    fn head(&mut self, verdict: Verdict, steps: u32, marks: Marks)
        requires { HasRoom self.old most_head }
        ensures { Puts self.old self.new
            (head_text verdict.number verdict.place verdict.because steps marks) most_head }
    {
        self.line(b"verdict=", verdict.number);
        self.line(b"place=", verdict.place);
        self.line(b"because=", verdict.because);
        self.line(b"steps=", steps);
        self.line(b"levels=", marks);
        self.line(b"marked=", marks.count_ones());
    }

    // Puts the values of the variables after v0, a comma before each.
    fn values(&mut self, values: &[u32; VARIABLES])
        requires { HasRoom self.old (most_field comma * (width - 1)) }
        ensures { Puts self.old self.new (fields_text (replicate (width - 1) comma) (drop 1 values.now))
            (most_field comma * (width - 1)) }
    {
        for value in &values[1..] {
            self.field(b",", *value);
        }
    }

    // Puts the memory's line.
    fn memory(&mut self, values: &[u32; VARIABLES])
        requires { HasRoom self.old most_memory }
        ensures { Puts self.old self.new (memory_text values.now) most_memory }
    {
        self.field(b"mem=", values[0]);
        self.values(values);
        self.bytes(b"\n");
    }

    // Puts a record's line.
    fn record(&mut self, channel: u32, value: u32)
        requires { HasRoom self.old most_record }
        ensures { Puts self.old self.new
            (record_text (record { channel = channel; value = value })) most_record }
    {
        self.field(b"out=", channel);
        self.field(b",", value);
        self.bytes(b"\n");
    }

    // Puts the lines of the first records of the trace.
    // Stays: the count stands beside the trace, as in `records_of`, whose words after the last record are no record's.
    fn records(&mut self, trace: &[u32], records: usize)
        requires { (record_words * records ≤ length trace.now) × HasRoom self.old (most_record * records) }
        ensures { Puts self.old self.new (records_text (records_of records trace.now)) (most_record * records) }
    {
        for i in 0..records {
            self.record(trace[RECORD_WORDS * i], trace[RECORD_WORDS * i + 1]);
        }
    }

    // Puts the report of a run that ended with a verdict.
    fn run(&mut self, verdict: Verdict, answer: Answer, trace: &[u32])
        requires { (record_words * answer.records ≤ length trace.now) × HasRoom self.old (most_run answer.records) }
        ensures { Puts self.old self.new
            (run_text verdict.number verdict.place verdict.because (whole_of answer trace.now)) (most_run answer.records) }
    {
        self.head(verdict, answer.steps, answer.marks);
        self.memory(&answer.memory.words);
        self.line(b"records=", answer.records);
        self.records(trace, answer.records as usize);
    }
}

// Writes the report of a refusal, of a job or of a run.
// Stays: the refusal's number itself, since a job's refusal is of an enum, a run's is a number, and a report has the numbers of both.
pub fn write_refusal(number: u32, at: u32, out: &mut [u8]) -> Result<usize, Unwritten>
    ensures { (record { said = said_of_wrote result; out = out.new }) ≡ refusal_written number at out.old }
{
    if out.len() < REFUSAL_BYTES {
        return Err(Unwritten::TooShort);
    }
    let mut writer = Writer { out, at: 0 };
    writer.line(b"refused=", number);
    writer.line(b"at=", at);
    Ok(writer.at)
}

// Writes the report of a run that ended with a verdict.
fn write_run(
    verdict: Verdict,
    answer: Answer,
    trace: &[u32],
    out: &mut [u8],
) -> Result<usize, Unwritten>
    ensures { (record { said = said_of_wrote result; out = out.new })
        ≡ run_written answer.records (run_text verdict.number verdict.place verdict.because (whole_of answer trace.now))
        trace.now out.old }
{
    let records = answer.records as usize;
    if trace.len() < RECORD_WORDS * records {
        return Err(Unwritten::Lacking);
    }
    if out.len() < RUN_BYTES + RECORD_BYTES * records {
        return Err(Unwritten::TooShort);
    }
    let mut writer = Writer { out, at: 0 };
    writer.run(verdict, answer, trace);
    Ok(writer.at)
}

// Writes the report of an answer, whose records are the first words of the trace.
// Stays: verdict and place are matched here, for C and by `cases`, since each lays them out in a way of its own.
pub fn write_report(answer: Answer, trace: &[u32], out: &mut [u8]) -> Result<usize, Unwritten>
    ensures { (record { said = said_of_wrote result; out = out.new })
        ≡ report_written answer trace.now out.old }
{
    let (number, place, because) = match answer.ended {
        Ended::Done => (0, 0, 0),
        Ended::Stopped { row, because } => (1, row, because),
        Ended::Spent => (2, 0, 0),
        Ended::NoRoom(row) => (3, row, 0),
        Ended::Refused { number, row } => return write_refusal(number, row, out),
    };
    write_run(
        Verdict {
            number,
            place,
            because,
        },
        answer,
        trace,
        out,
    )
}
