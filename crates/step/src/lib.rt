// One step of a run under the monitor, on the machine in which its state stands.
#![tactic(auto)]

ghost use Rattle.std.specs.Prelude.{◌≡◌, ◌+◌, ◌<◌, ◌≤◌, ◌↔◌, length, IsTrue, IsNone, IfSome, OnErr};
ghost use Rattle.rules.specs.declared.Kind.{Kind};
ghost use Rattle.rules.specs.Limits.{most_rows};
ghost use Rattle.rules.specs.Rows.{rows_of, row_at};
ghost use Rattle.rules.specs.Trees.{expr_at, stmt_at};
ghost use Rattle.rules.specs.Values.{may_assign};
ghost use Rattle.rules.specs.Sound.{Sound};
ghost use Rattle.step.specs.Denoted.{arrays_of, held_of, Holds};
ghost use Rattle.step.specs.Turns.{ended_of, turn_of, Starts, guards, denies, Pushed, closed_held, Passed, Ready, Statement, BranchOpened, LoopLeft, LoopTurned, CanAssign, assigned_words, assigned_held, CanBranch, Branched, CanLoop, Looped, CanPutOut, PutOut, CanTakeApart, TakenApart, Found, Applied, Turned};

pub mod stack;

use expression::assigned::may_assign;
use expression::values::{Valued, evaluate};
use leaves::marks::{joined, mark_as};
use leaves::memory::store_lent;
use rows::read_row;
use rules::{Ended, Kind, MOST_NESTING, MOST_ROWS, Marks, Memory, Row, VARIABLES};
use stack::Stack;

// The pile holds at most as many sets as there are levels of nesting.
pub const SETS: usize = MOST_NESTING as usize;

// At most one item is pending for each row and for each level of nesting.
pub const ENTRIES: usize = MOST_ROWS + SETS;

// A close among the pending items; a statement is its row and 1.
// Stays: an Option<u16> is 4 bytes, and clearing 520 of them took a run of 5 rows from 0.16 to 0.44 microseconds.
const CLOSE: u16 = 0;

// The entry of the statement at a row.
fn entry_of(row: u32) -> u16
    requires { row < most_rows }
    ensures { result ≡ row + 1 }
{
    (row + 1) as u16
}

// The row of the statement that an entry is; a close has none.
fn row_of(entry: u16) -> Option<u32>
    ensures close { IsNone result ↔ (entry ≡ 0) }
    ensures statement { IfSome result (λ row. entry ≡ row + 1) }
{
    u32::from(entry).checked_sub(1)
}

// Why a step is not taken: the output at a row is denied, because of these variables, or without room.
#[derive(Clone, Copy)]
pub enum Halt {
    Stopped { row: u32, because: Marks },
    NoRoom(u32),
}

// How a run ends that halts.
impl From<Halt> for Ended {
    ghost from_gives = { λ halt ended. ended ≡ ended_of halt };

    fn from(halt: Halt) -> Ended {
        match halt {
            Halt::Stopped { row, because } => Ended::Stopped { row, because },
            Halt::NoRoom(row) => Ended::NoRoom(row),
        }
    }
}

// The state of a run: memory's words and marks, the pending items, the pile of sets, and how many records stand in the trace.
// Stays: that the table's rows are sound is a part of `Holds`, of which `TurnIsDecided` and `GoesOnAgain` speak, so the table is words.
#[derive(Clone, Copy)]
pub struct Machine {
    pub words: [u32; VARIABLES],
    pub marks: Marks,
    pub pending: Stack<u16, ENTRIES>,
    pub pile: Stack<Marks, SETS>,
    // Stays: the trace that it counts in is a slice from C, which is lent to each step and not to the machine.
    pub records: usize,
}

impl Machine {
    // The state from which a recipe starts: its statement, of this row, is pending.
    pub fn new(memory: Memory, marks: Marks, row: u32) -> Self
        requires { row < most_rows }
        ensures { Starts memory.words marks row result }
    {
        let words = memory.words;
        let mut pending = Stack::new(CLOSE);
        pending.push(entry_of(row));
        Machine {
            words,
            marks,
            pending,
            pile: Stack::new(0),
            records: 0,
        }
    }

    // Whether nothing is pending: the run is done.
    pub fn is_done(&self) -> bool
        ensures { IsTrue result ↔ (self.now.pending.len ≡ 0) }
    {
        self.pending.is_empty()
    }

    // Whether an expression of this level, or the context, is provisional.
    fn is_guarded(&self, level: Marks) -> bool
        ensures { result ≡ guards level self.now.pile.len }
    {
        level != 0 || !self.pile.is_empty()
    }

    // Whether the monitor denies an output: on channel 0, where the expression or the context is provisional.
    fn is_denied(&self, channel: u32, level: Marks) -> bool
        ensures { result ≡ denies channel level self.now.pile.len }
    {
        channel == 0 && self.is_guarded(level)
    }

    // Pushes what the statement at a row may assign if the test or the context is provisional.
    fn push_unrun(&mut self, table: &[u32], level: Marks, row: u32)
        requires { Sound (rows_of table.now) × (row < length (rows_of table.now)) × (self.old.pile.len < SETS) }
        ensures { Pushed self.old level (may_assign (stmt_at (rows_of table.now) row)) self.new }
    {
        if self.is_guarded(level) {
            self.pile.push(may_assign(table, row));
        }
    }

    // A close: the top of the pile, where there is one, is popped and added to the marks.
    fn close(&mut self)
        requires { 0 < self.old.pending.len }
        ensures { Passed self.old self.new (closed_held self.old.pile.items (held_of self.old)) }
    {
        self.pending.pop();
        if !self.pile.is_empty() {
            self.marks = joined(self.pile.pop(), self.marks);
        }
    }

    // Opens a branch: it comes next, then a close; what the other branch may assign is pushed if the test or the context is
    // provisional.
    fn open_branch(&mut self, table: &[u32], level: Marks, taken: u32, other: u32)
        requires { Ready (rows_of table.now) self.old 1
            × Statement (rows_of table.now) taken
            × (other < length (rows_of table.now)) }
        ensures { BranchOpened (rows_of table.now) self.old level taken other self.new }
    {
        self.pending.set_top(CLOSE);
        self.pending.push(entry_of(taken));
        self.push_unrun(table, level, other);
    }

    // Leaves a loop whose test fails: a close comes next; what the body may assign is pushed if the test or the context is
    // provisional.
    fn leave_loop(&mut self, table: &[u32], level: Marks, body: u32)
        requires { Ready (rows_of table.now) self.old 0 × (body < length (rows_of table.now)) }
        ensures { LoopLeft (rows_of table.now) self.old level body self.new }
    {
        self.pending.set_top(CLOSE);
        self.push_unrun(table, level, body);
    }

    // Turns a loop whose test holds: the body comes next, then a close, then the same loop; the empty set is pushed if the test
    // or the context is provisional.
    fn turn_loop(&mut self, table: &[u32], level: Marks, body: u32)
        requires { Ready (rows_of table.now) self.old 2 × Statement (rows_of table.now) body }
        ensures { LoopTurned (rows_of table.now) self.old level body self.new }
    {
        self.pending.push(CLOSE);
        self.pending.push(entry_of(body));
        if self.is_guarded(level) {
            self.pile.push(0);
        }
    }

    // An assignment: the variable takes the value, and is marked if the expression or the context is provisional, else unmarked.
    fn assign(&mut self, table: &[u32], row: Row)
        requires { CanAssign (rows_of table.now) self.old row }
        ensures stored { self.new.words ≡ assigned_words (rows_of table.now) self.old.words row }
        ensures marked { held_of self.new ≡ assigned_held (rows_of table.now) (held_of self.old) row }
        ensures entries { self.new.pending.items ≡ self.old.pending.items }
        ensures sets { self.new.pile.items ≡ self.old.pile.items }
    {
        let right = evaluate(table, row.q, &self.words, self.marks);
        store_lent(&mut self.words, row.p, right.value);
        self.marks = mark_as(self.marks, row.p, self.is_guarded(right.level));
        self.pending.pop();
    }

    // An if: the branch that the test takes is opened.
    fn branch(&mut self, table: &[u32], row: Row)
        requires { CanBranch (rows_of table.now) self.old row }
        ensures { Branched (rows_of table.now) self.old row self.new }
    {
        let test = evaluate(table, row.p, &self.words, self.marks);
        if test.value != 0 {
            return self.open_branch(table, test.level, row.q, row.r);
        }
        self.open_branch(table, test.level, row.r, row.q)
    }

    // A while: turned where its test holds, else left.
    fn loop_on(&mut self, table: &[u32], row: Row)
        requires { CanLoop (rows_of table.now) self.old row }
        ensures { Looped (rows_of table.now) self.old row self.new }
    {
        let test = evaluate(table, row.p, &self.words, self.marks);
        if test.value != 0 {
            return self.turn_loop(table, test.level, row.q);
        }
        self.leave_loop(table, test.level, row.q)
    }

    // An output: a record, unless it is denied or there is no room.
    fn put_out(&mut self, table: &[u32], trace: &mut [u32], at: u32, row: Row) -> Result<(), Halt>
        requires { CanPutOut (rows_of table.now) self.old trace.old row }
        ensures out { PutOut at row.p (expr_at (rows_of table.now) row.q) self.old.words
            trace.old (held_of self.old)
            trace.new (turn_of result (held_of self.new)) }
        ensures kept { Passed self.old self.new (held_of self.new) }
        ensures err { OnErr result (held_of self.new ≡ held_of self.old) }
    {
        let shown = evaluate(table, row.q, &self.words, self.marks);
        if self.is_denied(row.p, shown.level) {
            return Err(Halt::Stopped {
                row: at,
                because: shown.level,
            });
        }
        let first = self.records * 2;
        if trace.len() <= first + 1 {
            return Err(Halt::NoRoom(at));
        }
        trace[first] = row.p;
        trace[first + 1] = shown.value;
        self.records += 1;
        self.pending.pop();
        Ok(())
    }

    // Takes the sequences at the front of the pending items apart, which is no step: a sequence's second statement stands in its
    // place, and its first on top. Answers the statement that is next then, its number and its row.
    fn take_apart(&mut self, table: &[u32], first: u32) -> (u32, Row)
        requires { CanTakeApart (rows_of table.now) self.old.pending.items self.old.pending.len
            first (row_at (rows_of table.now) first) }
        ensures apart { TakenApart (rows_of table.now) self.old.pending.items self.old.pending.len
            self.new.pending.items self.new.pending.len result.0 result.1 }
        ensures rest { self.new ≡ record self.old { pending = self.new.pending } }
    {
        let mut at = first;
        let mut row = read_row(table, at);
        while let Row {
            kind: Kind::Sequence,
            p,
            q,
            ..
        } = row
        {
            self.pending.set_top(entry_of(q));
            self.pending.push(entry_of(p));
            at = p;
            row = read_row(table, at);
        }
        (at, row)
    }

    // The step of the statement that is next, which is no sequence.
    fn apply(&mut self, table: &[u32], trace: &mut [u32], at: u32, row: Row) -> Result<(), Halt>
        requires { Holds (rows_of table.now) (arrays_of self.old trace.old) (held_of self.old)
            × Found (rows_of table.now) self.old.pending.items self.old.pending.len at row
            × (row.kind ≡ Kind.Sequence → ⊥) }
        ensures applied { Applied (rows_of table.now)
            (arrays_of self.old trace.old) (held_of self.old)
            (arrays_of self.new trace.new) (turn_of result (held_of self.new)) }
        ensures err { OnErr result (held_of self.new ≡ held_of self.old) }
    {
        match row.kind {
            Kind::Skip => {
                self.pending.pop();
            }
            Kind::Assign => self.assign(table, row),
            Kind::If => self.branch(table, row),
            Kind::While => self.loop_on(table, row),
            _ => return self.put_out(table, trace, at, row),
        }
        Ok(())
    }

    // One step of the run: a close, or the statement that is next once the sequences at the front are taken apart. A step that is
    // not taken leaves the state as it was.
    pub fn step(&mut self, table: &[u32], trace: &mut [u32]) -> Result<(), Halt>
        requires { Holds (rows_of table.now) (arrays_of self.old trace.old) (held_of self.old)
            × (0 < self.old.pending.len) }
        ensures turned { Turned (rows_of table.now)
            (arrays_of self.old trace.old) (held_of self.old)
            (arrays_of self.new trace.new) (turn_of result (held_of self.new)) }
        ensures err { OnErr result (held_of self.new ≡ held_of self.old) }
    {
        let entry = self.pending.top();
        let Some(first) = row_of(entry) else {
            self.close();
            return Ok(());
        };
        let depth = self.pending.len;
        let (at, row) = self.take_apart(table, first);
        let done = self.apply(table, trace, at, row);
        if done.is_err() {
            // nothing was done: the sequences stand again as they stood
            self.pending.truncate(depth);
            self.pending.set_top(entry);
        }
        done
    }
}
