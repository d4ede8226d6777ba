// The types that the rules and the code share: kinds, roles of a word, rows, memory, and the answers.
#![tactic(auto)]

mod numbers;

// how many values there are
// 1.1: A value is a whole number from 0 to 4,294,967,295, and so is a word of a table: 32 bits.
pub const WORD_VALUES: u64 = 4294967296;

// 1.2: There are 32 variables, v0 to v31, and a memory holds a value for each of them.
pub const VARIABLES: usize = 32;

// 2.1: A table is a list of words, and each four of them are a row: its kind, and then p, q and r.
pub const ROW_WORDS: usize = 4;

// 4.1: Refusal 1, at 0: .. there are more than 512.
pub const MOST_ROWS: usize = 512;

// the words of the most rows
pub const TABLE_WORDS: usize = MOST_ROWS * ROW_WORDS;

// 4.5: Refusal 5, at the row: .. its nesting over 8 ..
pub const MOST_NESTING: u8 = 8;

// 1.3: A mark set is a number of 32 bits: bit i is 1 where vi is marked, that is provisional, and 0 where vi is settled.
pub type Marks = u32;

// What a row is, by its first word. Unknown is any number that the table of kinds does not have.
#[derive(Clone, Copy, PartialEq, Eq)]
pub enum Kind {
    Skip,
    Assign,
    Sequence,
    If,
    While,
    Output,
    Constant,
    Variable,
    Binary,
    Unknown,
}

// What a word p, q or r is.
// 2.3: What p, q and r are is fixed by the kind; where nothing stands the word has no name.
#[derive(Clone, Copy, PartialEq, Eq)]
pub enum Role {
    Unnamed,
    Variable,
    Statement,
    Expression,
    Value,
    Channel,
    Operator,
}

// What each of the three words of a row is.
#[derive(Clone, Copy)]
pub struct Roles {
    pub p: Role,
    pub q: Role,
    pub r: Role,
}

#[derive(Clone, Copy, PartialEq, Eq)]
pub enum Operator {
    Sum,
    Difference,
    Product,
    Quotient,
    Equal,
    Less,
}

// 2.1: A table is a list of words, and each four of them are a row: its kind, and then p, q and r.
#[derive(Clone, Copy)]
pub struct Row {
    pub kind: Kind,
    pub p: u32,
    pub q: u32,
    pub r: u32,
}

// How deep the tree of a row is: its height as an expression, its nesting and loop nesting as a statement.
#[derive(Clone, Copy)]
pub struct Depth {
    pub height: u8,
    pub nesting: u8,
    pub loops: u8,
}

// 1.2: .. a memory holds a value for each of them.
#[derive(Clone, Copy)]
pub struct Memory {
    pub words: [u32; VARIABLES],
}

// What refusals 1 to 6 find at fault, in their order.
#[derive(Clone, Copy, PartialEq, Eq)]
pub enum Fault {
    WrongCount,
    WrongWord,
    WrongChild,
    WrongParents,
    TooDeep,
    LongTrace,
}

// A refusal of a table or of a trace: what is at fault, and the row.
#[derive(Clone, Copy, PartialEq, Eq)]
pub struct Refusal {
    pub fault: Fault,
    pub row: u32,
}

// How a run ended: done, stopped by the monitor at an output's row because of some variables, with its budget used up, or at
// an output's row without room; or refused.
#[derive(Clone, Copy)]
pub enum Ended {
    Done,
    Stopped { row: u32, because: Marks },
    Spent,
    NoRoom(u32),
    // Stays: the refusal's number, since an answer that is refused by any number is one that a report writes (docs/CONTRACTS.md).
    Refused { number: u32, row: u32 },
}

// What a run answers. Its records are the first words of the trace.
#[derive(Clone, Copy)]
pub struct Answer {
    pub ended: Ended,
    pub steps: u32,
    pub records: u32,
    pub memory: Memory,
    pub marks: Marks,
}

// What the level check says of a table.
#[derive(Clone, Copy)]
pub enum Checked {
    Pass,
    Fail(u32),
    Refused(Refusal),
}

// What the level check answers: its word, and the final marks.
#[derive(Clone, Copy)]
pub struct Advice {
    pub checked: Checked,
    pub marks: Marks,
}
