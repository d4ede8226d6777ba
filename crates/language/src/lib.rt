// Recipes as text: what a reading answers, and the numbers of its refusals. The language itself is in specs/.
#![tactic(auto)]

use rules::{Marks, Refusal};

// A part of a text.
#[derive(Clone, Copy, PartialEq, Eq)]
pub struct Part {
    pub start: usize,
    pub size: usize,
}

// What a text reads as: how many rows its table begins with, and its start marks.
#[derive(Clone, Copy, PartialEq, Eq)]
pub struct Recipe {
    pub rows: u32,
    pub marks: Marks,
}

// What a reading finds at fault, in the order of the numbers; or the table's own refusal.
#[derive(Clone, Copy, PartialEq, Eq)]
pub enum Flaw {
    TooLong,
    FaultyWord,
    DeclaredAgain,
    TooManyRows,
    TableTooShort,
    Refused(Refusal),
}

// A refusal of a text: what is at fault, and the part that is handed back.
#[derive(Clone, Copy, PartialEq, Eq)]
pub struct Unread {
    pub flaw: Flaw,
    pub part: Part,
}

// The refusals' numbers.
impl From<Flaw> for u32 {
    ghost use Rattle.std.specs.Prelude.{◌≡◌};
    ghost use Rattle.language.specs.Answers.{flaw_number};

    ghost from_gives = { λ flaw number. number ≡ flaw_number flaw };

    fn from(flaw: Flaw) -> Self {
        match flaw {
            Flaw::TooLong => 9,
            Flaw::FaultyWord => 10,
            Flaw::DeclaredAgain => 11,
            Flaw::TooManyRows => 12,
            Flaw::TableTooShort => 13,
            Flaw::Refused(refusal) => u32::from(refusal.fault),
        }
    }
}
