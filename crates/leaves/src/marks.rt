// Mark sets. A variable's number counts modulo 32, so that every number names a variable; the variables of a judged table are
// below 32.
// 1.3: A mark set is a number of 32 bits: bit i is 1 where vi is marked, that is provisional, and 0 where vi is settled.
ghost use Rattle.std.specs.Prelude.{◌≡◌, ◌%◌};
ghost use Rattle.rules.specs.Limits.{width};
ghost use Rattle.rules.specs.Marks.{has, put, only, union};

use rules::{Marks, VARIABLES};

// Stays: rule 1.3 makes a mark set a number of 32 bits, as which C, jobs and reports have it; a type of its own would be unwrapped at each.

// The set of one variable.
pub fn only_mark(variable: u32) -> Marks
    ensures { result ≡ only (variable % width) }
{
    1 << (variable % VARIABLES as u32)
}

// Whether the variable is in the set.
pub fn has_mark(marks: Marks, variable: u32) -> bool
    ensures { result ≡ has marks (variable % width) }
{
    marks & only_mark(variable) != 0
}

// The set with the variable marked or unmarked.
pub fn mark_as(marks: Marks, variable: u32, bit: bool) -> Marks
    ensures { result ≡ put (variable % width) bit marks }
{
    if bit {
        marks | only_mark(variable)
    } else {
        marks & !only_mark(variable)
    }
}

// What stands in either set.
pub fn joined(a: Marks, b: Marks) -> Marks
    ensures { result ≡ union a b }
{
    a | b
}
