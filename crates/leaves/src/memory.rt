// Memory's words, lent within a step. A variable's number counts modulo 32, as in a mark set.
ghost use Rattle.std.specs.Prelude.{◌≡◌, ◌%◌, slice_index, slice_set};
ghost use Rattle.rules.specs.Limits.{width};

use rules::VARIABLES;

// The variable's value.
pub fn read_lent(words: &[u32; VARIABLES], variable: u32) -> u32
    ensures { result ≡ slice_index words.now (variable % width) }
{
    let from = variable as usize % VARIABLES;
    words[from]
}

// Gives the variable the value.
pub fn store_lent(words: &mut [u32; VARIABLES], variable: u32, value: u32)
    ensures { words.new ≡ slice_set words.old (variable % width) value }
{
    let to = variable as usize % VARIABLES;
    words[to] = value;
}
