// Reads the decimal number at a place of a text.
#![tactic(auto)]

ghost use Rattle.std.specs.Prelude.{◌≡◌, true, ◌+◌, ◌-◌, ◌*◌, ◌≤◌, min, length, drop, Some};
ghost use Rattle.lines.specs.Numbers.{zero_byte, beyond, is_digit, digits_on, number_at};
ghost use Rattle.numbers.specs.Read.{field_said, next_of};

use rules::WORD_VALUES;

// The most that a word is, as `most_word` of `lines` has it.
pub const MOST_WORD: u64 = WORD_VALUES - 1;

// A value that was read at a place of a text, and the place after it.
#[derive(Clone, Copy)]
pub struct Parsed<T> {
    pub value: T,
    pub next: usize,
}

// The value of some digits with one digit more; over 4,294,967,295 it is 4,294,967,296.
fn grown(value: u64, byte: u8) -> u64
    requires { (value ≤ beyond) × (is_digit byte ≡ true) }
    ensures { result ≡ min (value * 10 + (byte - zero_byte)) beyond }
{
    (value * 10 + u64::from(byte - b'0')).min(MOST_WORD + 1)
}

// The number whose first digits came to `first` and whose other digits start at a place.
fn digits_on(text: &[u8], at: usize, first: u64) -> Parsed<u64>
    requires { (first ≤ beyond) × (at ≤ length text.now) }
    ensures { (field_said text.now (Some result) ≡ digits_on (drop at text.now) first)
        × (result.next ≤ length text.now) }
{
    let mut value = first;
    for next in at..text.len() {
        let byte = text[next];
        if !byte.is_ascii_digit() {
            return Parsed { value, next };
        }
        value = grown(value, byte);
    }
    Parsed {
        value,
        next: text.len(),
    }
}

// The number at a place; one over 4,294,967,295 is 4,294,967,296.
pub fn number_at(text: &[u8], at: usize) -> Option<Parsed<u64>>
    ensures { (field_said text.now result ≡ number_at (drop at text.now))
        × (next_of result ≤ length text.now) }
{
    match text.get(at)? {
        b'0' => Some(Parsed {
            value: 0,
            next: at + 1,
        }),
        byte @ b'1'..=b'9' => Some(digits_on(text, at + 1, grown(0, *byte))),
        _ => None,
    }
}
