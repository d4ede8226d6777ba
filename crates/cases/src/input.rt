// The numbers of the input, one a line.
use rules::{Memory, VARIABLES};

// What is still to be read. A number that lacks its form is 0, with nothing after it.
#[derive(Drop)]
pub(crate) struct Input<'a> {
    rest: &'a [u8],
}

// The value of a line's decimal digits, where it is a word's.
fn value_of(digits: &[u8]) -> Option<u32> {
    digits.iter().try_fold(0u32, |value, &byte| {
        value
            .checked_mul(10)?
            .checked_add(char::from(byte).to_digit(10)?)
    })
}

impl<'a> Input<'a> {
    pub(crate) fn new(text: &'a [u8]) -> Input<'a> {
        Input { rest: text }
    }

    pub(crate) fn is_at_end(&self) -> bool {
        self.rest.is_empty()
    }

    // Nothing more is read.
    pub(crate) fn end(&mut self) {
        self.rest = &[];
    }

    // The number of the line that comes next.
    pub(crate) fn number(&mut self) -> u32 {
        match self.next_number() {
            Some(number) => number,
            None => {
                self.end();
                0
            }
        }
    }

    fn next_number(&mut self) -> Option<u32> {
        let end = self.rest.iter().position(|&byte| byte == b'\n')?;
        let number = value_of(&self.rest[..end])?;
        self.rest = &self.rest[end + 1..];
        Some(number)
    }

    // Fills the words with the numbers that come next.
    pub(crate) fn fill(&mut self, words: &mut [u32]) {
        for word in words {
            *word = self.number();
        }
    }

    pub(crate) fn memory(&mut self) -> Memory {
        let mut words = [0u32; VARIABLES];
        self.fill(&mut words);
        Memory { words }
    }
}
