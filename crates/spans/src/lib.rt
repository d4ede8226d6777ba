// The words of a text. Every function takes the whole text and a place in it.
#![tactic(auto)]

ghost use Rattle.std.specs.Prelude.{false, ◌≡◌, ◌≤◌, ◌<◌, min, length, get_or, drop};
ghost use Rattle.language.specs.Words.{is_blank, is_joining, joins};
ghost use Rattle.language.specs.Tokens.{same};
ghost use Rattle.language.specs.Readings.{handed};
ghost use Rattle.spans.specs.Cut.{part, Begun, Cut, JoinedTo};

use language::Part;

// Where a word starts and ends; where there is none, both are the text's end.
// Stays: `Cut` promises both ends, and the text's end where no word is; a `Part` has a length, as a reading hands it back.
#[derive(Clone, Copy)]
pub struct Span {
    pub start: usize,
    pub end: usize,
}

impl From<Span> for Part {
    ghost use Rattle.std.specs.Prelude.{◌≡◌, ◌-◌};

    ghost from_gives = { λ span part. part ≡ record { start = span.start; size = span.end - span.start } };

    fn from(span: Span) -> Self {
        Part {
            start: span.start,
            size: span.end.saturating_sub(span.start),
        }
    }
}

// Whether a byte is a space or LF.
#[tactic(auto, unfolding(language::specs::Words::is_blank))]
fn is_blank(byte: u8) -> bool
    ensures { result ≡ is_blank byte }
{
    matches!(byte, b' ' | b'\n')
}

// Whether a byte is a letter or a digit.
#[tactic(auto, using(crate::proofs::WordLaws::joining_is))]
fn is_joining(byte: u8) -> bool
    ensures { result ≡ is_joining byte }
{
    byte.is_ascii_alphanumeric()
}

// Whether a letter or a digit stands at a place.
pub fn is_joined(text: &[u8], at: usize) -> bool
    ensures { result ≡ joins (drop at text.now) }
{
    at < text.len() && is_joining(text[at])
}

// The first place from a place on where neither a letter nor a digit stands.
// Stays: one chain here and one in `start_at`; a function over both would take the test as a closure, and be longer than the two.
fn joined_to(text: &[u8], at: usize) -> usize
    requires { at ≤ length text.now }
    ensures { JoinedTo text.now at result }
{
    let rest = &text[at..];
    at + rest
        .iter()
        .position(|&byte| !is_joining(byte))
        .unwrap_or(rest.len())
}

// The word that starts at a place where no blank stands.
fn word_from(text: &[u8], start: usize) -> Span
    requires { (start < length text.now) × (is_blank (get_or text.now start 0) ≡ false) }
    ensures { Cut text.now start result }
{
    let end = if is_joining(text[start]) {
        joined_to(text, start + 1)
    } else {
        start + 1
    };
    Span { start, end }
}

// The first place from a place on where no blank stands, or the text's end.
pub fn start_at(text: &[u8], at: usize) -> usize
    ensures { Begun text.now at result }
{
    let first = at.min(text.len());
    let rest = &text[first..];
    first
        + rest
            .iter()
            .position(|&byte| !is_blank(byte))
            .unwrap_or(rest.len())
}

// The first word from a place on.
pub fn word_at(text: &[u8], at: usize) -> Span
    ensures { Cut text.now at result }
{
    let start = start_at(text, at);
    if start < text.len() {
        word_from(text, start)
    } else {
        Span { start, end: start }
    }
}

// The bytes from a place to another, as a part of the text; none stands beyond the text's end.
pub fn word_part<'a>(text: &'a [u8], start: usize, end: usize) -> &'a [u8]
    ensures { result.now ≡ part text.now start end }
{
    let stop = end.min(text.len());
    &text[start.min(stop)..stop]
}

// The part that a reading hands back, as a part of its text: the faulty word itself, or the empty part at the text's end.
pub fn handed_back<'a>(text: &'a [u8], part: Part) -> &'a [u8]
    ensures { result.now ≡ handed text.now part }
{
    word_part(text, part.start, part.start.saturating_add(part.size))
}

// Whether a word is this key.
pub fn is_key(word: &[u8], key: &[u8]) -> bool
    ensures { result ≡ same key.now word.now }
{
    // Stays: `==` of slices is a call, and takes 22 in place of 12 microseconds for 512 rows: over 1.2 by hand. Zipped iterators take 13.
    if word.len() != key.len() {
        return false;
    }
    for i in 0..key.len() {
        if key[i] != word[i] {
            return false;
        }
    }
    true
}
