// The word at a place, compared with a key.
ghost use Rattle.std.specs.Prelude.{true, ◌≡◌, ◌+◌, ◌≤◌, length};
ghost use Rattle.reader.specs.Statements.{Compared, Looked};

use spans::{is_joined, is_key, start_at};

// Whether the word that starts at a place is this key. Its end is not looked for: the key stands there, and the word does not go on.
pub fn is_word(text: &[u8], at: usize, key: &[u8]) -> bool
    requires { at ≤ length text.now }
    ensures { Compared text.now at key.now result × (result ≡ true → at + length key.now ≤ length text.now) }
{
    if text.len() - at < key.len() {
        return false;
    }
    let next = at + key.len();
    if !is_key(&text[at..next], key) {
        return false;
    }
    !(is_joined(key, 0) && is_joined(text, next))
}

// The place after the word at a place, where it is this key; else, as the error, where the word starts that stands there, so that
// blanks are passed once.
pub fn expect(text: &[u8], from: usize, key: &[u8]) -> Result<usize, usize>
    ensures { Looked text.now from key.now result }
{
    let start = start_at(text, from);
    if is_word(text, start, key) {
        Ok(start + key.len())
    } else {
        Err(start)
    }
}
