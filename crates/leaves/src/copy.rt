// Words that are copied from one slice to another.
ghost use Rattle.std.specs.Prelude.{◌≡◌, min, ◌++◌, length, take, drop};

// Lays so many words of a slice, or as many as both have, over the first words of another.
pub fn copy_words(from: &[u32], words: usize, to: &mut [u32])
    ensures { to.new
        ≡ take (min words (min (length from.now) (length to.old))) from.now
        ++ drop (min words (min (length from.now) (length to.old))) to.old }
{
    let copied = words.min(from.len().min(to.len()));
    to[..copied].copy_from_slice(&from[..copied]);
}
