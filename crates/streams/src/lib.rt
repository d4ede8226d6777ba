// A stream read to its end, and one written whole: calls that move only a part are gone on with. Where it is known which bytes a
// stream gives, or holds, the contracts say that just these were moved. Of the system's streams that is not known: there they bind the
// numbers that are answered, and tools/try-streams tries the rest.
#![tactic(auto)]

ghost use Rattle.std.specs.Prelude.{◌≡◌, ◌<◌, IfOk, OnOk, length, take};
ghost use Rattle.std.specs.Io.{ReadsAtMost};
ghost use Rattle.std.specs.Io.KnownBytes.{Appends, Consumes, IsAtEnd};

use std::io;
use std::io::{ErrorKind, Read, Write};

// A stream whose calls are made again where a signal interrupts them. A loop has to be proved to end, and nothing says that signals
// do: so it counts its turns, up to a number that no run reaches.
#[derive(Drop)]
pub struct Uninterrupted<S>(pub S);

impl<R: Read> Read for Uninterrupted<R> {
    ghost remaining = { λ s. R.remaining s.0 };

    fn read(&mut self, buf: &mut [u8]) -> io::Result<usize> {
        for _ in 0..u64::MAX {
            match self.0.read(buf) {
                Err(why) if why.kind() == ErrorKind::Interrupted => {}
                moved => return moved,
            }
        }
        Err(ErrorKind::Interrupted.into())
    }
}

// Stays: the loop of `read` again, since no clause of a function that takes the call as a closure says that its last buffer is the lent one.
impl<W: Write> Write for Uninterrupted<W> {
    ghost contents = { λ s. W.contents s.0 };

    fn write(&mut self, buf: &[u8]) -> io::Result<usize> {
        for _ in 0..u64::MAX {
            match self.0.write(buf) {
                Err(why) if why.kind() == ErrorKind::Interrupted => {}
                moved => return moved,
            }
        }
        Err(ErrorKind::Interrupted.into())
    }

    fn flush(&mut self) -> io::Result<()> {
        self.0.flush()
    }
}

// Reads a stream until it ends or the buffer is full: so many bytes stand at its front. After a failure some bytes may be read.
// Stays: a loop of its own, since std has no call that fills a lent buffer up to the stream's end (`read_exact` fails there).
pub fn read_all<R: Read>(from: &mut R, buf: &mut [u8]) -> io::Result<usize>
    ensures bound { ReadsAtMost result buf.new }
    ensures bytes { IfOk result (λ n. Consumes (R.remaining from.old) (R.remaining from.new) (take n buf.new)) }
    ensures end { IfOk result (λ n. n < length buf.new → IsAtEnd (R.remaining from.new)) }
{
    let mut done = 0;
    while done < buf.len() {
        let count = from.read(&mut buf[done..])?;
        if count == 0 {
            break;
        }
        done += count;
    }
    Ok(done)
}

// Writes the buffer to a stream: all of its bytes, or as many as it takes until a call fails or takes none, which is a failure too.
// Stays: a loop of its own, since std's `write_all` tells of a call that takes no byte in other words, and `watch` prints them.
pub fn write_all<W: Write>(to: &mut W, buf: &[u8]) -> io::Result<usize>
    ensures whole { IfOk result (λ n. n ≡ length buf.now) }
    ensures bytes { OnOk result (Appends (W.contents to.old) (W.contents to.new) buf.now) }
{
    let mut taken = 0;
    while taken < buf.len() {
        let part = to.write(&buf[taken..])?;
        if part == 0 {
            return Err(ErrorKind::WriteZero.into());
        }
        taken += part;
    }
    Ok(taken)
}
