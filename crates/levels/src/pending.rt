// The rows that a walk has still to take, in fixed memory.
ghost use Rattle.std.specs.Prelude.{◌≡◌, ◌<◌, ◌≤◌, length};
ghost use Rattle.rules.specs.Limits.{most_rows};
ghost use Rattle.levels.specs.Pending.{Pushed, Popped};

use rules::MOST_ROWS;

// The rows that are still to be walked, the last of them next: so many of an array that is lent. Its contracts see them as a list.
// Each walk has one of its own, so that how many there are stands in a register.
// Stays: beside the stack of `step`; lent like that one, with its length in memory, it took loops of many rounds up to a third more time.
#[derive(Drop)]
pub struct Pending<'a> {
    pub rows: &'a mut [u16; MOST_ROWS],
    pub len: usize,
}

impl Pending<'_> {
    // Puts a row behind the others.
    pub fn push(&mut self, row: u16)
        requires { (length self.old.rows.now ≡ most_rows) × (self.old.len < most_rows) }
        ensures { Pushed self.old self.new row }
    {
        self.rows[self.len] = row;
        self.len += 1;
    }

    // Takes the last row off.
    pub fn pop(&mut self) -> u16
        requires { (length self.old.rows.now ≡ most_rows) × (0 < self.old.len) × (self.old.len ≤ most_rows) }
        ensures { Popped self.old self.new result }
    {
        self.len -= 1;
        self.rows[self.len]
    }
}
