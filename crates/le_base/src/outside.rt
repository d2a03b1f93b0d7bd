ghost use Rattle.std.specs.Prelude.{◌≡◌, ◌≢◌, ℕ, ◌<◌, ◌≤◌, List, length, Option};
ghost use Rattle.le_base.specs.Outside.{Reads, Writes, Rose};

/// What a read answered.
#[derive(Clone, Copy, Debug, PartialEq, Eq)]
pub enum Got {
    /// So many bytes stand at the front of the buffer now, at least one.
    Bytes(usize),
    /// No bytes are left.
    End,
    /// The read failed, and nothing was taken away.
    Failed,
}

/// What a write answered.
#[derive(Clone, Copy, Debug, PartialEq, Eq)]
pub enum Took {
    /// So many bytes were taken from the front, at least one.
    Bytes(usize),
    /// The write failed, and took nothing.
    Failed,
}

/// Where bytes come from.
pub trait Source {
    /// How many reads failed so far. It stands still at 2^64 - 1.
    ghost faults: { Self → ℕ };

    /// The bytes that are left, where the source tells them.
    ghost left: { Self → Option (List ℕ) };

    /// Reads the first bytes left into the front of the buffer, which has room for at least one.
    /// `Failed` raises the count of faults, and every other answer leaves it as it was. Where the
    /// bytes are told, `End` comes only where none is left.
    fn read(&mut self, buffer: &mut [u8]) -> Got
        requires { 0 < length buffer.old }
        ensures content { Reads (left self.old) (left self.new) result buffer.new }
        ensures failed { result ≡ Got.Failed → Rose (faults self.old) (faults self.new) }
        ensures kept { result ≢ Got.Failed → faults self.new ≡ faults self.old }
        ensures count { faults self.old ≤ faults self.new };
}

/// Where bytes go.
pub trait Sink {
    /// How many writes failed so far. It stands still at 2^64 - 1.
    ghost faults: { Self → ℕ };

    /// What was written, where the sink tells it.
    ghost written: { Self → Option (List ℕ) };

    /// Writes some of the first bytes, of which there is at least one. `Failed` raises the count of
    /// faults, and every other answer leaves it as it was.
    fn write(&mut self, bytes: &[u8]) -> Took
        requires { 0 < length bytes.now }
        ensures content { Writes (written self.old) (written self.new) result bytes.now }
        ensures failed { result ≡ Took.Failed → Rose (faults self.old) (faults self.new) }
        ensures kept { result ≢ Took.Failed → faults self.new ≡ faults self.old }
        ensures count { faults self.old ≤ faults self.new };
}
