//! What the program sees of the outside.
ghost use Rattle.std.specs.Prelude.{◌≡◌, ◌<◌, ◌≤◌, ℕ, List, Option, length, IfOk};
ghost use Rattle.std.specs.Io.{ReadsAtMost, WritesAtMost};
ghost use Rattle.std.specs.Io.KnownBytes.{Keeps, ReadConsumes, WriteAppends};
ghost use Rattle.iamf_io.specs.Causes.{HasCause};

/// The outside failed.
#[derive(Clone, Copy, Debug, PartialEq, Eq)]
pub struct Failed;

/// Where bytes come from.
///
/// A source has a count of its faults, which never falls and which a caller cannot raise. It may tell the bytes
/// that it will still give; where it does not, the clauses on bytes say nothing of it.
pub trait Source {
    // The bytes that it will still give, where it tells them.
    ghost left: { Self → Option (List ℕ) };

    // How often it has failed. A count that has reached 2^64 - 1 stays there.
    ghost faults: { Self → ℕ };

    /// Places the next bytes at the front of `into`, which is not empty, and answers how many: at most
    /// `into.len()`, and 0 exactly at the end of the source. The count of faults stays as it was.
    ///
    /// # Errors
    ///
    /// `Failed` only where the count of faults rose in this call. Then no byte is taken from the source, and
    /// what `into` holds is not specified.
    fn read(&mut self, into: &mut [u8]) -> Result<usize, Failed>
        requires { 0 < length into.old }
        ensures bound { ReadsAtMost result into.new }
        ensures bytes { ReadConsumes (left self.old) (left self.new) result into.new }
        ensures cause { HasCause (faults self.old) (faults self.new) result };
}

/// Where bytes go.
///
/// A sink has a count of its faults, which never falls and which a caller cannot raise. It may tell the bytes
/// that it has taken; where it does not, the clauses on bytes say nothing of it.
pub trait Sink {
    // The bytes that it has taken, where it tells them.
    ghost held: { Self → Option (List ℕ) };

    // How often it has failed. A count that has reached 2^64 - 1 stays there.
    ghost faults: { Self → ℕ };

    /// Takes bytes from the front of `piece`, which is not empty, and answers how many: from 1 to
    /// `piece.len()`. The count of faults stays as it was.
    ///
    /// # Errors
    ///
    /// `Failed` only where the count of faults rose in this call. Then nothing is taken.
    fn write(&mut self, piece: &[u8]) -> Result<usize, Failed>
        requires { 0 < length piece.now }
        ensures some { IfOk result (λ n. 0 < n) }
        ensures bound { WritesAtMost result piece.now }
        ensures bytes { WriteAppends (held self.old) (held self.new) result piece.now }
        ensures cause { HasCause (faults self.old) (faults self.new) result };

    /// Sends what was taken on its way. It takes nothing, and the count of faults stays as it was.
    ///
    /// # Errors
    ///
    /// `Failed` only where the count of faults rose in this call.
    fn flush(&mut self) -> Result<(), Failed>
        ensures bytes { Keeps (held self.old) (held self.new) }
        ensures cause { HasCause (faults self.old) (faults self.new) result };
}
