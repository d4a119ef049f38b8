ghost use Rattle.std.specs.Prelude.{List, ℕ, ◌<◌, length, IfOk};
ghost use Rattle.std.specs.declared.option.Option.{Option};
ghost use Rattle.std.specs.Io.{WritesAtMost};
ghost use Rattle.std.specs.Io.KnownBytes.{WriteAppends};
ghost use Rattle.outside_io.specs.Causes.{HasCause};
ghost use Rattle.outside_io.specs.Sure.{IsSure};

use super::Failed;

/// Where bytes go.
pub trait Sink {
    // The bytes that it took so far, where the sink tells them.
    ghost taken: { Self → Option (List ℕ) };

    // How often it failed. The count never falls, and stands still at 2^64 - 1.
    ghost faults: { Self → ℕ };

    // How many bytes it surely takes from now on: 0 where the sink does not tell.
    ghost sure: { Self → ℕ };

    /// Takes bytes from the front of the piece, and says how many: at least one of a piece that is not empty. It fails
    /// only where its count of faults rose in this call, and then it took nothing.
    fn write(&mut self, bytes: &[u8]) -> Result<usize, Failed>
        ensures bound { WritesAtMost result bytes.now }
        ensures some { IfOk result (λ n. 0 < length bytes.now → 0 < n) }
        ensures bytes { WriteAppends (taken self.old) (taken self.new) result bytes.now }
        ensures cause { HasCause (faults self.old) (faults self.new) result }
        ensures sure { IsSure (sure self.old) (sure self.new) (faults self.old) (faults self.new)
            (length bytes.now) result };
}
