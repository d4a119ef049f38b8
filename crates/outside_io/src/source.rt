ghost use Rattle.std.specs.Prelude.{List, ℕ};
ghost use Rattle.std.specs.declared.option.Option.{Option};
ghost use Rattle.std.specs.Io.{ReadsAtMost};
ghost use Rattle.std.specs.Io.KnownBytes.{ReadConsumes};
ghost use Rattle.outside_io.specs.Causes.{HasCause};

use super::Failed;

/// Where bytes come from.
pub trait Source {
    // The bytes still to come, where the source tells them.
    ghost left: { Self → Option (List ℕ) };

    // How often it failed. The count never falls, and stands still at 2^64 - 1.
    ghost faults: { Self → ℕ };

    /// Moves bytes from the front of what is left to the front of the buffer, and says how many. For a buffer that is
    /// not empty, 0 is the end. It fails only where its count of faults rose in this call, and then no byte is lost.
    fn read(&mut self, buffer: &mut [u8]) -> Result<usize, Failed>
        ensures bound { ReadsAtMost result buffer.new }
        ensures bytes { ReadConsumes (left self.old) (left self.new) result buffer.new }
        ensures cause { HasCause (faults self.old) (faults self.new) result };
}
