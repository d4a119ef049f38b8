ghost use Rattle.std.specs.Prelude.{◌≡◌, ◌<◌, length, IfOk};
ghost use Rattle.std.specs.Io.{WritesAtMost};
ghost use Rattle.std.specs.Io.KnownBytes.{WriteAppends};
ghost use Rattle.outside_io.specs.Causes.{HasCause, faults_after};
ghost use Rattle.outside_io.specs.Sure.{IsSure};

use super::{Failed, Sink};
use std::io::Write;
use std::marker::Model;

/// A writer as a sink. Each of its errors is a fault, and so is a write that takes nothing of a piece that is not
/// empty.
#[derive(Debug, Drop)]
pub struct WriteSink<W: Write> {
    inner: W,
    faults: u64,
}

impl<W: Write> Model for WriteSink<W> {
    ghost use Rattle.outside_io.specs.WithFaults.{WithFaults, with_faults_code};

    ghost Value = { WithFaults W };

    ghost coded = { with_faults_code W.code };

    ghost view = { λ sink. record { inner = sink.inner; faults = sink.faults } };
}

impl<W: Write> WriteSink<W> {
    /// This writer, with no fault so far.
    pub fn new(inner: W) -> WriteSink<W>
        ensures { result ≡ record { inner = inner; faults = 0 } }
    {
        WriteSink { inner, faults: 0 }
    }
}

impl<W: Write> Sink for WriteSink<W> {
    ghost taken = { λ sink. W.contents sink.inner };

    ghost faults = { λ sink. sink.faults };

    ghost sure = { λ _. 0 };

    fn write(&mut self, bytes: &[u8]) -> Result<usize, Failed>
        ensures bound { WritesAtMost result bytes.now }
        ensures some { IfOk result (λ n. 0 < length bytes.now → 0 < n) }
        ensures bytes { WriteAppends (W.contents self.old.inner) (W.contents self.new.inner)
            result bytes.now }
        ensures cause { HasCause self.old.faults self.new.faults result }
        ensures sure { IsSure 0 0 self.old.faults self.new.faults (length bytes.now) result }

        ensures counted { self.new.faults ≡ faults_after self.old.faults result }
    {
        match self.inner.write(bytes) {
            Ok(count) if count > 0 || bytes.is_empty() => Ok(count),
            _ => {
                self.faults = self.faults.saturating_add(1);
                Err(Failed)
            }
        }
    }
}
