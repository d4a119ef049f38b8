ghost use Rattle.std.specs.Prelude.{◌≡◌};
ghost use Rattle.std.specs.Io.{ReadsAtMost};
ghost use Rattle.std.specs.Io.KnownBytes.{ReadConsumes};
ghost use Rattle.outside_io.specs.Causes.{HasCause, faults_after};

use super::{Failed, Source};
use std::io::Read;
use std::marker::Model;

/// A reader as a source. Each of its errors is a fault, an interrupted read too.
#[derive(Debug, Drop)]
pub struct ReadSource<R: Read> {
    inner: R,
    faults: u64,
}

impl<R: Read> Model for ReadSource<R> {
    ghost use Rattle.outside_io.specs.WithFaults.{WithFaults, with_faults_code};

    ghost Value = { WithFaults R };

    ghost coded = { with_faults_code R.code };

    ghost view = { λ source. record { inner = source.inner; faults = source.faults } };
}

impl<R: Read> ReadSource<R> {
    /// This reader, with no fault so far.
    pub fn new(inner: R) -> ReadSource<R>
        ensures { result ≡ record { inner = inner; faults = 0 } }
    {
        ReadSource { inner, faults: 0 }
    }
}

impl<R: Read> Source for ReadSource<R> {
    ghost left = { λ source. R.remaining source.inner };

    ghost faults = { λ source. source.faults };

    fn read(&mut self, buffer: &mut [u8]) -> Result<usize, Failed>
        ensures bound { ReadsAtMost result buffer.new }
        ensures bytes { ReadConsumes (R.remaining self.old.inner) (R.remaining self.new.inner)
            result buffer.new }
        ensures cause { HasCause self.old.faults self.new.faults result }

        ensures counted { self.new.faults ≡ faults_after self.old.faults result }
    {
        match self.inner.read(buffer) {
            Ok(count) => Ok(count),
            Err(_) => {
                self.faults = self.faults.saturating_add(1);
                Err(Failed)
            }
        }
    }
}
