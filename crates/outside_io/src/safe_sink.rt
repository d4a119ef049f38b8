ghost use Rattle.std.specs.Prelude.{◌≡◌, ◌-◌, ◌<◌, ◌^◌, length, None, IfOk};
ghost use Rattle.std.specs.Io.{WritesAtMost};
ghost use Rattle.std.specs.Io.KnownBytes.{WriteAppends};
ghost use Rattle.outside_io.specs.Causes.{HasCause};
ghost use Rattle.outside_io.specs.Sure.{IsSure};

use super::{Failed, Sink};

/// A sink that takes each piece whole, keeps nothing and never fails.
#[derive(Clone, Copy, Debug)]
pub struct SafeSink;

impl SafeSink {
    pub fn new() -> SafeSink {
        SafeSink
    }
}

impl Sink for SafeSink {
    ghost taken = { λ _. None };

    ghost faults = { λ _. 0 };

    ghost sure = { λ _. 2 ^ 64 - 1 };

    fn write(&mut self, bytes: &[u8]) -> Result<usize, Failed>
        ensures bound { WritesAtMost result bytes.now }
        ensures some { IfOk result (λ n. 0 < length bytes.now → 0 < n) }
        ensures bytes { WriteAppends None None result bytes.now }
        ensures cause { HasCause 0 0 result }
        ensures sure { IsSure (2 ^ 64 - 1) (2 ^ 64 - 1) 0 0 (length bytes.now) result }

        ensures whole { result ≡ Ok (length bytes.now) }
    {
        Ok(bytes.len())
    }
}
