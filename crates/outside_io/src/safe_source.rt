ghost use Rattle.std.specs.Prelude.{◌≡◌, length, take, drop, min, IsOkAnd};
ghost use Rattle.std.specs.Io.{ReadsAtMost};
ghost use Rattle.std.specs.Io.KnownBytes.{ReadConsumes};
ghost use Rattle.outside_io.specs.Causes.{HasCause};

use super::unread::Unread;
use super::{Failed, Source};
use fil_base::Bytes;
use std::marker::Model;

/// A source in memory that never fails.
#[derive(Debug, Drop)]
pub struct SafeSource {
    unread: Unread,
}

impl Model for SafeSource {
    ghost use Rattle.std.specs.Prelude.{List, ℕ};

    ghost Value = { List ℕ };

    ghost view = { λ source. source.unread };
}

impl SafeSource {
    /// These bytes. Each call fills the buffer or empties the source.
    pub fn new(bytes: Bytes) -> SafeSource
        ensures { result ≡ bytes }
    {
        SafeSource {
            unread: Unread::new(bytes),
        }
    }
}

impl Source for SafeSource {
    ghost use Rattle.std.specs.Prelude.{Some};

    ghost left = { λ source. Some source };

    ghost faults = { λ _. 0 };

    fn read(&mut self, buffer: &mut [u8]) -> Result<usize, Failed>
        ensures bound { ReadsAtMost result buffer.new }
        ensures bytes { ReadConsumes (Some self.old) (Some self.new) result buffer.new }
        ensures cause { HasCause 0 0 result }

        ensures count { IsOkAnd result (λ n. n ≡ min (length buffer.old) (length self.old)) }
    {
        let room = buffer.len();
        Ok(self.unread.read(buffer, room))
    }
}
