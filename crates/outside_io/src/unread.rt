ghost use Rattle.std.specs.Prelude.{◌≡◌, ◌≤◌, length, take, drop, min};

use fil_base::Bytes;
use std::marker::Model;

/// Bytes that are read from the front on.
#[derive(Debug, Drop)]
pub(crate) struct Unread {
    bytes: Bytes,
    at: usize,
}

impl Model for Unread {
    ghost use Rattle.std.specs.Prelude.{List, ℕ, ◌≤◌, length, drop};

    ghost Value = { List ℕ };

    ghost view = { λ unread. drop unread.at unread.bytes };

    ghost invariant = { λ unread. unread.at ≤ length unread.bytes };
}

impl Unread {
    pub(crate) fn new(bytes: Bytes) -> Unread
        ensures { result ≡ bytes }
    {
        Unread { bytes, at: 0 }
    }

    /// Moves as many bytes as there are, the buffer holds and `most` allows.
    pub(crate) fn read(&mut self, buffer: &mut [u8], most: usize) -> usize
        ensures count { result ≡ min most (min (length buffer.old) (length self.old)) }
        ensures within { result ≤ length buffer.old }
        ensures moved { take result buffer.new ≡ take result self.old }
        ensures left { self.new ≡ drop result self.old }
    {
        let bytes = self.bytes.as_slice();
        let count = most.min(buffer.len()).min(bytes.len() - self.at);
        buffer[..count].copy_from_slice(&bytes[self.at..self.at + count]);
        self.at += count;
        count
    }
}
