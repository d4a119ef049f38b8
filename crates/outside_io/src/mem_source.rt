ghost use Rattle.std.specs.Prelude.{◌≡◌, ◌<◌, ◌↔◌, length, IsErr, IfOk};
ghost use Rattle.std.specs.Io.{ReadsAtMost};
ghost use Rattle.std.specs.Io.KnownBytes.{ReadConsumes};
ghost use Rattle.outside_io.specs.CallPlan.{IsNextToFail};
ghost use Rattle.outside_io.specs.Causes.{HasCause};
ghost use Rattle.outside_io.specs.SourceState.{read_count, after_read};

use super::failing_calls::FailingCalls;
use super::unread::Unread;
use super::{Failed, Source};
use fil_base::{Bytes, Row};
use std::marker::Model;

/// A source in memory. It moves at most so many bytes a call, and fails in the calls whose numbers it is given.
#[derive(Debug, Drop)]
pub struct MemSource {
    unread: Unread,
    piece: usize,
    calls: FailingCalls,
    faults: u64,
}

impl Model for MemSource {
    ghost use Rattle.std.specs.Prelude.{◌<◌};
    ghost use Rattle.outside_io.specs.SourceState.{SourceState};

    ghost Value = { SourceState };

    ghost view = { λ source. record {
      left = source.unread;
      piece = source.piece;
      plan = source.calls;
      faults = source.faults;
    } };

    ghost invariant = { λ source. 0 < source.piece };
}

impl MemSource {
    /// These bytes, at most `piece` of them a call. The calls of `read` are numbered from 0 on, and after call 2^64 - 1
    /// the number stands still; those in `failing` fail.
    pub fn new(bytes: Bytes, piece: usize, failing: Row<u64>) -> MemSource
        requires { 0 < piece }
        ensures left { result.left ≡ bytes }
        ensures piece { result.piece ≡ piece }
        ensures failing { result.plan.failing ≡ failing }
        ensures next { result.plan.next ≡ 0 }
        ensures faults { result.faults ≡ 0 }
    {
        MemSource {
            unread: Unread::new(bytes),
            piece,
            calls: FailingCalls::new(failing),
            faults: 0,
        }
    }
}

impl Source for MemSource {
    ghost use Rattle.std.specs.Prelude.{Some};

    ghost left = { λ source. Some source.left };

    ghost faults = { λ source. source.faults };

    fn read(&mut self, buffer: &mut [u8]) -> Result<usize, Failed>
        ensures bound { ReadsAtMost result buffer.new }
        ensures bytes { ReadConsumes (Some self.old.left) (Some self.new.left) result buffer.new }
        ensures cause { HasCause self.old.faults self.new.faults result }

        ensures fails { IsErr result ↔ IsNextToFail self.old.plan }
        ensures count { IfOk result (λ n. n ≡ read_count self.old (length buffer.old)) }
        ensures after { self.new ≡ after_read self.old result }
    {
        if self.calls.next_fails() {
            self.faults = self.faults.saturating_add(1);
            return Err(Failed);
        }
        Ok(self.unread.read(buffer, self.piece))
    }
}
