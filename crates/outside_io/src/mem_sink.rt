ghost use Rattle.std.specs.Prelude.{◌≡◌, ◌<◌, ◌↔◌, [], Some, length, IsErr, IfOk, OnOk};
ghost use Rattle.std.specs.Io.{WritesAtMost};
ghost use Rattle.std.specs.Io.KnownBytes.{WriteAppends};
ghost use Rattle.outside_io.specs.Causes.{HasCause, one_more};
ghost use Rattle.outside_io.specs.SinkState.{FailsToWrite, write_count, after_write, sure_bytes};
ghost use Rattle.outside_io.specs.Sure.{IsSure};

use super::failing_calls::FailingCalls;
use super::{Failed, Sink};
use fil_base::{Mem, Row};
use std::alloc::Global;
use std::marker::Model;

/// A sink in memory. It takes at most so many bytes a call and in all, and fails in the calls whose numbers it is
/// given, and where it is full.
#[derive(Debug, Drop)]
pub struct MemSink {
    taken: Vec<u8>,
    piece: usize,
    room: usize,
    calls: FailingCalls,
    faults: u64,
}

impl Model for MemSink {
    ghost use Rattle.std.specs.Prelude.{◌<◌, ◌≤◌, vec_len, vec_capacity};
    ghost use Rattle.outside_io.specs.SinkState.{SinkState};

    ghost Value = { SinkState };

    ghost view = { λ sink. record {
      taken = sink.taken.items;
      piece = sink.piece;
      room = sink.room;
      plan = sink.calls;
      faults = sink.faults;
    } };

    // The room was reserved, so a write takes no memory.
    ghost invariant = { λ sink.
        (0 < sink.piece) × (vec_len sink.taken ≤ sink.room) × (sink.room ≤ vec_capacity sink.taken) };
}

impl MemSink {
    /// An empty sink with room for `room` bytes, which is reserved here: a write takes no memory. It takes at most
    /// `piece` bytes a call. The calls of `write` are numbered from 0 on, and after call 2^64 - 1 the number stands
    /// still; those in `failing` fail.
    pub fn new(alloc: Global, piece: usize, failing: Row<u64>, room: usize) -> Mem<MemSink>
        requires { 0 < piece }
        ensures taken { IfOk result (λ sink. sink.taken ≡ []) }
        ensures piece { IfOk result (λ sink. sink.piece ≡ piece) }
        ensures room { IfOk result (λ sink. sink.room ≡ room) }
        ensures failing { IfOk result (λ sink. sink.plan.failing ≡ failing) }
        ensures next { IfOk result (λ sink. sink.plan.next ≡ 0) }
        ensures faults { IfOk result (λ sink. sink.faults ≡ 0) }
    {
        Ok(MemSink {
            taken: Vec::with_capacity(alloc, room)?,
            piece,
            room,
            calls: FailingCalls::new(failing),
            faults: 0,
        })
    }

    /// The bytes that it took, the first of them first.
    pub fn taken(&self) -> &[u8]
        ensures { result.now ≡ self.now.taken }
    {
        self.taken.as_slice()
    }

    fn fail(&mut self) -> Failed
        ensures { self.new ≡ record self.old { faults = one_more self.old.faults } }
    {
        self.faults = self.faults.saturating_add(1);
        Failed
    }
}

impl Sink for MemSink {
    ghost taken = { λ sink. Some sink.taken };

    ghost faults = { λ sink. sink.faults };

    ghost sure = { sure_bytes };

    fn write(&mut self, bytes: &[u8]) -> Result<usize, Failed>
        ensures bound { WritesAtMost result bytes.now }
        ensures some { IfOk result (λ n. 0 < length bytes.now → 0 < n) }
        ensures bytes { WriteAppends (Some self.old.taken) (Some self.new.taken) result bytes.now }
        ensures cause { HasCause self.old.faults self.new.faults result }
        ensures sure { IsSure (sure_bytes self.old) (sure_bytes self.new) self.old.faults self.new.faults
            (length bytes.now) result }

        ensures fails { IsErr result ↔ FailsToWrite self.old (length bytes.now) }
        ensures count { IfOk result (λ n. n ≡ write_count self.old (length bytes.now)) }
        ensures after { self.new ≡ after_write self.old bytes.now result }
    {
        if self.calls.next_fails() {
            return Err(self.fail());
        }
        let free = self.room - self.taken.len();
        if free == 0 {
            if !bytes.is_empty() {
                return Err(self.fail());
            }
        }
        let count = self.piece.min(bytes.len()).min(free);
        match self.taken.extend_from_slice(&bytes[..count]) {
            Ok(()) => Ok(count),
            Err(_) => unreachable!(),
        }
    }
}
