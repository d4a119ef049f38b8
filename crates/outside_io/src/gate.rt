use std::sync::Wait;
use std::thread::Threads;

/// An observer of evaluations. A call may wait.
pub trait Gate: Sync {
    /// Called once an evaluation, with its number, before its first event.
    fn arrive<R: Threads + Wait + Sync>(&self, rt: &R, evaluation: u32);

    /// Called right after each lease of an engine that the evaluation takes, while it holds the lease. `pages` is the
    /// number of pages that the leased engine's memory has then: 0 where the engine was never started, else what its
    /// last run left.
    fn holding<R: Threads + Wait + Sync>(&self, rt: &R, evaluation: u32, pages: u32);
}

/// A gate that does nothing.
#[derive(Clone, Copy, Debug)]
pub struct NoGate;

impl Gate for NoGate {
    fn arrive<R: Threads + Wait + Sync>(&self, _: &R, _: u32) {}

    fn holding<R: Threads + Wait + Sync>(&self, _: &R, _: u32, _: u32) {}
}
