ghost use Rattle.std.specs.Prelude.{◌≡◌, ◌↔◌, IsTrue};
ghost use Rattle.outside_io.specs.CallPlan.{IsNextToFail, after_call};

use fil_base::Row;
use std::marker::Model;

/// Which calls are to fail, by their numbers from 0 on, and the number of the next call.
#[derive(Debug, Drop)]
pub(crate) struct FailingCalls {
    failing: Row<u64>,
    next: u64,
}

impl Model for FailingCalls {
    ghost use Rattle.outside_io.specs.CallPlan.{CallPlan};

    ghost Value = { CallPlan };

    ghost view = { λ calls. record { failing = calls.failing; next = calls.next } };
}

impl FailingCalls {
    pub(crate) fn new(failing: Row<u64>) -> FailingCalls
        ensures failing { result.failing ≡ failing }
        ensures next { result.next ≡ 0 }
    {
        FailingCalls { failing, next: 0 }
    }

    /// Counts a call, and says whether it is to fail. Each call looks through the whole list.
    pub(crate) fn next_fails(&mut self) -> bool
        ensures listed { IsTrue result ↔ IsNextToFail self.old }
        ensures counted { self.new ≡ after_call self.old }
    {
        let fails = self.failing.as_slice().contains(&self.next);
        self.next = self.next.saturating_add(1);
        fails
    }
}
