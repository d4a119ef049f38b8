ghost use Rattle.std.specs.Prelude.{◌≡◌, ◌⊎◌, [], IfOk};
ghost use Rattle.fvm_run.specs.Lines.{cid_in_fault, cid_in_line, cid_in_refusal, cid_letters};

use crate::refusal::Refusal;
use crate::status::Status;
use cid_core::cid_text;
use fil_base::{Bytes, Cid, Mem};
use scenario_form::ScenarioFault;
use std::alloc::Global;

/// How a command ends, with what is needed to print the line of its status without memory.
#[derive(Debug, Drop)]
pub struct Ending {
    pub status: Status,

    /// The letters of the CID in the line; none where no CID stands in it.
    pub cid: Bytes,
}

/// The input is refused, or there is no memory for the letters of the CID in the refusal's line.
pub fn refused(alloc: Global, refusal: Refusal) -> Ending
    ensures status { (result.status ≡ Status.Refused refusal) ⊎ (result.status ≡ Status.NoMemory) }
    ensures cid { result.cid ≡ cid_in_line result.status }
{
    match refusal_cid(alloc, &refusal) {
        Ok(cid) => Ending {
            status: Status::Refused(refusal),
            cid,
        },
        Err(_) => no_cid(alloc, Status::NoMemory),
    }
}

/// An end with no CID in its line. It takes no memory.
pub fn no_cid(alloc: Global, status: Status) -> Ending
    requires { cid_in_line status ≡ [] }
    ensures status { result.status ≡ status }
    ensures cid { result.cid ≡ cid_in_line status }
{
    Ending {
        status,
        cid: nothing(alloc),
    }
}

/// No bytes. It takes no memory.
fn nothing(alloc: Global) -> Bytes
    ensures { result ≡ [] }
{
    Bytes::of(Vec::new(alloc))
}

fn refusal_cid(alloc: Global, refusal: &Refusal) -> Mem<Bytes>
    ensures { IfOk result (λ letters. letters ≡ cid_in_refusal refusal.now) }
{
    match refusal {
        Refusal::Scenario(fault) => fault_cid(alloc, fault),
        _ => Ok(nothing(alloc)),
    }
}

fn fault_cid(alloc: Global, fault: &ScenarioFault) -> Mem<Bytes>
    ensures { IfOk result (λ letters. letters ≡ cid_in_fault fault.now) }
{
    match fault {
        ScenarioFault::Root(cid) => letters_of(alloc, cid),
        _ => Ok(nothing(alloc)),
    }
}

/// The text of a CID, and `-` for one that has none.
fn letters_of(alloc: Global, cid: &Cid) -> Mem<Bytes>
    ensures { IfOk result (λ letters. letters ≡ cid_letters cid.now) }
{
    if cid.version() == 1 {
        cid_text(alloc, cid)
    } else {
        Bytes::copy_of(alloc, b"-")
    }
}
