ghost use Rattle.std.specs.Prelude.{◌≡◌};
ghost use Rattle.fvm_run.specs.Writing.{Wrote};
ghost use Rattle.fvm_run.specs.Headline.{Says};
ghost use Rattle.fvm_run.specs.Lines.{check_line, cid_in_line, cid_in_refusal, form_line, line, refusal_line};

use crate::kind_name::{
    car_kind_name, cbor_kind_name, check_kind_name, field_kind_name, wasm_kind_name,
};
use crate::output::write_whole;
use crate::pieces::{write_name_line, write_number_line, write_pieces};
use crate::refusal::Refusal;
use crate::scenario_line::write_scenario_fault;
use crate::status::Status;
use fil_message::FormFault;
use itoa::Buffer;
use outside_io::{Failed, Sink};
use wasm_check::CheckFault;

const USAGE: &[u8] =
    b"usage: run [--workers W] [--engines E] | schedule [--engines E] [--seed S] | check | pack | generate S N | load S N\n";

/// Writes the line of a status, without taking memory. The CID in it, if there is one, comes as its letters.
pub fn say<E: Sink>(sink: &mut E, status: &Status, cid: &[u8])
    requires { cid.now ≡ cid_in_line status.now }
    ensures { Says (E.taken sink.old) (E.taken sink.new)
        (E.faults sink.old) (E.faults sink.new) (line status.now) }
{
    let _ = write_line(sink, status, cid);
}

fn write_line<E: Sink>(sink: &mut E, status: &Status, cid: &[u8]) -> Result<(), Failed>
    requires { cid.now ≡ cid_in_line status.now }
    ensures { Wrote (E.taken sink.old) (E.taken sink.new)
        (E.faults sink.old) (E.faults sink.new) (line status.now) result }
{
    match status {
        Status::Done => Ok(()),
        Status::Usage(_) => write_whole(sink, USAGE),
        Status::Refused(refusal) => write_refusal(sink, refusal, cid),
        Status::ReadFault => write_whole(sink, b"read fault\n"),
        Status::WriteFault => write_whole(sink, b"write fault\n"),
        Status::NoMemory => write_whole(sink, b"no memory\n"),
    }
}

fn write_refusal<E: Sink>(sink: &mut E, refusal: &Refusal, cid: &[u8]) -> Result<(), Failed>
    requires { cid.now ≡ cid_in_refusal refusal.now }
    ensures { Wrote (E.taken sink.old) (E.taken sink.new)
        (E.faults sink.old) (E.faults sink.new) (refusal_line refusal.now) result }
{
    match refusal {
        Refusal::TooLong => write_whole(sink, b"refused input TooLong\n"),
        Refusal::Car(fault) => {
            write_name_line(sink, b"refused car ", car_kind_name(fault.kind), fault.at)
        }
        Refusal::Cbor(fault) => {
            write_name_line(sink, b"refused cbor ", cbor_kind_name(fault.kind), fault.at)
        }
        Refusal::Form(fault) => write_form_fault(sink, *fault),
        Refusal::Scenario(fault) => write_scenario_fault(sink, fault, cid),
        Refusal::NotBuilt(tipset) => {
            write_number_line(sink, b"refused NotBuilt ", u64::from(*tipset))
        }
        Refusal::Wasm(fault) => {
            write_name_line(
                sink,
                b"refused wasm ",
                wasm_kind_name(fault.kind),
                u64::from(fault.at),
            )
        }
        Refusal::Check(fault) => write_check_fault(sink, *fault),
    }
}

fn write_form_fault<E: Sink>(sink: &mut E, fault: FormFault) -> Result<(), Failed>
    ensures { Wrote (E.taken sink.old) (E.taken sink.new)
        (E.faults sink.old) (E.faults sink.new) (form_line fault) result }
{
    match fault {
        FormFault::Field(fault) => write_name_line(
            sink,
            b"refused form ",
            field_kind_name(fault.kind),
            u64::from(fault.index),
        ),
        FormFault::Order(at) => write_number_line(sink, b"refused form Order ", u64::from(at)),
        FormFault::Total => write_whole(sink, b"refused form Total\n"),
    }
}

fn write_check_fault<E: Sink>(sink: &mut E, fault: CheckFault) -> Result<(), Failed>
    ensures { Wrote (E.taken sink.old) (E.taken sink.new)
        (E.faults sink.old) (E.faults sink.new) (check_line fault) result }
{
    let mut function = Buffer::new();
    let mut position = Buffer::new();
    let pieces = [
        b"refused check ".as_slice(),
        check_kind_name(fault.kind),
        b" ",
        function.format(fault.function).as_bytes(),
        b" ",
        position.format(fault.position).as_bytes(),
        b"\n",
    ];
    write_pieces(sink, &pieces)
}
