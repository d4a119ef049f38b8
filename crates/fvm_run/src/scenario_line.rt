ghost use Rattle.std.specs.Prelude.{◌≡◌};
ghost use Rattle.fvm_run.specs.Writing.{Wrote};
ghost use Rattle.fvm_run.specs.Lines.{cid_in_fault, number_letters, place_line, price_line, scenario_line};
ghost use Rattle.scenario_form.specs.declared.fault.ScenarioFault.TheVariants.{State as BadState};

use crate::kind_name::{cbor_kind_name, field_kind_name, state_kind_name};
use crate::output::write_whole;
use crate::pieces::{write_name_line, write_number_line, write_pieces};
use cbor_fields::FieldFault;
use gas_prices::PriceFault;
use hamt_map::StateFault;
use itoa::Buffer;
use outside_io::{Failed, Sink};
use scenario_form::{Place, ScenarioFault};

/// Writes the line of a fault of a scenario. The CID in it, if there is one, comes as its letters.
pub fn write_scenario_fault<E: Sink>(
    sink: &mut E,
    fault: &ScenarioFault,
    cid: &[u8],
) -> Result<(), Failed>
    requires { cid.now ≡ cid_in_fault fault.now }
    ensures { Wrote (E.taken sink.old) (E.taken sink.new)
        (E.faults sink.old) (E.faults sink.new) (scenario_line fault.now) result }
{
    match fault {
        ScenarioFault::Root(_) => {
            write_pieces(sink, &[b"refused scenario Root ".as_slice(), cid, b"\n"])
        }
        ScenarioFault::Cbor(fault) => {
            let name = cbor_kind_name(fault.kind);
            write_name_line(sink, b"refused scenario Cbor ", name, fault.at)
        }
        ScenarioFault::Form(place, fault) => write_field_fault(sink, place, fault),
        ScenarioFault::Price(fault) => write_price_fault(sink, *fault),
        ScenarioFault::Limit(n) => {
            write_number_line(sink, b"refused scenario Limit ", u64::from(*n))
        }
        ScenarioFault::Codes => write_whole(sink, b"refused scenario Codes\n"),
        ScenarioFault::State(tipset, fault) => write_state_fault(sink, *tipset, fault),
        ScenarioFault::Next(tipset) => {
            write_number_line(sink, b"refused scenario Next ", u64::from(*tipset))
        }
        ScenarioFault::Total(tipset) => {
            write_number_line(sink, b"refused scenario Total ", u64::from(*tipset))
        }
    }
}

fn write_field_fault<E: Sink>(sink: &mut E, place: &Place, fault: &FieldFault) -> Result<(), Failed>
    ensures { Wrote (E.taken sink.old) (E.taken sink.new)
        (E.faults sink.old) (E.faults sink.new) (place_line place.now fault.now) result }
{
    let mut tipset = Buffer::new();
    let mut block = Buffer::new();
    let mut message = Buffer::new();
    let mut index = Buffer::new();
    let pieces = [
        b"refused scenario Form ".as_slice(),
        letters_of(place.tipset, &mut tipset),
        b" ",
        letters_of(place.block, &mut block),
        b" ",
        letters_of(place.message, &mut message),
        b" ",
        field_kind_name(fault.kind),
        b" ",
        index.format(fault.index).as_bytes(),
        b"\n",
    ];
    write_pieces(sink, &pieces)
}

/// The digits of a number, which are put into the buffer, and `-` for none.
fn letters_of(number: Option<u32>, buffer: &mut Buffer) -> &[u8]
    ensures { result.now ≡ number_letters number }
{
    match number {
        Some(number) => buffer.format(number).as_bytes(),
        None => b"-",
    }
}

fn write_price_fault<E: Sink>(sink: &mut E, fault: PriceFault) -> Result<(), Failed>
    ensures { Wrote (E.taken sink.old) (E.taken sink.new)
        (E.faults sink.old) (E.faults sink.new) (price_line fault) result }
{
    match fault {
        PriceFault::Count(n) => {
            write_number_line(sink, b"refused scenario Price Count ", u64::from(n))
        }
        PriceFault::Zero(n) => {
            write_number_line(sink, b"refused scenario Price Zero ", u64::from(n))
        }
        PriceFault::TooHigh(n) => {
            write_number_line(sink, b"refused scenario Price TooHigh ", u64::from(n))
        }
    }
}

fn write_state_fault<E: Sink>(sink: &mut E, tipset: u32, fault: &StateFault) -> Result<(), Failed>
    ensures { Wrote (E.taken sink.old) (E.taken sink.new)
        (E.faults sink.old) (E.faults sink.new) (scenario_line (BadState tipset fault.now)) result }
{
    let mut digits = Buffer::new();
    let pieces = [
        b"refused scenario State ".as_slice(),
        digits.format(tipset).as_bytes(),
        b" ",
        state_kind_name(fault),
        b"\n",
    ];
    write_pieces(sink, &pieces)
}
