use super::sink;
use crate::ending::{Ending, refused};
use crate::line::say;
use crate::refusal::Refusal;
use car_file::{CarFault, CarKind};
use cbor_fields::{FieldFault, FieldKind};
use dag_cbor::{CborFault, CborKind};
use fil_base::{Bytes, Cid};
use fil_message::FormFault;
use gas_prices::PriceFault;
use hamt_map::StateFault;
use outside_io::Sink;
use scenario_form::{Place, ScenarioFault};
use std::test::Fail;

// Whether this is the line of a refusal.
fn has_line(rt: HostRuntime, refusal: Refusal, line: &[u8]) -> Result<bool, Fail> {
    let Ending { status, cid } = refused(rt.alloc(), refusal);
    let mut faults = sink(rt.alloc(), 7, &[])?;
    say(&mut faults, &status, cid.as_slice());
    Ok(faults.taken() == line)
}

fn has_scenario_line(rt: HostRuntime, fault: ScenarioFault, line: &[u8]) -> Result<bool, Fail> {
    has_line(rt, Refusal::Scenario(fault), line)
}

fn has_state_line(rt: HostRuntime, fault: StateFault, line: &[u8]) -> Result<bool, Fail> {
    has_scenario_line(rt, ScenarioFault::State(3, fault), line)
}

// A CID of version 0 (12 20 and the digest), which has no text in base 32.
fn old_cid(rt: HostRuntime) -> Result<Cid, Fail> {
    let digest = Bytes::copy_of(rt.alloc(), &[7; 32])?;
    Ok(Cid::new(0, 0x70, 0x12, digest).ok_or("no CID")?)
}

#[test]
fn refusals_of_files_have_a_line(rt: HostRuntime) -> Result<(), Fail> {
    let digest = Refusal::Car(CarFault {
        kind: CarKind::Digest,
        at: 61,
    });
    assert!(rt; has_line(rt, digest, b"refused car Digest 61\n")?);
    assert!(rt; has_line(rt, Refusal::TooLong, b"refused input TooLong\n")?);
    assert!(rt; has_line(rt, Refusal::NotBuilt(12), b"refused NotBuilt 12\n")?);
    let total = Refusal::Form(FormFault::Total);
    assert!(rt; has_line(rt, total, b"refused form Total\n")?);
    let order = Refusal::Form(FormFault::Order(2));
    assert!(rt; has_line(rt, order, b"refused form Order 2\n")?);
    Ok(())
}

#[test]
fn refusals_of_scenarios_have_a_line(rt: HostRuntime) -> Result<(), Fail> {
    let root = ScenarioFault::Root(old_cid(rt)?);
    assert!(rt; has_scenario_line(rt, root, b"refused scenario Root -\n")?);
    let cut = ScenarioFault::Cbor(CborFault {
        kind: CborKind::Cut,
        at: 18_446_744_073_709_551_615,
    });
    let line = b"refused scenario Cbor Cut 18446744073709551615\n";
    assert!(rt; has_scenario_line(rt, cut, line)?);
    let limit = ScenarioFault::Limit(5);
    assert!(rt; has_scenario_line(rt, limit, b"refused scenario Limit 5\n")?);
    let codes = ScenarioFault::Codes;
    assert!(rt; has_scenario_line(rt, codes, b"refused scenario Codes\n")?);
    let next = ScenarioFault::Next(0);
    assert!(rt; has_scenario_line(rt, next, b"refused scenario Next 0\n")?);
    let total = ScenarioFault::Total(7);
    assert!(rt; has_scenario_line(rt, total, b"refused scenario Total 7\n")?);
    Ok(())
}

#[test]
fn refusals_of_fields_have_their_place(rt: HostRuntime) -> Result<(), Fail> {
    let field = FieldFault {
        index: 8,
        kind: FieldKind::OutOfRange,
    };
    let nowhere = Place {
        tipset: None,
        block: None,
        message: None,
    };
    let line = b"refused scenario Form - - - OutOfRange 8\n";
    assert!(rt; has_scenario_line(rt, ScenarioFault::Form(nowhere, field), line)?);
    let message = Place {
        tipset: Some(1_023),
        block: Some(0),
        message: Some(9_999),
    };
    let line = b"refused scenario Form 1023 0 9999 OutOfRange 8\n";
    assert!(rt; has_scenario_line(rt, ScenarioFault::Form(message, field), line)?);
    Ok(())
}

#[test]
fn refusals_of_prices_have_a_line(rt: HostRuntime) -> Result<(), Fail> {
    let count = ScenarioFault::Price(PriceFault::Count(22));
    assert!(rt; has_scenario_line(rt, count, b"refused scenario Price Count 22\n")?);
    let zero = ScenarioFault::Price(PriceFault::Zero(1));
    assert!(rt; has_scenario_line(rt, zero, b"refused scenario Price Zero 1\n")?);
    let high = ScenarioFault::Price(PriceFault::TooHigh(4));
    assert!(rt; has_scenario_line(rt, high, b"refused scenario Price TooHigh 4\n")?);
    Ok(())
}

#[test]
fn refusals_of_states_have_a_line(rt: HostRuntime) -> Result<(), Fail> {
    let missing = StateFault::Missing(old_cid(rt)?);
    assert!(rt; has_state_line(rt, missing, b"refused scenario State 3 Missing\n")?);
    let form = StateFault::Form(old_cid(rt)?);
    assert!(rt; has_state_line(rt, form, b"refused scenario State 3 Form\n")?);
    let other = StateFault::NotCanonical(old_cid(rt)?, old_cid(rt)?);
    assert!(rt; has_state_line(rt, other, b"refused scenario State 3 NotCanonical\n")?);
    let version = StateFault::Version(5);
    assert!(rt; has_state_line(rt, version, b"refused scenario State 3 Version\n")?);
    let actor = StateFault::Actor(99);
    assert!(rt; has_state_line(rt, actor, b"refused scenario State 3 Actor\n")?);
    Ok(())
}
