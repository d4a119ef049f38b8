use crate::state_tree::StateTree;
use crate::test_states::{TwoBlocks, block, codes};
use fil_base::{Cid, Failure};
use hamt_map::StateFault;
use std::test::Fail;

// The fault of the state whose root is the second of two blocks.
fn load(rt: HostRuntime, tree: &[u8], root: &[u8]) -> Result<Option<StateFault>, Fail> {
    let base = TwoBlocks {
        first: block(rt, tree)?,
        second: block(rt, root)?,
    };
    fault_at(rt, &base, base.second.cid())
}

fn fault_at(rt: HostRuntime, base: &TwoBlocks, root: &Cid) -> Result<Option<StateFault>, Fail> {
    let codes = codes(rt)?;
    match StateTree::load(rt.alloc(), base, root, &codes) {
        Err(Failure::Fault(fault)) => Ok(Some(fault)),
        _ => Ok(None),
    }
}

// The root of version 4 with a link to this tree, and one to the CID of the byte 8.
fn root_over(rt: HostRuntime, tree: &Cid) -> Result<Vec<u8>, Fail> {
    let mut root = Vec::from_slice(
        rt.alloc(),
        b"\x83\x04\xd8\x2a\x58\x27\x00\x01\x71\xa0\xe4\x02\x20",
    )?;
    root.extend_from_slice(tree.digest())?;
    root.extend_from_slice(b"\xd8\x2a\x46\x00\x01\x55\x00\x01\x08")?;
    Ok(root)
}

// Whether a root is refused for its form.
fn root_is_refused(rt: HostRuntime, bytes: &[u8]) -> Result<bool, Fail> {
    let root = block(rt, bytes)?;
    let fault = load(rt, EMPTY, bytes)?;
    Ok(is_form(&fault, root.cid()))
}

// Whether a tree is refused for its form.
fn tree_is_refused(rt: HostRuntime, bytes: &[u8]) -> Result<bool, Fail> {
    let tree = block(rt, bytes)?;
    let root = root_over(rt, tree.cid())?;
    let fault = load(rt, bytes, &root)?;
    Ok(is_form(&fault, tree.cid()))
}

// The actor that is missed in a tree.
fn missed_in(rt: HostRuntime, bytes: &[u8]) -> Result<Option<u64>, Fail> {
    let tree = block(rt, bytes)?;
    let root = root_over(rt, tree.cid())?;
    let fault = load(rt, bytes, &root)?;
    Ok(actor_in(&fault))
}

fn is_missing(fault: &Option<StateFault>, place: &Cid) -> bool {
    match fault {
        Some(StateFault::Missing(cid)) => cid == place,
        _ => false,
    }
}

fn is_form(fault: &Option<StateFault>, place: &Cid) -> bool {
    match fault {
        Some(StateFault::Form(cid)) => cid == place,
        _ => false,
    }
}

fn version_in(fault: &Option<StateFault>) -> Option<u64> {
    match fault {
        Some(StateFault::Version(version)) => Some(*version),
        _ => None,
    }
}

fn actor_in(fault: &Option<StateFault>) -> Option<u64> {
    match fault {
        Some(StateFault::Actor(id)) => Some(*id),
        _ => None,
    }
}

const EMPTY: &[u8] = b"\x82\x40\x80";

// The trees below are by a Python program. Each is the node of one pair.

// A key of protocol 1.
const PROTOCOL_1: &[u8] =
    b"\x82\x43\x08\x00\x00\x81\x81\x82\x42\x01\x01\x84\xd8\x2a\x46\x00\x01\x55\x00\x01\
    \x03\xd8\x2a\x46\x00\x01\x55\x00\x01\x09\x07\x42\x00\x05";

// An ID that is not in its shortest form.
const NOT_SHORTEST: &[u8] =
    b"\x82\x44\x20\x00\x00\x00\x81\x81\x82\x43\x00\x80\x00\x84\xd8\x2a\x46\x00\x01\x55\
    \x00\x01\x03\xd8\x2a\x46\x00\x01\x55\x00\x01\x09\x07\x42\x00\x05";

// An ID of 2^63.
const GREAT_ID: &[u8] =
    b"\x82\x43\x04\x00\x00\x81\x81\x82\x4b\x00\x80\x80\x80\x80\x80\x80\x80\x80\x80\x01\
    \x84\xd8\x2a\x46\x00\x01\x55\x00\x01\x03\xd8\x2a\x46\x00\x01\x55\x00\x01\x09\x07\
    \x42\x00\x05";

// A record of five items.
const FIVE_ITEMS: &[u8] =
    b"\x82\x42\x10\x00\x81\x81\x82\x43\x00\xac\x02\x85\xd8\x2a\x46\x00\x01\x55\x00\x01\
    \x03\xd8\x2a\x46\x00\x01\x55\x00\x01\x09\x07\x42\x00\x05\x00";

// A code that is no link.
const NO_CODE: &[u8] =
    b"\x82\x42\x10\x00\x81\x81\x82\x43\x00\xac\x02\x84\x00\xd8\x2a\x46\x00\x01\x55\x00\
    \x01\x09\x07\x42\x00\x05";

// A nonce below 0.
const NEGATIVE_NONCE: &[u8] =
    b"\x82\x42\x10\x00\x81\x81\x82\x43\x00\xac\x02\x84\xd8\x2a\x46\x00\x01\x55\x00\x01\
    \x03\xd8\x2a\x46\x00\x01\x55\x00\x01\x09\x20\x42\x00\x05";

// An amount with a leading zero.
const LEADING_ZERO: &[u8] =
    b"\x82\x42\x10\x00\x81\x81\x82\x43\x00\xac\x02\x84\xd8\x2a\x46\x00\x01\x55\x00\x01\
    \x03\xd8\x2a\x46\x00\x01\x55\x00\x01\x09\x07\x43\x00\x00\x05";

// Each is the node of some of the actors 1, 2 and 99.

// 1 is missing.
const WITHOUT_1: &[u8] =
    b"\x82\x44\x80\x00\x08\x00\x82\x81\x82\x42\x00\x63\x84\xd8\x2a\x46\x00\x01\x55\x00\
    \x01\x03\xd8\x2a\x46\x00\x01\x55\x00\x01\x09\x00\x40\x81\x82\x42\x00\x02\x84\xd8\
    \x2a\x46\x00\x01\x55\x00\x01\x02\xd8\x2a\x46\x00\x01\x55\x00\x01\x09\x00\x4d\x00\
    \x06\x76\x5c\x79\x3f\xa1\x00\x79\xcf\xff\xfe\xd4";

// 1 has the code of 2, and 2 is missing.
const OTHER_1: &[u8] =
    b"\x82\x43\x40\x08\x00\x82\x81\x82\x42\x00\x63\x84\xd8\x2a\x46\x00\x01\x55\x00\x01\
    \x03\xd8\x2a\x46\x00\x01\x55\x00\x01\x09\x00\x40\x81\x82\x42\x00\x01\x84\xd8\x2a\
    \x46\x00\x01\x55\x00\x01\x02\xd8\x2a\x46\x00\x01\x55\x00\x01\x09\x00\x40";

// 2 is missing, and 99 too.
const WITHOUT_2: &[u8] =
    b"\x82\x43\x40\x00\x00\x81\x81\x82\x42\x00\x01\x84\xd8\x2a\x46\x00\x01\x55\x00\x01\
    \x01\xd8\x2a\x46\x00\x01\x55\x00\x01\x09\x00\x40";

// 99 has the code of 1.
const OTHER_99: &[u8] =
    b"\x82\x44\x80\x40\x08\x00\x83\x81\x82\x42\x00\x63\x84\xd8\x2a\x46\x00\x01\x55\x00\
    \x01\x01\xd8\x2a\x46\x00\x01\x55\x00\x01\x09\x00\x40\x81\x82\x42\x00\x01\x84\xd8\
    \x2a\x46\x00\x01\x55\x00\x01\x01\xd8\x2a\x46\x00\x01\x55\x00\x01\x09\x00\x40\x81\
    \x82\x42\x00\x02\x84\xd8\x2a\x46\x00\x01\x55\x00\x01\x02\xd8\x2a\x46\x00\x01\x55\
    \x00\x01\x09\x00\x4d\x00\x06\x76\x5c\x79\x3f\xa1\x00\x79\xcf\xff\xfe\xd4";

#[test]
fn roots_are_judged(rt: HostRuntime) -> Result<(), Fail> {
    assert!(rt; root_is_refused(rt, b"\xff")?);
    assert!(rt; root_is_refused(rt, b"\x00")?);
    // another length, before the version
    assert!(rt; root_is_refused(rt, b"\x81\x06")?);
    // a version below 0
    assert!(rt; root_is_refused(rt, b"\x83\x20\x00\x00")?);
    // no links
    assert!(rt; root_is_refused(rt, b"\x83\x04\x00\x00")?);
    assert!(rt; root_is_refused(rt, b"\x83\x04\xd8\x2a\x46\x00\x01\x55\x00\x01\x08\x00")?);
    Ok(())
}

// The version is judged before the links.
#[test]
fn versions_are_judged(rt: HostRuntime) -> Result<(), Fail> {
    let fault = load(rt, EMPTY, b"\x83\x06\x00\x00")?;
    assert_eq!(rt; version_in(&fault), Some(6));
    let fault = load(rt, EMPTY, b"\x83\x03\x00\x00")?;
    assert_eq!(rt; version_in(&fault), Some(3));
    Ok(())
}

#[test]
fn missing_blocks_are_named(rt: HostRuntime) -> Result<(), Fail> {
    let tree = block(rt, EMPTY)?;
    let other = block(rt, b"\x80")?;
    let root = root_over(rt, other.cid())?;
    let fault = load(rt, EMPTY, &root)?;
    assert!(rt; is_missing(&fault, other.cid()));
    let base = TwoBlocks {
        first: tree,
        second: other,
    };
    let root = block(rt, &root)?;
    let fault = fault_at(rt, &base, root.cid())?;
    assert!(rt; is_missing(&fault, root.cid()));
    Ok(())
}

#[test]
fn keys_that_are_no_ids_are_refused(rt: HostRuntime) -> Result<(), Fail> {
    assert!(rt; tree_is_refused(rt, PROTOCOL_1)?);
    assert!(rt; tree_is_refused(rt, NOT_SHORTEST)?);
    assert!(rt; tree_is_refused(rt, GREAT_ID)?);
    Ok(())
}

#[test]
fn values_that_are_no_records_are_refused(rt: HostRuntime) -> Result<(), Fail> {
    assert!(rt; tree_is_refused(rt, FIVE_ITEMS)?);
    assert!(rt; tree_is_refused(rt, NO_CODE)?);
    assert!(rt; tree_is_refused(rt, NEGATIVE_NONCE)?);
    assert!(rt; tree_is_refused(rt, LEADING_ZERO)?);
    Ok(())
}

#[test]
fn the_first_actor_of_every_state_is_named(rt: HostRuntime) -> Result<(), Fail> {
    assert_eq!(rt; missed_in(rt, WITHOUT_1)?, Some(1));
    assert_eq!(rt; missed_in(rt, OTHER_1)?, Some(1));
    assert_eq!(rt; missed_in(rt, WITHOUT_2)?, Some(2));
    assert_eq!(rt; missed_in(rt, OTHER_99)?, Some(99));
    Ok(())
}
