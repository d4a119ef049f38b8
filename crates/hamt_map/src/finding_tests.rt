use crate::finding::find_under;
use crate::load_tests::{FOUR, OVER_FOUR_AND_ONE, TwoBlocks, block};
use crate::loading::BELOW_ROOT;
use fil_base::Mem;
use sha2::{Digest, Sha256};
use std::test::Fail;

// The spelling of a key's value in the tree whose root is the first of two blocks.
fn found<'a>(rt: HostRuntime, base: &'a TwoBlocks, key: &[u8]) -> Mem<Option<&'a [u8]>> {
    let hash = Sha256::digest(key);
    find_under(rt.alloc(), base, BELOW_ROOT, base.first.cid(), &hash, key)
}

#[test]
fn values_are_found_in_buckets_and_below_links(rt: HostRuntime) -> Result<(), Fail> {
    let base = TwoBlocks {
        first: block(rt, OVER_FOUR_AND_ONE)?,
        second: block(rt, FOUR)?,
    };
    assert!(rt; found(rt, &base, b"u")? == Some(b"\x01"));
    assert!(rt; found(rt, &base, b"s")? == Some(b"\x02"));
    assert!(rt; found(rt, &base, b"fw")? == Some(b"\x05"));
    assert!(rt; found(rt, &base, b"a")?.is_none());
    Ok(())
}

// Only the first of its nodes is in the base.
#[test]
fn a_node_that_is_not_there_has_no_answer(rt: HostRuntime) -> Result<(), Fail> {
    let base = TwoBlocks {
        first: block(rt, OVER_FOUR_AND_ONE)?,
        second: block(rt, OVER_FOUR_AND_ONE)?,
    };
    assert!(rt; found(rt, &base, b"u")? == Some(b"\x01"));
    assert!(rt; found(rt, &base, b"s").is_err());
    Ok(())
}
