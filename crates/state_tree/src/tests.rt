use crate::state_tree::{StateTree, state_blocks};
use crate::test_states::{TwoBlocks, account, block, cid, codes, id};
use fil_base::{Cid, Row};
use std::test::Fail;

// The blocks are by a Python program that spells HAMTs and DAG-CBOR by itself, with `hashlib`. The tree of the actors 1
// (init), 2 (reward, with a balance of 2*10^27 - 300) and 99 (an account), and the state's root.
const THREE: &[u8] =
    b"\x82\x44\x80\x40\x08\x00\x83\x81\x82\x42\x00\x63\x84\xd8\x2a\x46\x00\x01\x55\x00\
    \x01\x03\xd8\x2a\x46\x00\x01\x55\x00\x01\x09\x00\x40\x81\x82\x42\x00\x01\x84\xd8\
    \x2a\x46\x00\x01\x55\x00\x01\x01\xd8\x2a\x46\x00\x01\x55\x00\x01\x09\x00\x40\x81\
    \x82\x42\x00\x02\x84\xd8\x2a\x46\x00\x01\x55\x00\x01\x02\xd8\x2a\x46\x00\x01\x55\
    \x00\x01\x09\x00\x4d\x00\x06\x76\x5c\x79\x3f\xa1\x00\x79\xcf\xff\xfe\xd4";

const ROOT_OF_THREE: &[u8] =
    b"\x83\x04\xd8\x2a\x58\x27\x00\x01\x71\xa0\xe4\x02\x20\xd8\x80\x68\x09\xb5\x20\xdd\
    \xd7\x88\xf3\x3f\x81\x77\xd3\x69\x41\xc1\x28\x73\x82\x9b\xc3\x05\xba\x56\xa1\x13\
    \x87\x88\x52\x9d\x97\xd8\x2a\x46\x00\x01\x55\x00\x01\x08";

// The same with the account 300, which has sent 7 messages and has a balance of 5.
const FOUR: &[u8] =
    b"\x82\x44\x80\x40\x18\x00\x84\x81\x82\x42\x00\x63\x84\xd8\x2a\x46\x00\x01\x55\x00\
    \x01\x03\xd8\x2a\x46\x00\x01\x55\x00\x01\x09\x00\x40\x81\x82\x43\x00\xac\x02\x84\
    \xd8\x2a\x46\x00\x01\x55\x00\x01\x03\xd8\x2a\x46\x00\x01\x55\x00\x01\x09\x07\x42\
    \x00\x05\x81\x82\x42\x00\x01\x84\xd8\x2a\x46\x00\x01\x55\x00\x01\x01\xd8\x2a\x46\
    \x00\x01\x55\x00\x01\x09\x00\x40\x81\x82\x42\x00\x02\x84\xd8\x2a\x46\x00\x01\x55\
    \x00\x01\x02\xd8\x2a\x46\x00\x01\x55\x00\x01\x09\x00\x4d\x00\x06\x76\x5c\x79\x3f\
    \xa1\x00\x79\xcf\xff\xfe\xd4";

const ROOT_OF_FOUR: &[u8] =
    b"\x83\x04\xd8\x2a\x58\x27\x00\x01\x71\xa0\xe4\x02\x20\x27\x53\xdb\xa0\x6c\x9d\x51\
    \x48\x7c\x56\x95\x96\xf7\x00\x2b\x84\xc2\x0f\x02\xda\x37\x21\xbc\x34\x52\x65\x22\
    \xa3\xe5\x94\x3e\xb8\xd8\x2a\x46\x00\x01\x55\x00\x01\x08";

// That account alone.
const ONE: &[u8] =
    b"\x82\x42\x10\x00\x81\x81\x82\x43\x00\xac\x02\x84\xd8\x2a\x46\x00\x01\x55\x00\x01\
    \x03\xd8\x2a\x46\x00\x01\x55\x00\x01\x09\x07\x42\x00\x05";

const ROOT_OF_ONE: &[u8] =
    b"\x83\x04\xd8\x2a\x58\x27\x00\x01\x71\xa0\xe4\x02\x20\x26\xa5\x93\x93\x43\x82\x47\
    \x3e\x61\x21\x62\x3a\x32\x10\xe1\x7d\xbe\xbe\x2b\x33\x87\xbb\x45\x37\x1e\x03\xcd\
    \x6c\x95\xee\xc2\xe8\xd8\x2a\x46\x00\x01\x55\x00\x01\x08";

fn three(rt: HostRuntime) -> Result<TwoBlocks, Fail> {
    Ok(TwoBlocks {
        first: block(rt, THREE)?,
        second: block(rt, ROOT_OF_THREE)?,
    })
}

fn loaded(rt: HostRuntime, base: &TwoBlocks) -> Result<StateTree, Fail> {
    let codes = codes(rt)?;
    let tree = StateTree::load(rt.alloc(), base, base.second.cid(), &codes);
    Ok(tree.ok().ok_or("no state")?)
}

// The nonce of an actor, if it is there.
fn nonce_of(tree: &StateTree, base: &TwoBlocks, number: u64) -> Result<Option<u64>, Fail> {
    let actor = tree.actor(base, id(number)?)?;
    Ok(actor.map(|actor| actor.sequence))
}

fn put_300(rt: HostRuntime, tree: &mut StateTree, base: &TwoBlocks) -> Result<(), Fail> {
    put_account(rt, tree, base, 300, 7)
}

// An account with a balance of 5.
fn put_account(
    rt: HostRuntime,
    tree: &mut StateTree,
    base: &TwoBlocks,
    number: u64,
    nonce: u64,
) -> Result<(), Fail> {
    let actor = account(rt, nonce, 5)?;
    tree.put_actor(base, id(number)?, actor)?;
    Ok(())
}

#[test]
fn actors_are_put_read_and_deleted(rt: HostRuntime) -> Result<(), Fail> {
    let base = three(rt)?;
    let mut tree = loaded(rt, &base)?;
    assert_eq!(rt; nonce_of(&tree, &base, 2)?, Some(0));
    assert_eq!(rt; nonce_of(&tree, &base, 300)?, None);
    put_300(rt, &mut tree, &base)?;
    assert_eq!(rt; nonce_of(&tree, &base, 300)?, Some(7));
    tree.delete_actor(&base, id(300)?)?;
    assert_eq!(rt; nonce_of(&tree, &base, 300)?, None);
    Ok(())
}

#[test]
fn a_copy_is_changed_alone(rt: HostRuntime) -> Result<(), Fail> {
    let base = three(rt)?;
    let tree = loaded(rt, &base)?;
    let mut copy = tree.copy()?;
    put_300(rt, &mut copy, &base)?;
    assert_eq!(rt; nonce_of(&copy, &base, 300)?, Some(7));
    assert_eq!(rt; nonce_of(&tree, &base, 300)?, None);
    Ok(())
}

// A tree with a new account 99, and a copy of it.
fn copied(rt: HostRuntime, base: &TwoBlocks) -> Result<(StateTree, StateTree), Fail> {
    let mut tree = loaded(rt, base)?;
    put_account(rt, &mut tree, base, 99, 4)?;
    let copy = tree.copy()?;
    Ok((tree, copy))
}

#[test]
fn a_copy_keeps_what_was_put(rt: HostRuntime) -> Result<(), Fail> {
    let base = three(rt)?;
    let (mut tree, copy) = copied(rt, &base)?;
    tree.delete_actor(&base, id(99)?)?;
    assert_eq!(rt; nonce_of(&copy, &base, 99)?, Some(4));
    Ok(())
}

// With new accounts 99 and 300.
fn flushed(rt: HostRuntime, base: &TwoBlocks) -> Result<(StateTree, Cid), Fail> {
    let mut tree = loaded(rt, base)?;
    put_300(rt, &mut tree, base)?;
    put_account(rt, &mut tree, base, 99, 4)?;
    let (root, _) = tree.flush(base)?;
    Ok((tree, root))
}

// The root of the same actors, put in another order.
fn root_again(rt: HostRuntime, base: &TwoBlocks) -> Result<Cid, Fail> {
    let mut tree = loaded(rt, base)?;
    put_account(rt, &mut tree, base, 99, 4)?;
    put_account(rt, &mut tree, base, 300, 9)?;
    tree.flush(base)?;
    put_300(rt, &mut tree, base)?;
    let (root, _) = tree.flush(base)?;
    Ok(root)
}

#[test]
fn what_was_flushed_is_read(rt: HostRuntime) -> Result<(), Fail> {
    let base = three(rt)?;
    let (mut tree, _) = flushed(rt, &base)?;
    assert_eq!(rt; nonce_of(&tree, &base, 99)?, Some(4));
    assert_eq!(rt; nonce_of(&tree, &base, 300)?, Some(7));
    put_account(rt, &mut tree, &base, 300, 8)?;
    assert_eq!(rt; nonce_of(&tree, &base, 300)?, Some(8));
    Ok(())
}

#[test]
fn the_order_of_changes_does_not_count(rt: HostRuntime) -> Result<(), Fail> {
    let base = three(rt)?;
    let (_, root) = flushed(rt, &base)?;
    assert!(rt; root == root_again(rt, &base)?);
    Ok(())
}

#[test]
fn all_ids_and_balances_count(rt: HostRuntime) -> Result<(), Fail> {
    let base = three(rt)?;
    let mut tree = loaded(rt, &base)?;
    assert!(rt; tree.below(&base, id(100)?)?);
    assert!(rt; !tree.below(&base, id(99)?)?);
    assert!(rt; tree.within(&base, 300)?);
    assert!(rt; !tree.within(&base, 301)?);
    assert!(rt; !tree.within(&base, u128::MAX)?);
    put_300(rt, &mut tree, &base)?;
    assert!(rt; !tree.below(&base, id(300)?)?);
    assert!(rt; tree.within(&base, 295)?);
    assert!(rt; !tree.within(&base, 296)?);
    Ok(())
}

#[test]
fn new_blocks_are_written(rt: HostRuntime) -> Result<(), Fail> {
    let base = three(rt)?;
    let mut tree = loaded(rt, &base)?;
    put_300(rt, &mut tree, &base)?;
    let (root, blocks) = tree.flush(&base)?;
    let blocks = blocks.into_vec();
    assert_eq!(rt; blocks.len(), 2);
    assert_eq!(rt; blocks[0].bytes(), FOUR);
    assert_eq!(rt; blocks[1].bytes(), ROOT_OF_FOUR);
    assert!(rt; blocks[1].cid() == &root);
    tree.delete_actor(&base, id(300)?)?;
    let (root, blocks) = tree.flush(&base)?;
    assert!(rt; &root == base.second.cid());
    assert_eq!(rt; blocks.as_slice().len(), 0);
    Ok(())
}

#[test]
#[tactic(auto, using(crate::proofs::OneActor::one_distinct))]
fn a_state_of_one_actor_is_built(rt: HostRuntime) -> Result<(), Fail> {
    let actors = Row::of(vec![in rt.alloc(); (id(300)?, account(rt, 7, 5)?)]?);
    let (root, blocks) = state_blocks(rt.alloc(), &actors, &cid(rt, 8)?)?;
    let blocks = blocks.into_vec();
    assert_eq!(rt; blocks.len(), 2);
    assert_eq!(rt; blocks[0].bytes(), ONE);
    assert_eq!(rt; blocks[1].bytes(), ROOT_OF_ONE);
    assert!(rt; blocks[1].cid() == &root);
    Ok(())
}
