ghost use Rattle.std.specs.Prelude.{◌≡◌, ◌∷◌, [], IfOk, map};

use crate::{flush_state, put_all_new};
use cid_core::{Block, BlockSource};
use fil_base::{ActorId, Bytes, Cid, Row, Token};
use gas_prices::Codes;
use init_names::Names;
use state_tree::{Actor, StateTree, state_blocks};
use std::test::Fail;

// The blocks are by a Python program that spells HAMTs and DAG-CBOR by itself, with `hashlib`. The tree of no names, the
// init actor's state over it with the next ID 100 and the network `test`, the tree of the actors 1 (init, with this head),
// 2 (reward, with a balance of 300) and 99 (an account), and the state's root.
const NO_NAMES: &[u8] = b"\x82\x40\x80";

const INIT_STATE: &[u8] =
    b"\x83\xd8\x2a\x58\x27\x00\x01\x71\xa0\xe4\x02\x20\x18\xfe\x6a\xcc\x61\xa3\xa3\x6b\
    \x0c\x37\x3c\x4a\x3a\x8e\xa6\x4b\x81\x2b\xf2\xca\x9b\x52\x80\x50\x90\x9c\x78\xd4\
    \x08\x55\x8a\x0c\x18\x64\x64\x74\x65\x73\x74";

const ACTORS: &[u8] =
    b"\x82\x44\x80\x40\x08\x00\x83\x81\x82\x42\x00\x63\x84\xd8\x2a\x46\x00\x01\x55\x00\
    \x01\x03\xd8\x2a\x46\x00\x01\x55\x00\x01\x09\x00\x40\x81\x82\x42\x00\x01\x84\xd8\
    \x2a\x46\x00\x01\x55\x00\x01\x01\xd8\x2a\x58\x27\x00\x01\x71\xa0\xe4\x02\x20\xc7\
    \x0e\xe3\x8c\x97\xd8\x45\x71\x70\xab\x59\x0c\x6a\x94\x09\xd9\x9a\xe2\x7d\x45\xd7\
    \x32\x7f\xe9\x0b\x75\x98\x26\xbd\x23\xe1\xf5\x00\x40\x81\x82\x42\x00\x02\x84\xd8\
    \x2a\x46\x00\x01\x55\x00\x01\x02\xd8\x2a\x46\x00\x01\x55\x00\x01\x09\x00\x43\x00\
    \x01\x2c";

const ROOT: &[u8] =
    b"\x83\x04\xd8\x2a\x58\x27\x00\x01\x71\xa0\xe4\x02\x20\x2d\x8e\x1b\xdf\x84\x23\xa2\
    \x9a\x48\x4e\x3c\x3d\x94\x77\x20\x4b\x84\x6b\x15\x73\xe6\x4b\x8b\x1d\xfa\xbf\xe2\
    \xc5\x7b\x76\x8d\x39\xd8\x2a\x46\x00\x01\x55\x00\x01\x08";

// The tree and the root where the reward actor has a balance of 5.
const LESS_ACTORS: &[u8] =
    b"\x82\x44\x80\x40\x08\x00\x83\x81\x82\x42\x00\x63\x84\xd8\x2a\x46\x00\x01\x55\x00\
    \x01\x03\xd8\x2a\x46\x00\x01\x55\x00\x01\x09\x00\x40\x81\x82\x42\x00\x01\x84\xd8\
    \x2a\x46\x00\x01\x55\x00\x01\x01\xd8\x2a\x58\x27\x00\x01\x71\xa0\xe4\x02\x20\xc7\
    \x0e\xe3\x8c\x97\xd8\x45\x71\x70\xab\x59\x0c\x6a\x94\x09\xd9\x9a\xe2\x7d\x45\xd7\
    \x32\x7f\xe9\x0b\x75\x98\x26\xbd\x23\xe1\xf5\x00\x40\x81\x82\x42\x00\x02\x84\xd8\
    \x2a\x46\x00\x01\x55\x00\x01\x02\xd8\x2a\x46\x00\x01\x55\x00\x01\x09\x00\x42\x00\
    \x05";

const LESS_ROOT: &[u8] =
    b"\x83\x04\xd8\x2a\x58\x27\x00\x01\x71\xa0\xe4\x02\x20\x11\xdc\x1c\xc6\x09\x35\x5e\
    \x24\x26\xc5\x3a\xdc\x9e\x4c\x50\x5f\xb3\xb2\x06\x61\xe5\x1d\x7e\x83\x8e\xe7\xd1\
    \xa8\xa1\x06\x36\x2a\xd8\x2a\x46\x00\x01\x55\x00\x01\x08";

// The same as the first, where the init actor has another head.
const OTHER_HEAD_ACTORS: &[u8] =
    b"\x82\x44\x80\x40\x08\x00\x83\x81\x82\x42\x00\x63\x84\xd8\x2a\x46\x00\x01\x55\x00\
    \x01\x03\xd8\x2a\x46\x00\x01\x55\x00\x01\x09\x00\x40\x81\x82\x42\x00\x01\x84\xd8\
    \x2a\x46\x00\x01\x55\x00\x01\x01\xd8\x2a\x46\x00\x01\x55\x00\x01\x09\x00\x40\x81\
    \x82\x42\x00\x02\x84\xd8\x2a\x46\x00\x01\x55\x00\x01\x02\xd8\x2a\x46\x00\x01\x55\
    \x00\x01\x09\x00\x43\x00\x01\x2c";

const OTHER_HEAD_ROOT: &[u8] =
    b"\x83\x04\xd8\x2a\x58\x27\x00\x01\x71\xa0\xe4\x02\x20\xc5\x3f\xf1\xc5\xd6\x64\x59\
    \x19\x14\xab\xdf\x63\x2a\x63\x5d\xb6\x7a\x6b\xed\x38\xc4\x9b\x64\xd3\x8b\xdb\x0e\
    \xee\xce\xb5\xb0\x4c\xd8\x2a\x46\x00\x01\x55\x00\x01\x08";

// A tree in which an address of protocol 2 names 100, the state over it with the next ID 101, and the same actors with
// this head.
const ONE_NAME: &[u8] =
    b"\x82\x42\x80\x00\x81\x81\x82\x55\x02\x22\x22\x22\x22\x22\x22\x22\x22\x22\x22\x22\
    \x22\x22\x22\x22\x22\x22\x22\x22\x22\x18\x64";

const NAMED_STATE: &[u8] =
    b"\x83\xd8\x2a\x58\x27\x00\x01\x71\xa0\xe4\x02\x20\x72\x88\x8d\xf9\x47\x90\x44\x9d\
    \xf5\xf3\x1d\x75\xd4\x2c\x50\x2a\xc6\x1c\xd3\x6f\xb9\xb4\xc0\x0e\x68\x55\x25\x7c\
    \xf2\xeb\x18\x34\x18\x65\x64\x74\x65\x73\x74";

const NAMED_ACTORS: &[u8] =
    b"\x82\x44\x80\x40\x08\x00\x83\x81\x82\x42\x00\x63\x84\xd8\x2a\x46\x00\x01\x55\x00\
    \x01\x03\xd8\x2a\x46\x00\x01\x55\x00\x01\x09\x00\x40\x81\x82\x42\x00\x01\x84\xd8\
    \x2a\x46\x00\x01\x55\x00\x01\x01\xd8\x2a\x58\x27\x00\x01\x71\xa0\xe4\x02\x20\xf1\
    \xc9\xdc\x49\x7e\x25\x73\xe2\x0c\xcc\x32\xc0\x21\x6f\x8c\x84\x9f\xa1\x08\x20\xa3\
    \x22\x7d\x2f\x6d\x75\x2b\x22\x69\xe1\x48\x0f\x00\x40\x81\x82\x42\x00\x02\x84\xd8\
    \x2a\x46\x00\x01\x55\x00\x01\x02\xd8\x2a\x46\x00\x01\x55\x00\x01\x09\x00\x43\x00\
    \x01\x2c";

const NAMED_ROOT: &[u8] =
    b"\x83\x04\xd8\x2a\x58\x27\x00\x01\x71\xa0\xe4\x02\x20\x77\x0d\x59\xc2\x92\x81\x56\
    \xc6\x4e\x43\xd2\x31\x5e\xd4\xaa\x90\xf4\x70\x90\xbd\x35\x09\x12\xbe\x51\xdf\xe3\
    \x8f\x2c\x7b\x71\x3e\xd8\x2a\x46\x00\x01\x55\x00\x01\x08";

#[derive(Drop)]
struct Blocks {
    list: Vec<Block>,
}

impl BlockSource for Blocks {
    ghost blocks = { λ base. base.list.items };

    fn find(&self, cid: &Cid) -> Option<&Block> {
        for block in &self.list {
            if block.cid() == cid {
                return Some(block);
            }
        }
        None
    }
}

// The DAG-CBOR block of these bytes.
fn block(rt: HostRuntime, bytes: &[u8]) -> Result<Block, Fail> {
    let bytes = Bytes::copy_of(rt.alloc(), bytes)?;
    Ok(Block::of(rt.alloc(), 0x71, bytes)?)
}

// Its CID.
fn cid_of(rt: HostRuntime, bytes: &[u8]) -> Result<Cid, Fail> {
    let block = block(rt, bytes)?;
    Ok(block.cid().copy(rt.alloc())?)
}

fn base_of(rt: HostRuntime, blocks: &[&[u8]]) -> Result<Blocks, Fail> {
    let mut list = Vec::new(rt.alloc());
    for bytes in blocks {
        list.push(block(rt, bytes)?)?;
    }
    Ok(Blocks { list })
}

// A CID of raw bytes under the identity hash, with a digest of one byte.
fn cid(rt: HostRuntime, digest: u8) -> Result<Cid, Fail> {
    let digest = Bytes::copy_of(rt.alloc(), &[digest])?;
    Ok(Cid::new(1, 0x55, 0, digest).ok_or("no CID")?)
}

fn id(number: u64) -> Result<ActorId, Fail>
    ensures { IfOk result (λ id. id ≡ number) }
{
    match ActorId::new(number) {
        Some(id) => Ok(id),
        None => Err(Fail::from("no ID")),
    }
}

fn actor(rt: HostRuntime, code: u8, head: Cid, balance: u128) -> Result<Actor, Fail> {
    Ok(Actor {
        code: cid(rt, code)?,
        head,
        sequence: 0,
        balance: Token::new(balance).ok_or("no amount")?,
    })
}

// A base, and the root and the init actor's head of the state in it.
#[derive(Drop)]
struct Stored {
    base: Blocks,
    root: Cid,
    head: Cid,
}

// Those of a state of four blocks.
fn state_of(
    rt: HostRuntime,
    names: &[u8],
    init: &[u8],
    actors: &[u8],
    root: &[u8],
) -> Result<Stored, Fail> {
    let base = base_of(rt, &[names, init, actors, root])?;
    let root = cid_of(rt, root)?;
    let head = cid_of(rt, init)?;
    Ok(Stored { base, root, head })
}

fn loaded_tree(rt: HostRuntime, stored: &Stored) -> Result<StateTree, Fail> {
    let codes = Codes {
        system: cid(rt, 0)?,
        init: cid(rt, 1)?,
        account: cid(rt, 3)?,
        reward: cid(rt, 2)?,
    };
    let tree = StateTree::load(rt.alloc(), &stored.base, &stored.root, &codes);
    Ok(tree.ok().ok_or("no state")?)
}

fn loaded_names(rt: HostRuntime, stored: &Stored) -> Result<Names, Fail> {
    let names = Names::load(rt.alloc(), &stored.base, &stored.head);
    Ok(names.ok().ok_or("no names")?)
}

// Loads a state, and flushes it.
fn flushed(rt: HostRuntime, stored: &Stored) -> Result<(Cid, Row<Block>), Fail> {
    let mut tree = loaded_tree(rt, stored)?;
    let mut names = loaded_names(rt, stored)?;
    Ok(flush_state(&stored.base, &mut tree, &mut names)?)
}

// Gives the reward actor another balance.
fn set_reward(
    rt: HostRuntime,
    base: &Blocks,
    tree: &mut StateTree,
    balance: u128,
) -> Result<(), Fail> {
    let reward = actor(rt, 2, cid(rt, 9)?, balance)?;
    tree.put_actor(base, id(2)?, reward)?;
    Ok(())
}

// Loads a state, gives the reward actor another balance, and flushes it.
fn flushed_with(
    rt: HostRuntime,
    stored: &Stored,
    balance: u128,
) -> Result<(Cid, Row<Block>), Fail> {
    let mut tree = loaded_tree(rt, stored)?;
    let mut names = loaded_names(rt, stored)?;
    set_reward(rt, &stored.base, &mut tree, balance)?;
    Ok(flush_state(&stored.base, &mut tree, &mut names)?)
}

// Whether the blocks have just these bytes.
fn are(blocks: &Row<Block>, bytes: &[&[u8]]) -> bool {
    if blocks.as_slice().len() != bytes.len() {
        return false;
    }
    for (block, bytes) in blocks.as_slice().iter().zip(bytes) {
        if block.bytes() != *bytes {
            return false;
        }
    }
    true
}

#[test]
fn a_state_that_is_there_has_no_new_blocks(rt: HostRuntime) -> Result<(), Fail> {
    let old = state_of(rt, NO_NAMES, INIT_STATE, ACTORS, ROOT)?;
    let (root, blocks) = flushed(rt, &old)?;
    assert!(rt; root == old.root);
    assert_eq!(rt; blocks.as_slice().len(), 0);
    Ok(())
}

#[test]
fn a_balance_changes_the_root(rt: HostRuntime) -> Result<(), Fail> {
    let old = state_of(rt, NO_NAMES, INIT_STATE, ACTORS, ROOT)?;
    let (root, blocks) = flushed_with(rt, &old, 5)?;
    assert!(rt; root != old.root);
    assert!(rt; root == cid_of(rt, LESS_ROOT)?);
    assert!(rt; are(&blocks, &[LESS_ACTORS, LESS_ROOT]));
    Ok(())
}

#[test]
fn the_init_actor_gets_its_head(rt: HostRuntime) -> Result<(), Fail> {
    let old = state_of(
        rt,
        ONE_NAME,
        NAMED_STATE,
        OTHER_HEAD_ACTORS,
        OTHER_HEAD_ROOT,
    )?;
    let (root, blocks) = flushed(rt, &old)?;
    assert!(rt; root == cid_of(rt, NAMED_ROOT)?);
    assert!(rt; are(&blocks, &[NAMED_ACTORS, NAMED_ROOT]));
    Ok(())
}

// Actors under the IDs 1, 2 and 99.
fn under_ids(
    rt: HostRuntime,
    init: Actor,
    reward: Actor,
    burnt_funds: Actor,
) -> Result<Row<(ActorId, Actor)>, Fail>
    ensures { IfOk result (λ actors. map (λ a. a.0) actors ≡ 1 ∷ 2 ∷ 99 ∷ []) }
{
    let first = id(1)?;
    let second = id(2)?;
    let third = id(99)?;
    let actors = vec![in rt.alloc(); (first, init), (second, reward), (third, burnt_funds)]?;
    Ok(Row::of(actors))
}

// The root and the blocks of these actors.
fn built_actors(rt: HostRuntime, actors: &Row<(ActorId, Actor)>) -> Result<(Cid, Row<Block>), Fail>
    requires { map (λ a. a.0) actors.now ≡ 1 ∷ 2 ∷ 99 ∷ [] }
{
    let info = cid(rt, 8)?;
    Ok(state_blocks(rt.alloc(), actors, &info)?)
}

// The root and the blocks of the state whose init actor has this head.
fn actors_with_head(rt: HostRuntime, head: &Cid) -> Result<(Cid, Row<Block>), Fail> {
    let init = actor(rt, 1, head.copy(rt.alloc())?, 0)?;
    let reward = actor(rt, 2, cid(rt, 9)?, 300)?;
    let burnt_funds = actor(rt, 3, cid(rt, 9)?, 0)?;
    let actors = under_ids(rt, init, reward, burnt_funds)?;
    built_actors(rt, &actors)
}

// The names and the init actor's state of some blocks, with actors that are built over them.
fn built_state(rt: HostRuntime, names: &[u8], init: &[u8]) -> Result<Stored, Fail> {
    let head = cid_of(rt, init)?;
    let (root, actors) = actors_with_head(rt, &head)?;
    let Blocks { mut list } = base_of(rt, &[names, init])?;
    put_all_new(&mut list, actors)?;
    let base = Blocks { list };
    Ok(Stored { base, root, head })
}

#[test]
fn a_state_that_is_built_is_flushed_unchanged(rt: HostRuntime) -> Result<(), Fail> {
    let built = built_state(rt, NO_NAMES, INIT_STATE)?;
    let (root, blocks) = flushed(rt, &built)?;
    assert!(rt; root == built.root);
    assert!(rt; root == cid_of(rt, ROOT)?);
    assert_eq!(rt; blocks.as_slice().len(), 0);
    Ok(())
}

// The blocks of three texts, behind those of two.
fn put_behind(rt: HostRuntime, two: [&[u8]; 2], three: [&[u8]; 3]) -> Result<Row<Block>, Fail> {
    let Blocks { mut list } = base_of(rt, &two)?;
    let others = base_of(rt, &three)?;
    put_all_new(&mut list, Row::of(others.list))?;
    Ok(Row::of(list))
}

#[test]
fn blocks_that_are_among_others_are_put_once(rt: HostRuntime) -> Result<(), Fail> {
    let blocks = put_behind(rt, [NO_NAMES, ACTORS], [ACTORS, ROOT, NO_NAMES])?;
    assert!(rt; are(&blocks, &[NO_NAMES, ACTORS, ROOT]));
    Ok(())
}
