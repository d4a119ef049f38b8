ghost use Rattle.std.specs.Prelude.{◌≡◌, ◌∷◌, [], IfOk, true};
ghost use Rattle.init_names.specs.Names.{InitState, no_id};
ghost use Rattle.init_names.specs.Stands.{Stands};

use crate::{Names, init_blocks};
use cid_core::{Block, BlockSource};
use fil_address::Address;
use fil_base::{ActorId, Bytes, Cid, Failure, Row};
use hamt_map::StateFault;
use std::test::Fail;

// The blocks and the digests below are by a Python program with `hashlib`, which has an encoder and a HAMT of its own.

// The tree of no names, and the state over it with the next ID 100 and the network `test`.
const EMPTY: &[u8] = b"\x82\x40\x80";

const NO_NAMES: &[u8] = b"\x83\xd8\x2a\x58\x27\x00\x01\x71\xa0\xe4\x02\x20\
    \x18\xfe\x6a\xcc\x61\xa3\xa3\x6b\x0c\x37\x3c\x4a\x3a\x8e\xa6\x4b\
    \x81\x2b\xf2\xca\x9b\x52\x80\x50\x90\x9c\x78\xd4\x08\x55\x8a\x0c\x18\x64\x64test";

// The tree in which `MADE` names 100, and the state over it with the next ID 101.
const ONE_TREE: &[u8] = b"\x82\x42\x80\x00\x81\x81\x82\x55\x02\
    \x22\x22\x22\x22\x22\x22\x22\x22\x22\x22\x22\x22\x22\x22\x22\x22\x22\x22\x22\x22\x18\x64";

const ONE_NAME: &[u8] = b"\x83\xd8\x2a\x58\x27\x00\x01\x71\xa0\xe4\x02\x20\
    \x72\x88\x8d\xf9\x47\x90\x44\x9d\xf5\xf3\x1d\x75\xd4\x2c\x50\x2a\
    \xc6\x1c\xd3\x6f\xb9\xb4\xc0\x0e\x68\x55\x25\x7c\xf2\xeb\x18\x34\x18\x65\x64test";

// The state in which `SECP` names 100 and `BLS` names 7, with the next ID 101.
const TWO_NAMES: &[u8] = b"\x83\xd8\x2a\x58\x27\x00\x01\x71\xa0\xe4\x02\x20\
    \x3a\x58\x74\x45\xdb\x11\xde\x9e\x41\xd0\xf0\x11\x76\xab\x9f\xd8\
    \x2c\x41\x83\xb5\x81\x6c\x20\x53\x68\x37\x35\x66\xc5\x80\x37\x60\x18\x65\x64test";

const SECP: Address = Address::Secp([0x11; 20]);

const MADE: Address = Address::Made([0x22; 20]);

const BLS: Address = Address::Bls([0x33; 48]);

#[derive(Drop)]
struct TwoBlocks {
    first: Block,
    second: Block,
}

impl BlockSource for TwoBlocks {
    ghost use Rattle.std.specs.Prelude.{[], ◌∷◌};

    ghost blocks = { λ base. base.first ∷ base.second ∷ [] };

    fn find(&self, cid: &Cid) -> Option<&Block> {
        if self.first.cid() == cid {
            Some(&self.first)
        } else if self.second.cid() == cid {
            Some(&self.second)
        } else {
            None
        }
    }
}

fn block(rt: HostRuntime, bytes: &[u8]) -> Result<Block, Fail> {
    let bytes = Bytes::copy_of(rt.alloc(), bytes)?;
    Ok(Block::of(rt.alloc(), 0x71, bytes)?)
}

// A base with the block of a state and one more.
fn base_of(rt: HostRuntime, state: &[u8], other: &[u8]) -> Result<TwoBlocks, Fail> {
    Ok(TwoBlocks {
        first: block(rt, state)?,
        second: block(rt, other)?,
    })
}

fn loaded(rt: HostRuntime, base: &TwoBlocks) -> Result<Names, Fail>
    ensures { IfOk result (λ names.
        (s : InitState) × Stands names (base.now.first ∷ base.now.second ∷ []) s) }
{
    match Names::load(rt.alloc(), base, base.first.cid()) {
        Ok(names) => Ok(names),
        Err(_) => Err(Fail::from("no state")),
    }
}

// The block of a state: a list of so many items, the link to a tree, and the items behind it.
fn state_over(rt: HostRuntime, list: u8, tree: &Block, rest: &[u8]) -> Result<Block, Fail> {
    let mut bytes = vec![in rt.alloc(); list]?;
    bytes.extend_from_slice(b"\xd8\x2a\x58\x27\x00\x01\x71\xa0\xe4\x02\x20")?;
    bytes.extend_from_slice(tree.cid().digest())?;
    bytes.extend_from_slice(rest)?;
    block(rt, &bytes)
}

// Gives an address the next ID, as a caller does.
fn assigned(names: &mut Names, base: &TwoBlocks, address: &Address) -> Result<ActorId, Fail>
    requires state { (s : InitState) × Stands names.old (base.now.first ∷ base.now.second ∷ []) s }
    requires address { no_id address.now ≡ true }
{
    if names.full() || names.resolve(base, address)?.is_some() {
        return Err(Fail::from("no ID to give"));
    }
    Ok(names.assign(base, address)?)
}

fn fault_of(answer: Result<Names, Failure<StateFault>>) -> Option<StateFault> {
    match answer {
        Err(Failure::Fault(fault)) => Some(fault),
        _ => None,
    }
}

fn is_missing(fault: &Option<StateFault>, block: &Cid) -> bool {
    match fault {
        Some(StateFault::Missing(cid)) => cid == block,
        _ => false,
    }
}

fn is_form(fault: &Option<StateFault>, block: &Cid) -> bool {
    match fault {
        Some(StateFault::Form(cid)) => cid == block,
        _ => false,
    }
}

#[test]
fn an_address_gets_the_next_id(rt: HostRuntime) -> Result<(), Fail> {
    let base = base_of(rt, NO_NAMES, EMPTY)?;
    let mut names = loaded(rt, &base)?;
    assert!(rt; names.resolve(&base, &MADE)?.is_none());
    let id = assigned(&mut names, &base, &MADE)?;
    assert_eq!(rt; id.number(), 100);
    assert_eq!(rt; names.resolve(&base, &MADE)?, Some(id));
    assert_eq!(rt; names.next().number(), 101);
    assert!(rt; names.below(&base)?);
    Ok(())
}

#[test]
fn an_id_names_itself(rt: HostRuntime) -> Result<(), Fail> {
    let base = base_of(rt, NO_NAMES, EMPTY)?;
    let names = loaded(rt, &base)?;
    let seven = ActorId::new(7).ok_or("7 is an ID")?;
    assert_eq!(rt; names.resolve(&base, &Address::Id(seven))?, Some(seven));
    assert!(rt; !names.full());
    Ok(())
}

#[test]
fn a_copy_is_changed_alone(rt: HostRuntime) -> Result<(), Fail> {
    let base = base_of(rt, NO_NAMES, EMPTY)?;
    let names = loaded(rt, &base)?;
    let mut copy = names.copy()?;
    assigned(&mut copy, &base, &MADE)?;
    assert_eq!(rt; copy.next().number(), 101);
    assert_eq!(rt; names.next().number(), 100);
    assert!(rt; names.resolve(&base, &MADE)?.is_none());
    Ok(())
}

#[test]
fn a_state_is_flushed(rt: HostRuntime) -> Result<(), Fail> {
    let base = base_of(rt, NO_NAMES, EMPTY)?;
    let mut names = loaded(rt, &base)?;
    assigned(&mut names, &base, &MADE)?;
    let (head, blocks) = names.flush(&base)?;
    let state = block(rt, ONE_NAME)?;
    assert!(rt; head == *state.cid());
    let [tree, state] = blocks.as_slice() else {
        return Err(Fail::from("two blocks"));
    };
    assert_eq!(rt; tree.bytes(), ONE_TREE);
    assert_eq!(rt; state.bytes(), ONE_NAME);
    Ok(())
}

#[test]
fn a_flushed_state_is_loaded(rt: HostRuntime) -> Result<(), Fail> {
    let base = base_of(rt, ONE_NAME, ONE_TREE)?;
    let names = loaded(rt, &base)?;
    let id = names.resolve(&base, &MADE)?;
    assert_eq!(rt; id.map(|id| id.number()), Some(100));
    assert!(rt; names.resolve(&base, &SECP)?.is_none());
    Ok(())
}

#[test]
fn a_state_is_made(rt: HostRuntime) -> Result<(), Fail> {
    let hundred = ActorId::new(100).ok_or("100 is an ID")?;
    let seven = ActorId::new(7).ok_or("7 is an ID")?;
    let next = ActorId::new(101).ok_or("101 is an ID")?;
    let names = Row::of(vec![in rt.alloc(); (SECP, hundred), (BLS, seven)]?);
    let (head, blocks) = init_blocks(rt.alloc(), &names, next, b"test")?;
    let state = block(rt, TWO_NAMES)?;
    assert!(rt; head == *state.cid());
    assert_eq!(rt; blocks.as_slice().len(), 2);
    Ok(())
}

#[test]
fn a_missing_state_is_named(rt: HostRuntime) -> Result<(), Fail> {
    let base = base_of(rt, EMPTY, EMPTY)?;
    let state = block(rt, NO_NAMES)?;
    let fault = fault_of(Names::load(rt.alloc(), &base, state.cid()));
    assert!(rt; is_missing(&fault, state.cid()));
    Ok(())
}

#[test]
fn a_missing_tree_is_named(rt: HostRuntime) -> Result<(), Fail> {
    let base = base_of(rt, ONE_NAME, EMPTY)?;
    let tree = block(rt, ONE_TREE)?;
    let fault = fault_of(Names::load(rt.alloc(), &base, base.first.cid()));
    assert!(rt; is_missing(&fault, tree.cid()));
    Ok(())
}

#[test]
fn other_values_are_no_state(rt: HostRuntime) -> Result<(), Fail> {
    // The last one is the state of no names, with 0 in place of the link.
    for bytes in [
        b"\xff".as_slice(),
        b"\x82\x00\x00",
        b"\x83\x00\x18\x64\x64test",
    ] {
        let base = base_of(rt, bytes, EMPTY)?;
        let fault = fault_of(Names::load(rt.alloc(), &base, base.first.cid()));
        assert!(rt; is_form(&fault, base.first.cid()));
    }
    Ok(())
}

#[test]
fn other_items_are_refused(rt: HostRuntime) -> Result<(), Fail> {
    let cases: [(u8, &[u8]); 4] = [
        // the next ID is 2^63
        (0x83, b"\x1b\x80\x00\x00\x00\x00\x00\x00\x00\x64test"),
        // the next ID is -1
        (0x83, b"\x20\x64test"),
        // the network is a byte string
        (0x83, b"\x18\x64\x44test"),
        // there is one item more
        (0x84, b"\x18\x64\x64test\x00"),
    ];
    for (list, rest) in cases {
        let second = block(rt, EMPTY)?;
        let first = state_over(rt, list, &second, rest)?;
        let base = TwoBlocks { first, second };
        let fault = fault_of(Names::load(rt.alloc(), &base, base.first.cid()));
        assert!(rt; is_form(&fault, base.first.cid()));
    }
    Ok(())
}

#[test]
fn other_pairs_are_refused(rt: HostRuntime) -> Result<(), Fail> {
    let cases: [&[u8]; 3] = [
        // a name of protocol 0
        b"\x82\x44\x04\x00\x00\x00\x81\x81\x82\x42\x00\x64\x18\x64",
        // a name of protocol 1 with 19 bytes
        b"\x82\x41\x40\x81\x81\x82\x54\x01\
            \x11\x11\x11\x11\x11\x11\x11\x11\x11\x11\x11\x11\x11\x11\x11\x11\x11\x11\x11\x18\x64",
        // an ID of 2^63
        b"\x82\x42\x80\x00\x81\x81\x82\x55\x02\
            \x22\x22\x22\x22\x22\x22\x22\x22\x22\x22\x22\x22\x22\x22\x22\x22\x22\x22\x22\x22\
            \x1b\x80\x00\x00\x00\x00\x00\x00\x00",
    ];
    for tree in cases {
        let second = block(rt, tree)?;
        let first = state_over(rt, 0x83, &second, b"\x18\x64\x64test")?;
        let base = TwoBlocks { first, second };
        let fault = fault_of(Names::load(rt.alloc(), &base, base.first.cid()));
        assert!(rt; is_form(&fault, base.second.cid()));
    }
    Ok(())
}
