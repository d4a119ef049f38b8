ghost use Rattle.std.specs.Prelude.{◌<◌, ◌≡◌, ◌^◌, Some, length, true};
ghost use Rattle.cid_core.specs.BlockParts.{BlockParts, found};

use crate::{Place, ScenarioFault, judge_scenario};
use block_base::Base;
use cbor_fields::FieldFault;
use cid_core::{Block, BlockSource};
use dag_cbor::{Value, encode, is_plain};
use fil_base::{Bytes, Cid, Failure, Row};
use gas_prices::PriceFault;
use sqlite_items::Items;
use std::alloc::{AllocError, Global};
use std::test::Fail;

/// A scenario of which a test may choose these parts.
#[derive(Clone, Copy)]
pub(crate) struct Parts<'a> {
    /// The number of the form.
    pub form: i128,

    /// How many prices there are, and the first; the others are 1.
    pub prices: (usize, i128),

    /// The depth of calls and the pages.
    pub limits: (i128, i128),

    /// The name of which the code of accounts is the block.
    pub account: &'static [u8],

    /// Tipsets, each kind so many times.
    pub tipsets: &'a [(usize, Tip)],
}

/// A tipset of which a test may choose these parts.
#[derive(Clone, Copy)]
pub(crate) struct Tip {
    pub epoch: i128,
    pub root: Root,

    /// How many blocks there are, their miner and their award.
    pub blocks: (usize, i128, &'static [u8]),

    /// The nonces of the messages of each block.
    pub nonces: &'static [i128],

    /// How many times these messages stand there, and how many bytes of parameters each has.
    pub messages: (usize, usize),
}

/// The states that tests have.
#[derive(Clone, Copy)]
pub(crate) enum Root {
    /// 100 has 1,000.
    Small,

    /// The next ID is 100, and there is an actor 100.
    Late,

    /// 100 has 5 less than the greatest amount.
    Rich,

    /// The root of no state.
    Missing,
}

pub(crate) const TIP: Tip = Tip {
    epoch: 7,
    root: Root::Small,
    blocks: (1, 100, b"\0\x05"),
    nonces: &[0],
    messages: (1, 0),
};

pub(crate) const SOUND: Parts<'static> = Parts {
    form: 1,
    prices: (23, 1),
    limits: (64, 512),
    account: b"account",
    tipsets: &[(2, TIP)],
};

/// 2 * 10^27 less 5.
const RICH: &[u8] = b"\0\x06\x76\x5c\x79\x3f\xa1\0\x79\xcf\xff\xff\xfb";

/// What was answered.
#[derive(Clone, Copy, Debug, PartialEq, Eq)]
pub(crate) enum Answer {
    Scenario,
    NoMemory,
    Root,
    Cbor,
    Form(Place, FieldFault),
    Price(PriceFault),
    Limit(u32),
    Codes,
    State(u32),
    Next(u32),
    Total(u32),
}

fn answer_under(alloc: Global, root: &Cid, base: &Base) -> Answer {
    if !is_short(root, base) {
        return Answer::NoMemory;
    }
    match judge_scenario(alloc, root, base) {
        Ok(_) => Answer::Scenario,
        Err(Failure::NoMemory) => Answer::NoMemory,
        Err(Failure::Fault(fault)) => kind_of(&fault),
    }
}

/// Whether the block under a root has fewer than 2^32 bytes.
pub(crate) fn is_short(root: &Cid, base: &Base) -> bool
    ensures { result ≡ true → (block : BlockParts) → found base.now root.now ≡ Some block → length block.bytes < 2 ^ 32 }
{
    match base.find(root) {
        Some(block) => block.bytes().len() < 1 << 32,
        None => true,
    }
}

fn kind_of(fault: &ScenarioFault) -> Answer {
    match fault {
        ScenarioFault::Root(_) => Answer::Root,
        ScenarioFault::Cbor(_) => Answer::Cbor,
        ScenarioFault::Form(place, field) => Answer::Form(*place, *field),
        ScenarioFault::Price(price) => Answer::Price(*price),
        ScenarioFault::Limit(limit) => Answer::Limit(*limit),
        ScenarioFault::Codes => Answer::Codes,
        ScenarioFault::State(tipset, _) => Answer::State(*tipset),
        ScenarioFault::Next(tipset) => Answer::Next(*tipset),
        ScenarioFault::Total(tipset) => Answer::Total(*tipset),
    }
}

/// What is answered of a scenario of these parts.
pub(crate) fn answer_to(rt: HostRuntime, parts: &Parts<'_>) -> Result<Answer, Fail> {
    let alloc = rt.alloc();
    let (base, root) = base_of(alloc, parts)?;
    Ok(answer_under(alloc, &root, &base))
}

/// What is answered of a root whose block has these bytes.
pub(crate) fn answer_to_bytes(rt: HostRuntime, bytes: &[u8]) -> Result<Answer, Fail> {
    let alloc = rt.alloc();
    let block = Block::of(alloc, 0x71, Bytes::copy_of(alloc, bytes)?)?;
    let root = block.cid().copy(alloc)?;
    let base = Base::of(alloc, Row::of(vec![in alloc; block]?))?;
    Ok(answer_under(alloc, &root, &base))
}

/// What is answered where there is no block under the root.
pub(crate) fn answer_to_no_block(rt: HostRuntime) -> Result<Answer, Fail> {
    let alloc = rt.alloc();
    let base = Base::of(alloc, Row::of(Vec::new(alloc)))?;
    let root = code(alloc, b"no block")?;
    Ok(answer_under(alloc, &root, &base))
}

/// The blocks of a scenario and of the states, and the scenario's root.
pub(crate) fn base_of(alloc: Global, parts: &Parts<'_>) -> Result<(Base, Cid), Fail> {
    let mut blocks = Vec::new(alloc);
    put_block(alloc, &mut blocks, empty_tree(alloc)?)?;
    let roots = Roots {
        small: put_state(alloc, &mut blocks, 101, b"\0\x03\xe8")?,
        late: put_state(alloc, &mut blocks, 100, b"\0\x03\xe8")?,
        rich: put_state(alloc, &mut blocks, 101, RICH)?,
        missing: code(alloc, b"no state")?,
    };
    let value = scenario(alloc, parts, &roots)?;
    let root = put_block(alloc, &mut blocks, value)?;
    Ok((Base::of(alloc, Row::of(blocks))?, root))
}

/// The roots of the states.
#[derive(Drop)]
struct Roots {
    small: Cid,
    late: Cid,
    rich: Cid,
    missing: Cid,
}

fn root_of(roots: &Roots, root: Root) -> &Cid {
    match root {
        Root::Small => &roots.small,
        Root::Late => &roots.late,
        Root::Rich => &roots.rich,
        Root::Missing => &roots.missing,
    }
}

// ---- values

fn list(items: Vec<Value>) -> Value {
    Value::List(Items::from_vec(items))
}

fn blob(alloc: Global, bytes: &[u8]) -> Result<Value, AllocError> {
    Ok(Value::Blob(Bytes::of(bytes.to_vec(alloc)?)))
}

/// The CID of the raw block of a name.
fn code(alloc: Global, name: &[u8]) -> Result<Cid, Fail> {
    let block = Block::of(alloc, 0x55, Bytes::copy_of(alloc, name)?)?;
    Ok(block.cid().copy(alloc)?)
}

fn link(alloc: Global, name: &[u8]) -> Result<Value, Fail> {
    Ok(Value::Link(code(alloc, name)?))
}

/// Puts the block of a value behind others, and gives its CID.
fn put_block(alloc: Global, blocks: &mut Vec<Block>, value: Value) -> Result<Cid, Fail> {
    if !is_plain(&value) {
        return Err("the value has no spelling".into());
    }
    let block = Block::of(alloc, 0x71, encode(alloc, &value)?)?;
    let cid = block.cid().copy(alloc)?;
    blocks.push(block)?;
    Ok(cid)
}

// ---- states

/// A tree of nothing.
fn empty_tree(alloc: Global) -> Result<Value, Fail> {
    let pointers = list(Vec::new(alloc));
    Ok(list(vec![in alloc; blob(alloc, b"")?, pointers]?))
}

/// The CID of a tree of nothing, of which no names are.
fn no_names(alloc: Global) -> Result<Cid, Fail> {
    let mut blocks = Vec::new(alloc);
    put_block(alloc, &mut blocks, empty_tree(alloc)?)
}

/// Puts the blocks of a state with the actors 1, 2, 99 and 100, and gives its root.
fn put_state(
    alloc: Global,
    blocks: &mut Vec<Block>,
    next: i128,
    balance: &[u8],
) -> Result<Cid, Fail> {
    let names = Value::Link(no_names(alloc)?);
    let network = Value::Text(Bytes::copy_of(alloc, b"test")?);
    let init = list(vec![in alloc; names, Value::Int(next), network]?);
    let head = put_block(alloc, blocks, init)?;
    let actors = actors(alloc, head, balance)?;
    let tree = put_block(alloc, blocks, actors)?;
    let info = link(alloc, b"info")?;
    let root = list(vec![in alloc; Value::Int(4), Value::Link(tree), info]?);
    put_block(alloc, blocks, root)
}

/// The tree of the actors. The hashes of their keys begin with 11, 22, 26 and 31.
fn actors(alloc: Global, head: Cid, balance: &[u8]) -> Result<Value, Fail> {
    let burnt = actor(alloc, b"\0\x63", b"account", code(alloc, b"empty")?, b"")?;
    let init = actor(alloc, b"\0\x01", b"init", head, b"")?;
    let account = actor(
        alloc,
        b"\0\x64",
        b"account",
        code(alloc, b"empty")?,
        balance,
    )?;
    let reward = actor(alloc, b"\0\x02", b"reward", code(alloc, b"empty")?, b"")?;
    let pointers = list(vec![in alloc; burnt, init, account, reward]?);
    Ok(list(vec![in alloc; blob(alloc, b"\x84\x40\x08\0")?, pointers]?))
}

/// A bucket of one actor.
fn actor(alloc: Global, key: &[u8], name: &[u8], head: Cid, balance: &[u8]) -> Result<Value, Fail> {
    let code = link(alloc, name)?;
    let balance = blob(alloc, balance)?;
    let record = list(vec![in alloc; code, Value::Link(head), Value::Int(0), balance]?);
    let pair = list(vec![in alloc; blob(alloc, key)?, record]?);
    Ok(list(vec![in alloc; pair]?))
}

// ---- scenarios

fn scenario(alloc: Global, parts: &Parts<'_>, roots: &Roots) -> Result<Value, Fail> {
    let rules = rules(alloc, parts)?;
    let mut tipsets = Vec::new(alloc);
    for (count, tip) in parts.tipsets {
        for _ in 0..*count {
            tipsets.push(tipset(alloc, tip, root_of(roots, tip.root))?)?;
        }
    }
    let tipsets = list(tipsets);
    Ok(list(vec![in alloc; Value::Int(parts.form), rules, tipsets]?))
}

fn rules(alloc: Global, parts: &Parts<'_>) -> Result<Value, Fail> {
    let (count, first) = parts.prices;
    let mut prices = vec![in alloc; Value::Int(first)]?;
    for _ in 1..count {
        prices.push(Value::Int(1))?;
    }
    let (depth, pages) = parts.limits;
    let limits = list(vec![in alloc; Value::Int(depth), Value::Int(pages)]?);
    let codes = codes(alloc, parts)?;
    Ok(list(vec![in alloc; list(prices), limits, codes]?))
}

fn codes(alloc: Global, parts: &Parts<'_>) -> Result<Value, Fail> {
    let system = link(alloc, b"system")?;
    let init = link(alloc, b"init")?;
    let account = link(alloc, parts.account)?;
    let reward = link(alloc, b"reward")?;
    Ok(list(vec![in alloc; system, init, account, reward]?))
}

fn tipset(alloc: Global, tip: &Tip, root: &Cid) -> Result<Value, Fail> {
    let mut blocks = Vec::new(alloc);
    for _ in 0..tip.blocks.0 {
        blocks.push(block(alloc, tip)?)?;
    }
    let root = Value::Link(root.copy(alloc)?);
    let fee = blob(alloc, b"\0\x0a")?;
    Ok(list(vec![in alloc; Value::Int(tip.epoch), fee, root, list(blocks)]?))
}

fn block(alloc: Global, tip: &Tip) -> Result<Value, Fail> {
    let (_, miner, award) = tip.blocks;
    let (times, params) = tip.messages;
    let mut messages = Vec::new(alloc);
    for _ in 0..times {
        for nonce in tip.nonces {
            messages.push(message(alloc, *nonce, params)?)?;
        }
    }
    let award = blob(alloc, award)?;
    Ok(list(vec![in alloc; Value::Int(miner), award, list(messages)]?))
}

/// A message from f0100 to f0101 with so many bytes of parameters.
fn message(alloc: Global, nonce: i128, params: usize) -> Result<Value, AllocError> {
    let mut items = Vec::new(alloc);
    items.push(Value::Int(0))?;
    items.push(blob(alloc, b"\0\x65")?)?;
    items.push(blob(alloc, b"\0\x64")?)?;
    items.push(Value::Int(nonce))?;
    items.push(blob(alloc, b"\0\x03")?)?;
    items.push(Value::Int(1_000_000))?;
    items.push(blob(alloc, b"\0\x64")?)?;
    items.push(blob(alloc, b"\0\x01")?)?;
    items.push(Value::Int(0))?;
    let params = Vec::from_elem(alloc, 0, params)?;
    items.push(Value::Blob(Bytes::of(params)))?;
    Ok(list(items))
}
