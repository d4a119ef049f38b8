ghost use Rattle.std.specs.Prelude.{◌<◌, ◌^◌, IfOk};
ghost use Rattle.dag_cbor.specs.Plain.{IsPlain};

use crate::trees::DAG_CBOR;
use crate::unanswered::{Answer, Unanswered};
use crate::words::{hex_of_cid, number_in};
use amt_map::Amt;
use block_base::Base;
use cid_core::{Block, cid_of};
use dag_cbor::{Value, is_plain_within};
use fil_base::{Bytes, Cid, Failure, Row};
use hamt_map::Hamt;
use sha2::{Digest, Sha256};
use sqlite_items::Items;
use std::alloc::Global;
use tree_blocks::{NoBlocks, TreeFault};

/// The two kinds of tree.
#[derive(Clone, Copy, Debug, PartialEq, Eq)]
pub enum Kind {
    Hamt,
    Amt,
}

/// `hamtwork WORK COUNT TIMES` and `amtwork WORK COUNT TIMES`: a tree of so many pairs is made, and then the work is done
/// so many times. WORK is `make`, the values are made again; `flush`, they are, and are set and flushed; `load`, the tree is
/// loaded; `hash`, its keys are hashed by SHA2-256 if it is a HAMT, and its nodes by BLAKE2b. A benchmark reckons the time
/// of the work from two numbers of times.
pub fn tree_work(alloc: Global, kind: Kind, words: &[&[u8]]) -> Answer {
    let [work, count, times] = words else {
        return Err(Unanswered::BadLine);
    };
    let Ok(work) = str::from_utf8(work) else {
        return Err(Unanswered::BadLine);
    };
    let count = number_in(count, 0, u32::MAX as u64)?;
    let times = number_in(times, 0, u32::MAX as u64)?;
    let (root, nodes) = tree_of(alloc, kind, count)?;
    let base = Base::of(alloc, nodes)?;
    for _ in 0..times {
        match work {
            "make" => make_again(alloc, count)?,
            "flush" => flush_again(alloc, kind, count)?,
            "load" => load_again(alloc, kind, &base, &root)?,
            "hash" => hash_again(alloc, kind, &base, count)?,
            _ => return Err(Unanswered::BadLine),
        }
    }
    Ok(format!(in alloc; "ok {} {}", hex_of_cid(alloc, &root)?, node_bytes(&base))?)
}

/// The root and the nodes of a tree of so many pairs.
fn tree_of(alloc: Global, kind: Kind, count: u64) -> Result<(Cid, Row<Block>), Unanswered> {
    match kind {
        Kind::Hamt => hamt_of(alloc, count),
        Kind::Amt => amt_of(alloc, count),
    }
}

fn hamt_of(alloc: Global, count: u64) -> Result<(Cid, Row<Block>), Unanswered> {
    let link = cid_of(alloc, DAG_CBOR, b"link")?;
    let mut tree = Hamt::empty(alloc);
    for number in 0..count {
        let value = record(alloc, &link, number)?;
        tree.set(&NoBlocks, &number.to_be_bytes(), value)?;
    }
    Ok(tree.flush(&NoBlocks)?)
}

fn amt_of(alloc: Global, count: u64) -> Result<(Cid, Row<Block>), Unanswered> {
    let link = cid_of(alloc, DAG_CBOR, b"link")?;
    let mut tree = Amt::empty(alloc);
    for number in 0..count {
        let value = record(alloc, &link, number)?;
        tree.set(&NoBlocks, number % (1 << 60), value)?;
    }
    Ok(tree.flush(&NoBlocks)?)
}

/// A value like an actor's record: two links, a number and an amount.
fn record(alloc: Global, link: &Cid, number: u64) -> Result<Value, Unanswered>
    ensures { IfOk result (IsPlain 120) }
{
    let code = link.copy(alloc)?;
    let head = link.copy(alloc)?;
    let balance = Bytes::copy_of(alloc, &number.to_be_bytes())?;
    let fields = vec![in alloc;
        Value::Link(code),
        Value::Link(head),
        Value::Int(number as i128),
        Value::Blob(balance),
    ]?;
    let value = Value::List(Items::from_vec(fields));
    if !is_plain_within(120, &value) {
        return Err(Unanswered::BadLine);
    }
    Ok(value)
}

fn make_again(alloc: Global, count: u64) -> Result<(), Unanswered> {
    let link = cid_of(alloc, DAG_CBOR, b"link")?;
    for number in 0..count {
        record(alloc, &link, number)?;
    }
    Ok(())
}

fn flush_again(alloc: Global, kind: Kind, count: u64) -> Result<(), Unanswered> {
    tree_of(alloc, kind, count)?;
    Ok(())
}

fn load_again(alloc: Global, kind: Kind, base: &Base, root: &Cid) -> Result<(), Unanswered> {
    let loaded = match kind {
        Kind::Hamt => Hamt::load(alloc, base, root).map(|_| ()),
        Kind::Amt => Amt::load(alloc, base, root).map(|_| ()),
    };
    match loaded {
        Ok(()) => Ok(()),
        Err(Failure::NoMemory) => Err(Unanswered::NoMemory),
        Err(Failure::Fault(_)) => Err(Unanswered::BadLine),
    }
}

fn hash_again(alloc: Global, kind: Kind, base: &Base, count: u64) -> Result<(), Unanswered> {
    if kind == Kind::Hamt {
        for number in 0..count {
            let digest = Sha256::digest(number.to_be_bytes().as_slice());
            if digest[0] == 0 && digest[1..] == [0; 31] {
                return Err(Unanswered::BadLine);
            }
        }
    }
    for at in 0..base.count() {
        if let Some(block) = base.at(at) {
            cid_of(alloc, DAG_CBOR, block.bytes())?;
        }
    }
    Ok(())
}

/// How many bytes the nodes have.
fn node_bytes(base: &Base) -> usize {
    let mut bytes: usize = 0;
    for at in 0..base.count() {
        if let Some(block) = base.at(at) {
            bytes = bytes.saturating_add(block.bytes().len());
        }
    }
    bytes
}
