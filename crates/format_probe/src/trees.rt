ghost use Rattle.std.specs.Prelude.{IfOk};
ghost use Rattle.dag_cbor.specs.Plain.{IsPlain};

use crate::unanswered::{Answer, Unanswered};
use crate::words::{bytes_of, hex_of, hex_of_cid};
use block_base::Base;
use cid_core::Block;
use dag_cbor::{Value, decode, encode, is_plain, is_plain_within};
use fil_base::{Bytes, Cid, Failure, Row, read_cid};
use std::alloc::Global;
use tree_blocks::TreeFault;

/// The codec of DAG-CBOR (multicodec).
pub const DAG_CBOR: u64 = 0x71;

/// The value that a word spells, which is at most 120 deep.
pub fn value_of(alloc: Global, word: &[u8]) -> Result<Value, Unanswered>
    ensures { IfOk result (IsPlain 120) }
{
    let bytes = bytes_of(alloc, word)?;
    match decode(alloc, &bytes) {
        Ok(value) if is_plain_within(120, &value) => Ok(value),
        Ok(_) => Err(Unanswered::BadLine),
        Err(Failure::NoMemory) => Err(Unanswered::NoMemory),
        Err(Failure::Fault(_)) => Err(Unanswered::BadLine),
    }
}

/// Puts a space and the spelling of a value behind a text, `-` for none.
pub fn put_value(alloc: Global, text: &mut String, value: Option<Value>) -> Result<(), Unanswered> {
    text.push(' ')?;
    match value {
        None => text.push('-')?,
        Some(value) => text.push_str(&spelled(alloc, &value)?)?,
    }
    Ok(())
}

/// The spelling of a value in hex.
pub fn spelled(alloc: Global, value: &Value) -> Answer {
    if !is_plain(value) {
        return Err(Unanswered::BadLine);
    }
    let spelling = encode(alloc, value)?;
    Ok(hex_of(alloc, spelling.as_slice())?)
}

/// Puts the CIDs of blocks behind a text, each behind a space.
pub fn put_cids(alloc: Global, text: &mut String, blocks: &Row<Block>) -> Result<(), Unanswered> {
    for block in blocks.as_slice() {
        text.push(' ')?;
        text.push_str(&hex_of_cid(alloc, block.cid())?)?;
    }
    Ok(())
}

/// The CID whose bytes a word gives, all of them.
pub fn cid_of_word(alloc: Global, word: &[u8]) -> Result<Cid, Unanswered> {
    let bytes = bytes_of(alloc, word)?;
    match read_cid(alloc, &bytes) {
        Ok((cid, length)) if length == bytes.len() => Ok(cid),
        Err(Failure::NoMemory) => Err(Unanswered::NoMemory),
        _ => Err(Unanswered::BadLine),
    }
}

/// The base of the DAG-CBOR blocks whose bytes the words give.
pub fn base_of_words(alloc: Global, words: &[&[u8]]) -> Result<Base, Unanswered> {
    let mut blocks = Vec::new(alloc);
    for word in words {
        let bytes = Bytes::of(bytes_of(alloc, word)?);
        blocks.push(Block::of(alloc, DAG_CBOR, bytes)?)?;
    }
    Ok(Base::of(alloc, Row::of(blocks))?)
}

/// Why a tree does not load.
pub fn refused(alloc: Global, failure: Failure<TreeFault>) -> Answer {
    match failure {
        Failure::NoMemory => Err(Unanswered::NoMemory),
        Failure::Fault(fault) => fault_text(alloc, fault),
    }
}

fn fault_text(alloc: Global, fault: TreeFault) -> Answer {
    match fault {
        TreeFault::Missing(cid) => {
            Ok(format!(in alloc; "refused Missing {}", hex_of_cid(alloc, &cid)?)?)
        }
        TreeFault::Form(cid) => Ok(format!(in alloc; "refused Form {}", hex_of_cid(alloc, &cid)?)?),
        TreeFault::NotCanonical(cid, canonical) => {
            let cid = hex_of_cid(alloc, &cid)?;
            let canonical = hex_of_cid(alloc, &canonical)?;
            Ok(format!(in alloc; "refused NotCanonical {cid} {canonical}")?)
        }
    }
}
