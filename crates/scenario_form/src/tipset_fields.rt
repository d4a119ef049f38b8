ghost use Rattle.std.specs.Prelude.{◌≡◌, Err, IfErr, IfOk, Ok, map};
ghost use Rattle.fil_base.specs.Failure.{IfFault};
ghost use Rattle.fil_message.specs.declared.message_fault.MessageFault.TheVariants.{Field as IsField};
ghost use Rattle.scenario_form.specs.Reading.{block_fields, block_front, block_read, each_read, message_read, tipset_fields, tipset_front, tipset_read};
ghost use Rattle.scenario_form.specs.Spelled.{ArePartTexts, IsPartText, the_value, the_values};

use crate::fault::FormFault;
use crate::place::{Place, failed_at};
use crate::spelled::{items_at, list_of, value_of, values_of};
use cbor_fields::{FieldFault, cid_at, token_at};
use dag_cbor::Value;
use fil_base::{ActorId, Cid, Failure, Row, Token};
use fil_message::{Message, MessageFault, TipBlock, Tipset, id_at, number_at, read_message};
use std::alloc::Global;

/// What stands in a tipset before its blocks, and the blocks as the bytes that spell them.
#[derive(Drop)]
struct TipsetFields<'a> {
    epoch: u64,
    base_fee: Token,
    root: Cid,
    blocks: Vec<&'a [u8]>,
}

/// What stands in a block before its messages, and the messages as the bytes that spell them.
#[derive(Drop)]
struct BlockFields<'a> {
    miner: ActorId,
    award: Token,
    messages: Vec<&'a [u8]>,
}

/// The tipsets that are spelled so, each by itself.
pub(crate) fn tipsets_of(alloc: Global, list: &[&[u8]]) -> Result<Row<Tipset>, Failure<FormFault>>
    requires { ArePartTexts (map (λ s. s.now) list.now) }
    ensures found { IfOk result (λ tipsets. each_read tipset_read 0 (the_values (map (λ s. s.now) list.now)) ≡ Ok tipsets) }
    ensures fault { IfErr result (λ failure. IfFault failure (λ fault.
        each_read tipset_read 0 (the_values (map (λ s. s.now) list.now)) ≡ Err fault)) }
{
    let mut tipsets = Vec::with_capacity(alloc, list.len())?;
    for (i, bytes) in list.iter().enumerate() {
        let tipset = tipset_of(alloc, i as u32, bytes)?;
        tipsets.push(tipset)?;
    }
    Ok(Row::of(tipsets))
}

/// The tipset of this place: `[epoch, base fee, state root, blocks]`.
pub(crate) fn tipset_of(
    alloc: Global,
    tipset: u32,
    bytes: &[u8],
) -> Result<Tipset, Failure<FormFault>>
    requires { IsPartText bytes.now }
    ensures found { IfOk result (λ found. tipset_read tipset (the_value bytes.now) ≡ Ok found) }
    ensures fault { IfErr result (λ failure. IfFault failure (λ fault. tipset_read tipset (the_value bytes.now) ≡ Err fault)) }
{
    let fields = match tipset_fields(alloc, bytes) {
        Ok(fields) => fields,
        Err(failure) => return Err(failed_at(Place::tipset(tipset), failure)),
    };
    let blocks = blocks_of(alloc, tipset, fields.blocks.as_slice())?;
    Ok(Tipset {
        epoch: fields.epoch,
        base_fee: fields.base_fee,
        root: fields.root,
        blocks,
    })
}

fn tipset_fields(alloc: Global, bytes: &[u8]) -> Result<TipsetFields<'_>, Failure<FieldFault>>
    requires { IsPartText bytes.now }
    ensures found { IfOk result (λ f. tipset_fields (the_value bytes.now) ≡ Ok (record {
      epoch = f.epoch;
      base_fee = f.base_fee;
      root = f.root;
      blocks = the_values (map (λ s. s.now) f.blocks.items);
    })) }
    ensures parts { IfOk result (λ f. ArePartTexts (map (λ s. s.now) f.blocks.items)) }
    ensures fault { IfErr result (λ failure. IfFault failure (λ fault. tipset_fields (the_value bytes.now) ≡ Err fault)) }
{
    let items = list_of(alloc, bytes, 4)?;
    let front = values_of(alloc, &items[..3])?;
    let (epoch, base_fee, root) = match tipset_front(front.as_slice()) {
        Ok((epoch, base_fee, root)) => (epoch, base_fee, root.copy(alloc)?),
        Err(fault) => return Err(Failure::Fault(fault)),
    };
    let blocks = items_at(alloc, items.as_slice(), 3)?;
    Ok(TipsetFields {
        epoch,
        base_fee,
        root,
        blocks,
    })
}

fn tipset_front(items: &[Value]) -> Result<(u64, Token, &Cid), FieldFault>
    ensures found { IfOk result (λ front. tipset_front items.now ≡ Ok (front.0, front.1, front.2.now)) }
    ensures fault { IfErr result (λ fault. tipset_front items.now ≡ Err fault) }
{
    let epoch = number_at(items, 0, (1 << 63) - 1)?;
    let base_fee = token_at(items, 1)?;
    let root = cid_at(items, 2)?;
    Ok((epoch, base_fee, root))
}

/// The blocks of a tipset that are spelled so, each by itself.
fn blocks_of(
    alloc: Global,
    tipset: u32,
    list: &[&[u8]],
) -> Result<Row<TipBlock>, Failure<FormFault>>
    requires { ArePartTexts (map (λ s. s.now) list.now) }
    ensures found { IfOk result (λ blocks. each_read (block_read tipset) 0 (the_values (map (λ s. s.now) list.now)) ≡ Ok blocks) }
    ensures fault { IfErr result (λ failure. IfFault failure (λ fault.
        each_read (block_read tipset) 0 (the_values (map (λ s. s.now) list.now)) ≡ Err fault)) }
{
    let mut blocks = Vec::with_capacity(alloc, list.len())?;
    for (i, bytes) in list.iter().enumerate() {
        let block = block_of(alloc, tipset, i as u32, bytes)?;
        blocks.push(block)?;
    }
    Ok(Row::of(blocks))
}

/// The block of this place in a tipset: `[miner, award, messages]`.
fn block_of(
    alloc: Global,
    tipset: u32,
    block: u32,
    bytes: &[u8],
) -> Result<TipBlock, Failure<FormFault>>
    requires { IsPartText bytes.now }
    ensures found { IfOk result (λ found. block_read tipset block (the_value bytes.now) ≡ Ok found) }
    ensures fault { IfErr result (λ failure. IfFault failure (λ fault. block_read tipset block (the_value bytes.now) ≡ Err fault)) }
{
    let fields = match block_fields(alloc, bytes) {
        Ok(fields) => fields,
        Err(failure) => return Err(failed_at(Place::block(tipset, block), failure)),
    };
    let messages = messages_of(alloc, tipset, block, fields.messages.as_slice())?;
    Ok(TipBlock {
        miner: fields.miner,
        award: fields.award,
        messages,
    })
}

fn block_fields(alloc: Global, bytes: &[u8]) -> Result<BlockFields<'_>, Failure<FieldFault>>
    requires { IsPartText bytes.now }
    ensures found { IfOk result (λ f. block_fields (the_value bytes.now) ≡ Ok (record {
      miner = f.miner;
      award = f.award;
      messages = the_values (map (λ s. s.now) f.messages.items);
    })) }
    ensures parts { IfOk result (λ f. ArePartTexts (map (λ s. s.now) f.messages.items)) }
    ensures fault { IfErr result (λ failure. IfFault failure (λ fault. block_fields (the_value bytes.now) ≡ Err fault)) }
{
    let items = list_of(alloc, bytes, 3)?;
    let front = values_of(alloc, &items[..2])?;
    let (miner, award) = match block_front(front.as_slice()) {
        Ok(front) => front,
        Err(fault) => return Err(Failure::Fault(fault)),
    };
    let messages = items_at(alloc, items.as_slice(), 2)?;
    Ok(BlockFields {
        miner,
        award,
        messages,
    })
}

fn block_front(items: &[Value]) -> Result<(ActorId, Token), FieldFault>
    ensures found { IfOk result (λ front. block_front items.now ≡ Ok (front.0, front.1)) }
    ensures fault { IfErr result (λ fault. block_front items.now ≡ Err fault) }
{
    let miner = id_at(items, 0)?;
    let award = token_at(items, 1)?;
    Ok((miner, award))
}

/// The messages of a block that are spelled so, each by itself.
fn messages_of(
    alloc: Global,
    tipset: u32,
    block: u32,
    list: &[&[u8]],
) -> Result<Row<Message>, Failure<FormFault>>
    requires { ArePartTexts (map (λ s. s.now) list.now) }
    ensures found { IfOk result (λ messages.
        each_read (message_read tipset block) 0 (the_values (map (λ s. s.now) list.now)) ≡ Ok messages) }
    ensures fault { IfErr result (λ failure. IfFault failure (λ fault.
        each_read (message_read tipset block) 0 (the_values (map (λ s. s.now) list.now)) ≡ Err fault)) }
{
    let mut messages = Vec::with_capacity(alloc, list.len())?;
    for (i, bytes) in list.iter().enumerate() {
        let message = message_at(alloc, tipset, block, i as u32, bytes)?;
        messages.push(message)?;
    }
    Ok(Row::of(messages))
}

/// The message of this place in a block.
fn message_at(
    alloc: Global,
    tipset: u32,
    block: u32,
    message: u32,
    bytes: &[u8],
) -> Result<Message, Failure<FormFault>>
    requires { IsPartText bytes.now }
    ensures found { IfOk result (λ found. message_read tipset block message (the_value bytes.now) ≡ Ok found) }
    ensures fault { IfErr result (λ failure. IfFault failure (λ fault.
        message_read tipset block message (the_value bytes.now) ≡ Err fault)) }
{
    let value = value_of(alloc, bytes)?;
    match read_message(alloc, &value) {
        Ok(found) => Ok(found),
        Err(Failure::NoMemory) => Err(Failure::NoMemory),
        Err(Failure::Fault(fault)) => {
            let place = Place::message(tipset, block, message);
            Err(Failure::Fault((place, field_of(fault))))
        }
    }
}

fn field_of(fault: MessageFault) -> FieldFault
    ensures { fault ≡ IsField result }
{
    match fault {
        MessageFault::Field(field) => field,
    }
}
