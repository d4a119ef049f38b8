ghost use Rattle.std.specs.Prelude.{◌≡◌, ◌||◌, ◌++◌, [], ◌∷◌, Err, IfErr, IfOk, List, Ok, OnOk, map};
ghost use Rattle.fil_base.specs.Failure.{IfFault};
ghost use Rattle.fil_message.specs.declared.tipset.Tipset.{Tipset as Tip};
ghost use Rattle.scenario_form.specs.Outlines.{AreOutlines, emptied, without_messages};
ghost use Rattle.scenario_form.specs.Parts.{IsRawTipset};
ghost use Rattle.scenario_form.specs.Reading.{each_read, tipset_read};
ghost use Rattle.scenario_form.specs.Spelled.{ArePartTexts, the_values};

use crate::fault::FormFault;
use crate::limits::{blocks_have_long_message, has_long_block};
use crate::raw::RawRules;
use crate::tipset_fields::tipset_of;
use fil_base::{Failure, Mem, Row};
use fil_message::{TipBlock, Tipset};
use std::alloc::Global;

/// A scenario while it is judged: what it is judged by, and its tipsets as the bytes that spell them.
#[derive(Drop)]
pub(crate) struct Outline<'a> {
    /// The rules.
    pub rules: RawRules,

    /// The bytes of each tipset.
    pub texts: Vec<&'a [u8]>,

    /// What is kept of the tipsets.
    pub kept: Outlines,
}

/// What is kept of tipsets that were read.
#[derive(Drop)]
pub(crate) struct Outlines {
    /// The tipsets without their messages.
    pub tipsets: Vec<Tipset>,

    /// Whether a block of one of them has too many messages.
    pub has_long_block: bool,

    /// Whether a message of one of them is too long.
    pub has_long_message: bool,
}

impl Outlines {
    /// What is kept of no tipsets, with room for so many.
    fn with_capacity(alloc: Global, count: usize) -> Mem<Outlines>
        ensures { IfOk result (λ kept. AreOutlines kept []) }
    {
        Ok(Outlines {
            tipsets: Vec::with_capacity(alloc, count)?,
            has_long_block: false,
            has_long_message: false,
        })
    }

    /// Adds what is kept of a tipset. Its messages are let go.
    fn add(&mut self, alloc: Global, tipset: Tipset) -> Mem<()>
        requires { IsRawTipset tipset }
        ensures { OnOk result ((done : List Tip) → AreOutlines self.old done →
            AreOutlines self.new (done ++ tipset ∷ [])) }
    {
        let long_block = has_long_block(tipset.blocks.as_slice());
        let long_message = blocks_have_long_message(tipset.blocks.as_slice());
        let outline = without_messages(alloc, tipset)?;
        self.tipsets.push(outline)?;
        self.has_long_block = either(self.has_long_block, long_block);
        self.has_long_message = either(self.has_long_message, long_message);
        Ok(())
    }
}

fn either(first: bool, second: bool) -> bool
    ensures { result ≡ (first || second) }
{
    first || second
}

/// What is kept of the tipsets that are spelled so. They are read one after another, and each is let go before the next.
pub(crate) fn outlines_of(alloc: Global, list: &[&[u8]]) -> Result<Outlines, Failure<FormFault>>
    requires { ArePartTexts (map (λ s. s.now) list.now) }
    ensures found { IfOk result (λ kept. (tipsets : List Tip)
        × (each_read tipset_read 0 (the_values (map (λ s. s.now) list.now)) ≡ Ok tipsets) × AreOutlines kept tipsets) }
    ensures fault { IfErr result (λ failure. IfFault failure (λ fault.
        each_read tipset_read 0 (the_values (map (λ s. s.now) list.now)) ≡ Err fault)) }
{
    let mut kept = Outlines::with_capacity(alloc, list.len())?;
    for (i, bytes) in list.iter().enumerate() {
        let tipset = tipset_of(alloc, i as u32, bytes)?;
        kept.add(alloc, tipset)?;
    }
    Ok(kept)
}

/// A tipset without its messages, which are let go.
fn without_messages(alloc: Global, tipset: Tipset) -> Mem<Tipset>
    ensures { IfOk result (λ outline. outline ≡ without_messages tipset) }
{
    let blocks = emptied_blocks(alloc, tipset.blocks.as_slice())?;
    Ok(Tipset {
        epoch: tipset.epoch,
        base_fee: tipset.base_fee,
        root: tipset.root,
        blocks,
    })
}

fn emptied_blocks(alloc: Global, blocks: &[TipBlock]) -> Mem<Row<TipBlock>>
    ensures { IfOk result (λ bare. bare ≡ map emptied blocks.now) }
{
    let mut bare = Vec::with_capacity(alloc, blocks.len())?;
    for block in blocks {
        bare.push(emptied(alloc, block))?;
    }
    Ok(Row::of(bare))
}

/// A block without its messages.
fn emptied(alloc: Global, block: &TipBlock) -> TipBlock
    ensures { result ≡ emptied block.now }
{
    TipBlock {
        miner: block.miner,
        award: block.award,
        messages: Row::of(Vec::new(alloc)),
    }
}
