ghost use Rattle.std.specs.Prelude.{◌≡◌, ◌++◌, ℕ, List, [], Err, IfErr, IfOk, OnErr, OnOk};
ghost use Rattle.fil_base.specs.Failure.{IfFault};
ghost use Rattle.fil_base.specs.declared.failure.Failure.TheVariants.{NoMemory as OutOfMemory};
ghost use Rattle.car_file.specs.Sections.{AreRead, HasRead, IsCutAfter, IsFaultAfter, Joins, SameButBegun, SameSections};

use crate::fault::{CarFault, CarKind};
use crate::frame::fill;
use crate::section::next_block;
use cid_core::Block;
use fil_base::{Failure, Mem, Row};
use std::alloc::Global;

/// Reads sections that follow one another: the blocks of those that are whole, where these end, and the bytes of one
/// that is not. Of a section that lies in one piece the bytes are copied once, of one that crosses pieces twice.
#[derive(Drop)]
pub(crate) struct SectionReader {
    blocks: Vec<Block>,
    end: u64,
    begun: Vec<u8>,
}

impl SectionReader {
    /// The sections of the bytes, behind those of the blocks, which end at `begin`.
    pub(crate) fn read(
        alloc: Global,
        mut blocks: Vec<Block>,
        begin: u64,
        bytes: &[u8],
    ) -> Result<SectionReader, Failure<CarFault>>
        ensures found { (front given : List ℕ) → AreRead front blocks.items begin bytes.now given
            → IfOk result (λ sections. HasRead front sections given) }
        ensures fault { (front given : List ℕ) → AreRead front blocks.items begin bytes.now given
            → IfErr result (λ failure. IfFault failure (IsFaultAfter front given)) }
    {
        let mut end = begin;
        let mut rest = bytes;
        while let Some((block, behind)) = next_block(alloc, rest, end)? {
            blocks.push(block)?;
            end = end.saturating_add((rest.len() - behind.len()) as u64);
            rest = behind;
        }
        let begun = Vec::from_slice(alloc, rest)?;
        Ok(SectionReader { blocks, end, begun })
    }

    /// Takes the next bytes. Where there is no memory, it takes none.
    pub(crate) fn feed(&mut self, alloc: Global, piece: &[u8]) -> Result<(), Failure<CarFault>>
        ensures taken { (front given : List ℕ) → HasRead front self.old given
            → OnOk result (HasRead front self.new (given ++ piece.now)) }
        ensures unchanged { (front given : List ℕ) → HasRead front self.old given
            → result ≡ Err OutOfMemory → HasRead front self.new given }
        ensures fault { (front given : List ℕ) → HasRead front self.old given
            → IfErr result (λ failure. IfFault failure (IsFaultAfter front (given ++ piece.now))) }
    {
        if self.begun.is_empty() {
            return self.feed_behind(alloc, piece);
        }
        let before = self.begun.len();
        let fed = self.feed_begun(alloc, piece);
        if matches!(fed, Err(Failure::NoMemory)) {
            self.begun.truncate(before);
        }
        fed
    }

    /// The blocks of the sections, if the last is whole.
    pub(crate) fn finish(self) -> Result<Row<Block>, CarFault>
        ensures found { (front given : List ℕ) → HasRead front self given
            → IfOk result (λ blocks. (end : ℕ) × AreRead front blocks end [] given) }
        ensures fault { (front given : List ℕ) → HasRead front self given → IfErr result (IsCutAfter front given) }
    {
        let SectionReader { blocks, end, begun } = self;
        if !begun.is_empty() {
            return Err(CarFault {
                kind: CarKind::Cut,
                at: end.saturating_add(begun.len() as u64),
            });
        }
        Ok(Row::of(blocks))
    }

    // The same as `feed` where no section has begun.
    fn feed_behind(&mut self, alloc: Global, piece: &[u8]) -> Result<(), Failure<CarFault>>
        ensures taken { (front given : List ℕ) → HasRead front self.old given → self.old.begun.items ≡ []
            → OnOk result (HasRead front self.new (given ++ piece.now)) }
        ensures unchanged { result ≡ Err OutOfMemory → SameSections self.old self.new }
        ensures fault { (front given : List ℕ) → HasRead front self.old given → self.old.begun.items ≡ []
            → IfErr result (λ failure. IfFault failure (IsFaultAfter front (given ++ piece.now))) }
    {
        let next = SectionReader::read(alloc, Vec::new(alloc), self.end, piece)?;
        self.join(next)?;
        Ok(())
    }

    // The same as `feed` where one has begun. Where there is no memory, bytes of the piece may follow the section's.
    fn feed_begun(&mut self, alloc: Global, piece: &[u8]) -> Result<(), Failure<CarFault>>
        ensures taken { (front given : List ℕ) → HasRead front self.old given
            → OnOk result (HasRead front self.new (given ++ piece.now)) }
        ensures kept { result ≡ Err OutOfMemory → SameButBegun self.old self.new }
        ensures fault { (front given : List ℕ) → HasRead front self.old given
            → IfErr result (λ failure. IfFault failure (IsFaultAfter front (given ++ piece.now))) }
    {
        let rest = fill(&mut self.begun, piece)?;
        let Some((block, _)) = next_block(alloc, self.begun.as_slice(), self.end)? else {
            return Ok(());
        };
        let mut blocks = Vec::new(alloc);
        blocks.push(block)?;
        let end = self.end.saturating_add(self.begun.len() as u64);
        let next = SectionReader::read(alloc, blocks, end, rest)?;
        self.join(next)?;
        Ok(())
    }

    // Puts the other sections in place of the one that has begun. Where there is no memory, nothing changes.
    fn join(&mut self, next: SectionReader) -> Mem<()>
        ensures joined { OnOk result (Joins self.old.blocks.items next self.new) }
        ensures unchanged { OnErr result (SameSections self.old self.new) }
    {
        let SectionReader {
            mut blocks,
            end,
            begun,
        } = next;
        self.blocks.append(&mut blocks)?;
        self.end = end;
        self.begun = begun;
        Ok(())
    }
}
