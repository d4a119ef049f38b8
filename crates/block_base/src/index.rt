ghost use Rattle.std.specs.Prelude.{◌≡◌, ◌<◌, ◌≤◌, ℕ, IfOk, false, length, map, slice_index_or, true};
ghost use Rattle.std.specs.Option.{option_copied};
ghost use Rattle.cid_core.specs.BlockParts.{found};
ghost use Rattle.block_base.specs.Index.{IsEntry, IsIndex, is_before};
ghost use Rattle.block_base.specs.Order.{key_of as key};
ghost use Rattle.block_base.specs.declared.index.Entry.{Entry};

use crate::name::{Name, key_of, name_of, names_of};
use cid_core::Block;
use fil_base::{Cid, Mem};
use std::alloc::Global;

/// The place of a block, and the key of its CID.
#[derive(Clone, Copy, Debug)]
pub(crate) struct Entry {
    key: u64,
    place: usize,
}

/// An entry for each block, in the order of their CIDs, and of their places where these are the same.
pub(crate) fn index_of(alloc: Global, blocks: &[Block]) -> Mem<Vec<Entry>>
    ensures { IfOk result (λ index. IsIndex blocks.now index.items) }
{
    let mut names = names_of(alloc, blocks)?;
    names.sort_unstable();
    entries_of(alloc, &names)
}

// The entries of the names, in their order.
fn entries_of(alloc: Global, names: &[Name<'_>]) -> Mem<Vec<Entry>>
    ensures { IfOk result (λ entries. entries.items ≡ map (λ n. record { key = n.key; place = n.place }) names.now) }
{
    let entries = names
        .iter()
        .map(|name| Entry {
            key: name.key,
            place: name.place,
        })
        .collect(alloc)?;
    Ok(entries)
}

/// The first block under the CID.
pub(crate) fn find_first<'a>(blocks: &'a [Block], index: &[Entry], cid: &Cid) -> Option<&'a Block>
    requires { IsIndex blocks.now index.now }
    ensures { option_copied result ≡ found blocks.now cid.now }
{
    let before = count_before(blocks, index, cid);
    let entry = index.get(before)?;
    let block = &blocks[entry.place];
    if block.cid() == cid {
        Some(block)
    } else {
        None
    }
}

// How many entries are before those of the CID.
fn count_before(blocks: &[Block], index: &[Entry], cid: &Cid) -> usize
    requires { IsIndex blocks.now index.now }
    ensures bound { result ≤ length index.now }
    ensures before { (k : ℕ) (d : Entry) → k < result →
        is_before blocks.now (slice_index_or index.now k d) (cid.now, 0) ≡ true }
    ensures behind { (k : ℕ) (d : Entry) → result ≤ k → k < length index.now →
        is_before blocks.now (slice_index_or index.now k d) (cid.now, 0) ≡ false }
{
    let key = key_of(cid);
    let mut low = 0;
    let mut high = index.len();
    while low < high {
        let middle = low + (high - low) / 2;
        if is_entry_before(blocks, index[middle], key, cid) {
            low = middle + 1;
        } else {
            high = middle;
        }
    }
    low
}

// Whether the entry is before those of the CID, whose key is wanted.
fn is_entry_before(blocks: &[Block], entry: Entry, wanted: u64, cid: &Cid) -> bool
    requires entry { IsEntry blocks.now entry }
    requires wanted { wanted ≡ key cid.now }
    ensures { result ≡ is_before blocks.now entry (cid.now, 0) }
{
    if entry.key != wanted {
        return entry.key < wanted;
    }
    name_of(blocks[entry.place].cid(), entry.place)
        .cmp(&name_of(cid, 0))
        .is_lt()
}
