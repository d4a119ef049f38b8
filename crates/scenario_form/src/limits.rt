ghost use Rattle.std.specs.Prelude.{◌≡◌, All, length, nat_lt};
ghost use Rattle.std.specs.List.{list_any};
ghost use Rattle.fil_message.specs.Sound.{IsMessage};
ghost use Rattle.scenario_form.specs.Outlines.{outline_limit};
ghost use Rattle.scenario_form.specs.Judging.{is_long, is_outside};
ghost use Rattle.scenario_form.specs.Parts.{IsRawBlock};

use crate::outline::Outline;
use fil_message::{Message, TipBlock, Tipset, message_len};

/// The greatest depth of calls.
const GREATEST_DEPTH: u64 = 64;

/// The greatest number of pages of a memory.
const GREATEST_PAGES: u64 = 512;

/// How many tipsets there may be.
const MOST_TIPSETS: usize = 1024;

/// How many blocks a tipset may have.
const MOST_BLOCKS: usize = 256;

/// How many messages a block may have.
const MOST_MESSAGES: usize = 10_000;

/// How many bytes the encoding of a message may have.
const LONGEST_MESSAGE: u64 = 1_048_576;

/// The least number of a limit that is exceeded, as [`ScenarioFault::Limit`](crate::ScenarioFault::Limit) has them.
pub(crate) fn exceeded_limit(outline: &Outline<'_>) -> Option<u32>
    ensures { result ≡ outline_limit outline.now }
{
    let tipsets = outline.kept.tipsets.as_slice();
    if is_outside(outline.rules.depth, GREATEST_DEPTH) {
        Some(0)
    } else if is_outside(outline.rules.pages, GREATEST_PAGES) {
        Some(1)
    } else if tipsets.len() > MOST_TIPSETS {
        Some(2)
    } else if have_many_blocks(tipsets) {
        Some(3)
    } else if outline.kept.has_long_block {
        Some(4)
    } else if outline.kept.has_long_message {
        Some(5)
    } else {
        None
    }
}

/// Whether a number is not from 1 to a greatest one.
fn is_outside(n: u64, greatest: u64) -> bool
    ensures { result ≡ is_outside n greatest }
{
    n == 0 || n > greatest
}

/// Whether a tipset has too many blocks.
fn have_many_blocks(tipsets: &[Tipset]) -> bool
    ensures { result ≡ list_any (λ t. nat_lt 256 (length t.blocks)) tipsets.now }
{
    for tipset in tipsets {
        if has_many_blocks(tipset) {
            return true;
        }
    }
    false
}

fn has_many_blocks(tipset: &Tipset) -> bool
    ensures { result ≡ nat_lt 256 (length tipset.now.blocks) }
{
    tipset.blocks.as_slice().len() > MOST_BLOCKS
}

/// Whether one of these blocks has too many messages.
pub(crate) fn has_long_block(blocks: &[TipBlock]) -> bool
    ensures { result ≡ list_any (λ b. nat_lt 10000 (length b.messages)) blocks.now }
{
    for block in blocks {
        if has_many_messages(block) {
            return true;
        }
    }
    false
}

fn has_many_messages(block: &TipBlock) -> bool
    ensures { result ≡ nat_lt 10000 (length block.now.messages) }
{
    block.messages.as_slice().len() > MOST_MESSAGES
}

/// Whether a message of one of these blocks is too long.
pub(crate) fn blocks_have_long_message(blocks: &[TipBlock]) -> bool
    requires { All IsRawBlock blocks.now }
    ensures { result ≡ list_any (λ b. list_any is_long b.messages) blocks.now }
{
    for block in blocks {
        if has_long_message(block.messages.as_slice()) {
            return true;
        }
    }
    false
}

fn has_long_message(messages: &[Message]) -> bool
    requires { All IsMessage messages.now }
    ensures { result ≡ list_any is_long messages.now }
{
    for message in messages {
        if is_long(message) {
            return true;
        }
    }
    false
}

fn is_long(message: &Message) -> bool
    requires { IsMessage message.now }
    ensures { result ≡ is_long message.now }
{
    message_len(message) > LONGEST_MESSAGE
}
