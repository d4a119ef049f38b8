ghost use Rattle.std.specs.Prelude.{◌<◌, ◌^◌, IfOk};

use crate::trees::{base_of_words, cid_of_word, put_cids, put_value, refused, spelled, value_of};
use crate::unanswered::{Answer, Unanswered};
use crate::words::{hex_of_cid, number_in};
use amt_map::Amt;
use dag_cbor::Value;
use std::alloc::Global;
use tree_blocks::NoBlocks;

/// `amt OP OP ..`: the root after the operations on the empty list, what each of them answered, and the nodes.
pub fn amt(alloc: Global, operations: &[&[u8]]) -> Answer {
    let mut tree = Amt::empty(alloc);
    let mut answers = String::new(alloc);
    for word in operations {
        let answer = carried_out(alloc, &mut tree, word)?;
        put_value(alloc, &mut answers, answer)?;
    }
    let (root, nodes) = tree.flush(&NoBlocks)?;
    let mut text = format!(in alloc; "ok {}{answers}", hex_of_cid(alloc, &root)?)?;
    put_cids(alloc, &mut text, &nodes)?;
    Ok(text)
}

fn carried_out(alloc: Global, tree: &mut Amt, word: &[u8]) -> Result<Option<Value>, Unanswered> {
    let parts: Vec<&[u8]> = word.split(|character| *character == b':').collect(alloc)?;
    let Some((verb, parts)) = parts.as_slice().split_first() else {
        return Err(Unanswered::BadLine);
    };
    let Ok(verb) = str::from_utf8(verb) else {
        return Err(Unanswered::BadLine);
    };
    match (verb, parts) {
        ("set", [index, value]) => {
            let index = index_of(index)?;
            let value = value_of(alloc, value)?;
            Ok(tree.set(&NoBlocks, index, value)?)
        }
        ("remove", [index]) => Ok(tree.remove(&NoBlocks, index_of(index)?)?),
        ("get", [index]) => Ok(tree.get(&NoBlocks, index_of(index)?)?),
        _ => Err(Unanswered::BadLine),
    }
}

/// The index that a word gives, below 2^60.
fn index_of(word: &[u8]) -> Result<u64, Unanswered>
    ensures { IfOk result (λ index. index < 2 ^ 60) }
{
    number_in(word, 0, (1 << 60) - 1)
}

/// `amtload ROOT B1 B2 ..`: the pairs of the tree under a root whose nodes are among the blocks.
pub fn amt_load(alloc: Global, root: &[u8], blocks: &[&[u8]]) -> Answer {
    let root = cid_of_word(alloc, root)?;
    let base = base_of_words(alloc, blocks)?;
    match Amt::load(alloc, &base, &root) {
        Err(failure) => refused(alloc, failure),
        Ok(tree) => {
            let mut text = format!(in alloc; "ok")?;
            for (index, value) in tree.pairs(&base)?.as_slice() {
                let value = spelled(alloc, value)?;
                text.push_str(&format!(in alloc; " {index}:{value}")?)?;
            }
            Ok(text)
        }
    }
}
