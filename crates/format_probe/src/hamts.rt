use crate::trees::{base_of_words, cid_of_word, put_cids, put_value, refused, spelled, value_of};
use crate::unanswered::{Answer, Unanswered};
use crate::words::{bytes_of, hex_of, hex_of_cid};
use dag_cbor::Value;
use hamt_map::Hamt;
use std::alloc::Global;
use tree_blocks::NoBlocks;

/// `hamt OP OP ..`: the root after the operations on the empty map, what each of them answered, and the nodes.
pub fn hamt(alloc: Global, operations: &[&[u8]]) -> Answer {
    let mut tree = Hamt::empty(alloc);
    let mut answers = String::new(alloc);
    for word in operations {
        let answer = carried_out(alloc, &mut tree, word)?;
        put_value(alloc, &mut answers, answer)?;
    }
    let (root, nodes) = tree.flush(&NoBlocks)?;
    let mut text = format!(in alloc; "ok {}{answers}", hex_of_cid(alloc, &root)?)?;
    put_cids(alloc, &mut text, &nodes)?;
    Ok(text)
}

fn carried_out(alloc: Global, tree: &mut Hamt, word: &[u8]) -> Result<Option<Value>, Unanswered> {
    let parts: Vec<&[u8]> = word.split(|character| *character == b':').collect(alloc)?;
    let Some((verb, parts)) = parts.as_slice().split_first() else {
        return Err(Unanswered::BadLine);
    };
    let Ok(verb) = str::from_utf8(verb) else {
        return Err(Unanswered::BadLine);
    };
    match (verb, parts) {
        ("set", [key, value]) => {
            let key = bytes_of(alloc, key)?;
            let value = value_of(alloc, value)?;
            Ok(tree.set(&NoBlocks, &key, value)?)
        }
        ("remove", [key]) => Ok(tree.remove(&NoBlocks, &bytes_of(alloc, key)?)?),
        ("get", [key]) => Ok(tree.get(&NoBlocks, &bytes_of(alloc, key)?)?),
        _ => Err(Unanswered::BadLine),
    }
}

/// `hamtload ROOT B1 B2 ..`: the pairs of the tree under a root whose nodes are among the blocks.
pub fn hamt_load(alloc: Global, root: &[u8], blocks: &[&[u8]]) -> Answer {
    let root = cid_of_word(alloc, root)?;
    let base = base_of_words(alloc, blocks)?;
    match Hamt::load(alloc, &base, &root) {
        Err(failure) => refused(alloc, failure),
        Ok(tree) => {
            let mut text = format!(in alloc; "ok")?;
            for (key, value) in tree.pairs(&base)?.as_slice() {
                let key = hex_of(alloc, key.as_slice())?;
                let value = spelled(alloc, value)?;
                text.push_str(&format!(in alloc; " {key}:{value}")?)?;
            }
            Ok(text)
        }
    }
}
