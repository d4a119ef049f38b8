use crate::tree_work::{Kind, tree_work};
use crate::unanswered::{Answer, Unanswered};
use crate::{addresses, amounts, amts, cars, cbor, cids, hamts, hashes, varints};
use std::alloc::{AllocError, Global};

/// The answer to a line, without its end.
pub fn answer_to(alloc: Global, line: &[u8]) -> Result<String, AllocError> {
    match answer_of_verb(alloc, line) {
        Ok(text) => Ok(text),
        Err(Unanswered::BadLine) => format!(in alloc; "bad line"),
        Err(Unanswered::NoMemory) => Err(AllocError),
    }
}

fn answer_of_verb(alloc: Global, line: &[u8]) -> Answer {
    let words: Vec<&[u8]> = line.split(|character| *character == b' ').collect(alloc)?;
    let Some((verb, words)) = words.as_slice().split_first() else {
        return Err(Unanswered::BadLine);
    };
    let Ok(verb) = str::from_utf8(verb) else {
        return Err(Unanswered::BadLine);
    };
    match (verb, words) {
        ("varint", [bytes]) => varints::varint(alloc, bytes),
        ("varintof", [number]) => varints::varint_of(alloc, number),
        ("amount", [bytes]) => amounts::amount(alloc, bytes),
        ("amountof", [number]) => amounts::amount_of(alloc, number),
        ("cid", [bytes]) => cids::cid(alloc, bytes),
        ("cidtext", [text]) => cids::cid_of_text(alloc, text),
        ("cidof", [codec, bytes]) => cids::cid_of_bytes(alloc, codec, bytes),
        ("base32", [bytes]) => cids::base32(alloc, bytes),
        ("unbase32", [text]) => cids::bytes_of_base32(alloc, text),
        ("address", [bytes]) => addresses::address(alloc, bytes),
        ("addresstext", [text]) => addresses::address_of_text(alloc, text),
        ("blake", [len, bytes]) => hashes::blake(alloc, len, bytes),
        ("blakecut", [len, piece, bytes]) => hashes::blake_in_pieces(alloc, len, piece, bytes),
        ("blakezeros", [len, count]) => hashes::blake_of_zeros(alloc, len, count),
        ("cbor", [bytes]) => cbor::cbor(alloc, bytes),
        ("links", [bytes]) => cbor::links_of(alloc, bytes),
        ("carfile", [piece, bytes]) => cars::car_file(alloc, piece, bytes),
        ("carof", [root, blocks @ ..]) => cars::car_of(alloc, root, blocks),
        ("findall", [count]) => cars::find_all(alloc, count),
        ("hamt", operations) => hamts::hamt(alloc, operations),
        ("hamtload", [root, blocks @ ..]) => hamts::hamt_load(alloc, root, blocks),
        ("hamtwork", words) => tree_work(alloc, Kind::Hamt, words),
        ("amt", operations) => amts::amt(alloc, operations),
        ("amtload", [root, blocks @ ..]) => amts::amt_load(alloc, root, blocks),
        ("amtwork", words) => tree_work(alloc, Kind::Amt, words),
        _ => Err(Unanswered::BadLine),
    }
}
