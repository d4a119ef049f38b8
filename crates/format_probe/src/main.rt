//! Asks the format layers from outside, line by line: each line of standard input is a verb and its words, and gets one
//! line as answer. docs/formats.md has the verbs.
//!
//! ```text
//! $ printf 'address 008008\nblake 32 616263\n' | format_probe
//! ok f01024
//! bddd813c634239723171ef3fee98579b94964e3bb1cb3e427262c8c068d52319
//! ```
#![tactic(auto)]

mod addresses;
mod amounts;
mod amts;
mod answer;
mod cars;
mod cbor;
mod cids;
mod hamts;
mod hashes;
mod tree_work;
mod trees;
mod unanswered;
mod varints;
mod words;

use answer::answer_to;
use std::io::{self, BufRead, BufReader, BufWriter, Write};

fn main(rt: HostRuntime) -> io::Result<()> {
    let alloc = rt.alloc();
    let lines = BufReader::new(alloc, rt.stdin())?.split(alloc, b'\n');
    let mut out = BufWriter::new(alloc, rt.stdout())?;
    for line in lines {
        let answer = answer_to(alloc, line?.as_slice())?;
        out.write_all(answer.as_bytes())?;
        out.write_all(b"\n")?;
    }
    out.flush()
}
