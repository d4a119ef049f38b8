ghost use Rattle.std.specs.Prelude.{◌<◌};

use crate::answering::fvm_main;
use crate::command::{Command, command_of};
use crate::status::status_number;
use fil_base::{Bytes, Row};
use outside_io::{MemSink, MemSource, NoGate, SafeSink, SafeSource, Sink, Source};
use std::alloc::Global;
use std::sync::Wait;
use std::test::Fail;
use std::thread::Threads;

mod cars;
mod lines;
mod modules;

/// Two accounts, and three transfers of 3 from the one to the other.
const TRANSFERS: &[u8] =
    b"\x84\x00\x00\x82\x83\x18\x64\x00\x42\x00\x0a\x83\x18\x65\x00\x40\x83\x84\x18\x64\x18\x65\x00\x42\x00\x03\x84\x18\x64\x18\x65\x00\x42\x00\x03\x84\x18\x64\x18\x65\x01\x42\x00\x03";

const REPORT: &[u8] =
    b"epoch 0\nmessage 0 exit 0\nmessage 1 exit 2\nmessage 2 exit 0\nactor 100 nonce 2 balance 4\nactor 101 nonce 0 balance 6\nend\n";

/// The header of a CAR file whose root is the CID of version 1 of DAG-CBOR (71) under BLAKE2b-256 (b220) with the
/// digest 01 02 .. 20, and no blocks.
const NO_BLOCKS: &[u8] = b"\x3c\xa2\x65roots\x81\xd8\x2a\x58\x27\x00\x01\x71\xa0\xe4\x02\x20\
    \x01\x02\x03\x04\x05\x06\x07\x08\x09\x0a\x0b\x0c\x0d\x0e\x0f\x10\
    \x11\x12\x13\x14\x15\x16\x17\x18\x19\x1a\x1b\x1c\x1d\x1e\x1f\x20\x67version\x01";

/// The text of the root is as Python's `base64` gives it.
const NO_ROOT: &[u8] =
    b"refused scenario Root bafy2bzaceaaqeayeaudaocajbifqydiob4ibceqtcqkrmfyydenbwha5dypsa\n";

const USAGE: &[u8] =
    b"usage: run [--workers W] [--engines E] | schedule [--engines E] [--seed S] | check | pack | generate S N | load S N\n";

const ROOM: usize = 1_048_576;

/// A source of these bytes, of which the calls fail that are numbered so.
fn source(alloc: Global, bytes: &[u8], piece: usize, failing: &[u64]) -> Result<MemSource, Fail>
    requires { 0 < piece }
{
    let bytes = Bytes::of(Vec::from_slice(alloc, bytes)?);
    Ok(MemSource::new(bytes, piece, Row::of(Vec::from_slice(alloc, failing)?)))
}

fn sink(alloc: Global, piece: usize, failing: &[u64]) -> Result<MemSink, Fail>
    requires { 0 < piece }
{
    Ok(MemSink::new(
        alloc,
        piece,
        Row::of(Vec::from_slice(alloc, failing)?),
        ROOM,
    )?)
}

fn words_of(alloc: Global, texts: &[&str]) -> Result<Vec<String>, Fail> {
    let mut words = Vec::new(alloc);
    for text in texts {
        words.push(String::from_str(alloc, text)?)?;
    }
    Ok(words)
}

/// Whether `run` ends on the input with this status, this report and this line on faults.
fn ends<R: Threads + Wait + Sync + AllocGlobal>(
    rt: &R,
    input: &[u8],
    status: u8,
    report: &[u8],
    line: &[u8],
) -> Result<bool, Fail> {
    command_ends(rt, "run", input, status, report, line)
}

/// The same of any command.
fn command_ends<R: Threads + Wait + Sync + AllocGlobal>(
    rt: &R,
    word: &str,
    input: &[u8],
    status: u8,
    report: &[u8],
    line: &[u8],
) -> Result<bool, Fail> {
    let words = words_of(rt.alloc(), &[word])?;
    let mut source = source(rt.alloc(), input, 7, &[])?;
    let mut out = sink(rt.alloc(), 5, &[])?;
    let mut faults = sink(rt.alloc(), 5, &[])?;
    let ended = fvm_main(
        rt,
        rt.alloc(),
        words.as_slice(),
        &mut source,
        &mut out,
        &mut faults,
        &NoGate,
    );
    Ok(status_number(&ended) == status && out.taken() == report && faults.taken() == line)
}

#[test]
fn account_lists_are_run(rt: HostRuntime) -> Result<(), Fail> {
    assert!(rt; ends(&rt, b"\x84\x00\x00\x80\x80", 0, b"epoch 0\nend\n", b"")?);
    assert!(rt; ends(&rt, TRANSFERS, 0, REPORT, b"")?);
    Ok(())
}

#[test]
fn refusals_have_a_line_each(rt: HostRuntime) -> Result<(), Fail> {
    let table: [(&[u8], &[u8]); 8] = [
        (b"", b"refused car Cut 0\n"),
        (b"\x84\x01\x00\x80\x80", b"refused car Cut 5\n"),
        (b"\x84\x00\x00\x80", b"refused cbor Cut 4\n"),
        (b"\x84\x00\x00\x80\x80\x00", b"refused cbor Trailing 5\n"),
        (b"\x84\x00\x18\x17\x80\x80", b"refused cbor LongHead 2\n"),
        (b"\x84\x00\x60\x80\x80", b"refused form WrongKind 1\n"),
        (b"\x84\x00\x20\x80\x80", b"refused form OutOfRange 1\n"),
        (
            b"\x84\x00\x00\x81\x83\x00\x00\x42\x01\x05\x80",
            b"refused form OutOfRange 2\n",
        ),
    ];
    for (input, line) in table {
        assert!(rt; ends(&rt, input, 3, b"", line)?);
    }
    Ok(())
}

#[test]
fn a_root_that_has_no_block_is_named(rt: HostRuntime) -> Result<(), Fail> {
    assert!(rt; ends(&rt, NO_BLOCKS, 3, b"", NO_ROOT)?);
    Ok(())
}

#[test]
fn faulty_words_read_nothing(rt: HostRuntime) -> Result<(), Fail> {
    let table: [&[&str]; 6] = [
        &[],
        &["walk"],
        &["check", "check"],
        &["run", "--workers", "0"],
        &["run", "run"],
        &[""],
    ];
    for texts in table {
        let words = words_of(rt.alloc(), texts)?;
        assert_eq!(rt; command_of(words.as_slice()), None);
        // A source that fails at once was not read.
        let mut source = source(rt.alloc(), TRANSFERS, 8, &[0])?;
        let mut out = sink(rt.alloc(), 5, &[])?;
        let mut faults = sink(rt.alloc(), 50, &[])?;
        let status = fvm_main(
            &rt,
            rt.alloc(),
            words.as_slice(),
            &mut source,
            &mut out,
            &mut faults,
            &NoGate,
        );
        assert_eq!(rt; status_number(&status), 2);
        assert_eq!(rt; out.taken(), b"".as_slice());
        assert_eq!(rt; faults.taken(), USAGE);
    }
    Ok(())
}

#[test]
fn a_failing_source_is_a_read_fault(rt: HostRuntime) -> Result<(), Fail> {
    let words = words_of(rt.alloc(), &["run"])?;
    assert_eq!(rt; command_of(words.as_slice()), Some(Command::Run));
    let mut source = source(rt.alloc(), TRANSFERS, 8, &[1])?;
    let mut out = sink(rt.alloc(), 10, &[])?;
    let mut faults = sink(rt.alloc(), 4, &[])?;
    let status = fvm_main(
        &rt,
        rt.alloc(),
        words.as_slice(),
        &mut source,
        &mut out,
        &mut faults,
        &NoGate,
    );
    assert_eq!(rt; status_number(&status), 4);
    assert_eq!(rt; out.taken(), b"".as_slice());
    assert_eq!(rt; faults.taken(), b"read fault\n".as_slice());
    Ok(())
}

#[test]
fn a_failing_sink_is_a_write_fault(rt: HostRuntime) -> Result<(), Fail> {
    let words = words_of(rt.alloc(), &["run"])?;
    let mut source = source(rt.alloc(), TRANSFERS, 8, &[])?;
    let mut out = sink(rt.alloc(), 10, &[1])?;
    // The sink for faults fails too: the status stays, and a front of the line was taken.
    let mut faults = sink(rt.alloc(), 4, &[2])?;
    let status = fvm_main(
        &rt,
        rt.alloc(),
        words.as_slice(),
        &mut source,
        &mut out,
        &mut faults,
        &NoGate,
    );
    assert_eq!(rt; status_number(&status), 5);
    assert_eq!(rt; out.taken(), b"epoch 0\nme".as_slice());
    assert_eq!(rt; faults.taken(), b"write fa".as_slice());
    Ok(())
}

#[test]
fn safe_sources_and_sinks_end_with_the_answer(rt: HostRuntime) -> Result<(), Fail> {
    let words = words_of(rt.alloc(), &["run"])?;
    let mut source = SafeSource::new(Bytes::of(Vec::from_slice(rt.alloc(), TRANSFERS)?));
    let status = fvm_main(
        &rt,
        rt.alloc(),
        words.as_slice(),
        &mut source,
        &mut SafeSink::new(),
        &mut SafeSink::new(),
        &NoGate,
    );
    assert_eq!(rt; status_number(&status), 0);
    Ok(())
}
