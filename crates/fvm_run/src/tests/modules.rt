use super::{command_ends, sink, source};
use crate::command::Command;
use crate::plain::run_plain;
use crate::status::status_number;
use std::test::Fail;

/// The smallest module that can be run: an exported memory of one page, and a function that gives 0.
const SMALLEST: &[u8] =
    b"\x00asm\x01\x00\x00\x00\x01\x06\x01\x60\x01\x7f\x01\x7f\x03\x02\x01\x00\x05\x03\x01\x00\x01\
    \x07\x13\x02\x06memory\x02\x00\x06invoke\x00\x00\x0a\x06\x01\x04\x00\x41\x00\x0b";

/// Its function drops an operand that is not there.
const NOTHING_TO_DROP: &[u8] =
    b"\x00asm\x01\x00\x00\x00\x01\x06\x01\x60\x01\x7f\x01\x7f\x03\x02\x01\x00\x05\x03\x01\x00\x01\
    \x07\x13\x02\x06memory\x02\x00\x06invoke\x00\x00\x0a\x05\x01\x03\x00\x1a\x0b";

const COUNTS: &[u8] = b"ok types 1 imports 0 functions 1 pages 1\n";

#[test]
fn a_valid_module_is_counted(rt: HostRuntime) -> Result<(), Fail> {
    assert!(rt; command_ends(&rt, "check", SMALLEST, 0, COUNTS, b"")?);
    Ok(())
}

#[test]
fn a_module_is_refused_by_its_first_fault(rt: HostRuntime) -> Result<(), Fail> {
    assert!(rt; command_ends(&rt, "check", b"", 3, b"", b"refused wasm Form 0\n")?);
    assert!(rt;
        command_ends(
            &rt,
            "check",
            NOTHING_TO_DROP,
            3,
            b"",
            b"refused check Underflow 0 0\n"
        )?
    );
    Ok(())
}

#[test]
fn a_sink_that_fails_keeps_a_front_of_the_counts(rt: HostRuntime) -> Result<(), Fail> {
    let mut source = source(rt.alloc(), SMALLEST, 8, &[])?;
    let mut out = sink(rt.alloc(), 10, &[1])?;
    let status = run_plain(rt.alloc(), &Command::Check, &mut source, &mut out);
    assert_eq!(rt; status_number(&status), 5);
    assert_eq!(rt; out.taken(), b"ok types 1".as_slice());
    Ok(())
}
