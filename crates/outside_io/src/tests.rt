use super::*;
use fil_base::{Bytes, Row};
use std::io;
use std::io::{ErrorKind, Read};
use std::test::Fail;

fn read<S: Source>(source: &mut S, buffer: &mut [u8]) -> Result<usize, Failed> {
    source.read(buffer)
}

fn write<K: Sink>(sink: &mut K, bytes: &[u8]) -> Result<usize, Failed> {
    sink.write(bytes)
}

/// A reader whose every second read fails.
#[derive(Drop)]
struct EverySecondFails<'a> {
    bytes: &'a [u8],
    fails: bool,
}

impl Read for EverySecondFails<'_> {
    fn read(&mut self, buf: &mut [u8]) -> io::Result<usize> {
        let fails = self.fails;
        self.fails = !fails;
        if fails {
            return Err(io::Error::from(ErrorKind::Other));
        }
        self.bytes.read(buf)
    }
}

#[test]
fn mem_source_gives_pieces_and_fails_in_mid_stream(rt: HostRuntime) -> Result<(), Fail> {
    let bytes = Bytes::of([10, 11, 12, 13, 14].to_vec(rt.alloc())?);
    let mut source = MemSource::new(bytes, 2, Row::of([1].to_vec(rt.alloc())?));
    let mut buffer = [0u8; 4];
    assert_eq!(rt; read(&mut source, &mut buffer), Ok(2));
    assert_eq!(rt; buffer, [10, 11, 0, 0]);
    assert_eq!(rt; read(&mut source, &mut buffer), Err(Failed));
    assert_eq!(rt; read(&mut source, &mut buffer), Ok(2));
    assert_eq!(rt; buffer, [12, 13, 0, 0]);
    assert_eq!(rt; read(&mut source, &mut buffer), Ok(1));
    assert_eq!(rt; buffer, [14, 13, 0, 0]);
    assert_eq!(rt; read(&mut source, &mut buffer), Ok(0));
    Ok(())
}

#[test]
fn mem_sink_takes_pieces_fails_and_fills(rt: HostRuntime) -> Result<(), Fail> {
    let failing = Row::of([1].to_vec(rt.alloc())?);
    let mut sink = MemSink::new(rt.alloc(), 2, failing, 3)?;
    assert_eq!(rt; write(&mut sink, &[1, 2, 3, 4]), Ok(2));
    assert_eq!(rt; write(&mut sink, &[3, 4]), Err(Failed));
    assert_eq!(rt; sink.taken(), [1, 2].as_slice());
    assert_eq!(rt; write(&mut sink, &[3, 4]), Ok(1));
    assert_eq!(rt; write(&mut sink, &[4]), Err(Failed));
    assert_eq!(rt; write(&mut sink, &[]), Ok(0));
    assert_eq!(rt; sink.taken(), [1, 2, 3].as_slice());
    Ok(())
}

#[test]
fn adapters_pass_on_bytes_and_count_errors(rt: HostRuntime) -> Result<(), Fail> {
    let mut buffer = [0u8; 2];
    let mut source = ReadSource::new(EverySecondFails {
        bytes: &[7, 8, 9],
        fails: false,
    });
    assert_eq!(rt; read(&mut source, &mut buffer), Ok(2));
    assert_eq!(rt; buffer, [7, 8]);
    assert_eq!(rt; read(&mut source, &mut buffer), Err(Failed));
    assert_eq!(rt; read(&mut source, &mut buffer), Ok(1));
    assert_eq!(rt; buffer, [9, 8]);

    let mut room = [0u8; 3];
    let mut sink = WriteSink::new(room.as_mut_slice());
    assert_eq!(rt; write(&mut sink, &[7, 8]), Ok(2));
    assert_eq!(rt; write(&mut sink, &[9, 10]), Ok(1));
    assert_eq!(rt;
        write(&mut sink, &[10]),
        Err(Failed),
        "a writer that takes nothing"
    );
    assert_eq!(rt; write(&mut sink, &[]), Ok(0));
    assert_eq!(rt; room, [7, 8, 9]);
    Ok(())
}

#[test]
fn safe_forms_never_fail(rt: HostRuntime) -> Result<(), Fail> {
    let mut source = SafeSource::new(Bytes::of([5, 6, 7].to_vec(rt.alloc())?));
    let mut buffer = [0u8; 2];
    assert_eq!(rt; read(&mut source, &mut buffer), Ok(2));
    assert_eq!(rt; buffer, [5, 6]);
    assert_eq!(rt; read(&mut source, &mut buffer), Ok(1));
    assert_eq!(rt; read(&mut source, &mut buffer), Ok(0));
    assert_eq!(rt; write(&mut SafeSink::new(), &[5, 6]), Ok(2));
    Ok(())
}

#[test]
fn no_gate_lets_pass(rt: HostRuntime) {
    NoGate.arrive(&rt, 0);
    NoGate.holding(&rt, 0, 1);
}
