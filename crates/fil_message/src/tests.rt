use crate::*;
use cbor_fields::{FieldFault, FieldKind};
use dag_cbor::{Value, decode};
use fil_address::from_bytes;
use fil_base::{Bytes, ExitCode, Failure, Gas, Mem, NoMemory};
use std::alloc::Global;
use std::test::Fail;

// From f0100 to f0101, nonce 0, value 3, limit 1,000,000, cap 100, premium 1, method 0, no parameters: put together by
// hand from the layout.
const MESSAGE: [u8; 25] = [
    0x8a, 0x00, 0x42, 0x00, 0x65, 0x42, 0x00, 0x64, 0x00, 0x42, 0x00, 0x03, 0x1a, 0x00, 0x0f, 0x42,
    0x40, 0x42, 0x00, 0x64, 0x42, 0x00, 0x01, 0x00, 0x40,
];

fn fault_of(alloc: Global, value: &Value) -> Mem<Option<FieldFault>> {
    match read_message(alloc, value) {
        Ok(_) => Ok(None),
        Err(Failure::Fault(MessageFault::Field(fault))) => Ok(Some(fault)),
        Err(Failure::NoMemory) => Err(NoMemory),
    }
}

fn fault(index: u32, kind: FieldKind) -> Option<FieldFault> {
    Some(FieldFault { index, kind })
}

#[test]
fn a_message_is_read_and_written(rt: HostRuntime) -> Result<(), Fail> {
    let alloc = rt.alloc();
    let message = read_message(alloc, &decode(alloc, &MESSAGE)?)?;
    assert_eq!(rt; Ok(message.to), from_bytes(&[0x00, 101]));
    assert_eq!(rt; Ok(message.from), from_bytes(&[0x00, 100]));
    assert_eq!(rt; message.nonce, 0);
    assert_eq!(rt; message.value.number(), 3);
    assert_eq!(rt; message.limit.number(), 1_000_000);
    assert_eq!(rt; message.cap.number(), 100);
    assert_eq!(rt; message.premium.number(), 1);
    assert_eq!(rt; message.method, 0);
    assert!(rt; message.params.as_slice().is_empty());
    assert_eq!(rt;
        message_bytes(alloc, &message)?.as_slice(),
        MESSAGE.as_slice()
    );
    Ok(())
}

#[test]
fn values_of_another_form_are_no_messages(rt: HostRuntime) -> Result<(), Fail> {
    let alloc = rt.alloc();
    // Not a list, and a list of nine items.
    assert_eq!(rt;
        fault_of(alloc, &decode(alloc, &[0x00])?)?,
        fault(0, FieldKind::WrongLength)
    );
    let nine = [0x89, 0, 0, 0, 0, 0, 0, 0, 0, 0];
    assert_eq!(rt;
        fault_of(alloc, &decode(alloc, &nine)?)?,
        fault(0, FieldKind::WrongLength)
    );
    // Version 1, and a version that is a byte string.
    let version = [0x8a, 1, 0, 0, 0, 0, 0, 0, 0, 0, 0];
    assert_eq!(rt;
        fault_of(alloc, &decode(alloc, &version)?)?,
        fault(0, FieldKind::OutOfRange)
    );
    let bytes = [0x8a, 0x40, 0, 0, 0, 0, 0, 0, 0, 0, 0];
    assert_eq!(rt;
        fault_of(alloc, &decode(alloc, &bytes)?)?,
        fault(0, FieldKind::WrongKind)
    );
    Ok(())
}

#[test]
fn the_first_bad_field_is_the_fault(rt: HostRuntime) -> Result<(), Fail> {
    let alloc = rt.alloc();
    // No receiver's address has protocol 4; the sender's is no byte string.
    let to = [0x8a, 0, 0x42, 0x04, 0x65, 0, 0, 0, 0, 0, 0, 0, 0];
    assert_eq!(rt;
        fault_of(alloc, &decode(alloc, &to)?)?,
        fault(1, FieldKind::OutOfRange)
    );
    let from = [0x8a, 0, 0x42, 0x00, 0x65, 0, 0, 0, 0, 0, 0, 0, 0];
    assert_eq!(rt;
        fault_of(alloc, &decode(alloc, &from)?)?,
        fault(2, FieldKind::WrongKind)
    );
    // A nonce of 2^64 - 1.
    let nonce = [
        0x8a, 0, 0x42, 0x00, 0x65, 0x42, 0x00, 0x64, 0x1b, 0xff, 0xff, 0xff, 0xff, 0xff, 0xff,
        0xff, 0xff, 0, 0, 0, 0, 0, 0,
    ];
    assert_eq!(rt;
        fault_of(alloc, &decode(alloc, &nonce)?)?,
        fault(3, FieldKind::OutOfRange)
    );
    // A value with a zero in front.
    let value = [
        0x8a, 0, 0x42, 0x00, 0x65, 0x42, 0x00, 0x64, 0, 0x43, 0x00, 0x00, 0x05, 0, 0, 0, 0, 0,
    ];
    assert_eq!(rt;
        fault_of(alloc, &decode(alloc, &value)?)?,
        fault(4, FieldKind::OutOfRange)
    );
    Ok(())
}

#[test]
fn a_gas_limit_is_at_most_that_of_a_block(rt: HostRuntime) -> Result<(), Fail> {
    let alloc = rt.alloc();
    // 10^10 is 2540be400 in hexadecimal. The cap that follows is no byte string.
    let most = [
        0x8a, 0, 0x42, 0x00, 0x65, 0x42, 0x00, 0x64, 0, 0x40, 0x1b, 0x00, 0x00, 0x00, 0x02, 0x54,
        0x0b, 0xe4, 0x00, 0, 0, 0, 0,
    ];
    assert_eq!(rt;
        fault_of(alloc, &decode(alloc, &most)?)?,
        fault(6, FieldKind::WrongKind)
    );
    let above = [
        0x8a, 0, 0x42, 0x00, 0x65, 0x42, 0x00, 0x64, 0, 0x40, 0x1b, 0x00, 0x00, 0x00, 0x02, 0x54,
        0x0b, 0xe4, 0x01, 0, 0, 0, 0,
    ];
    assert_eq!(rt;
        fault_of(alloc, &decode(alloc, &above)?)?,
        fault(5, FieldKind::OutOfRange)
    );
    // Parameters that are a number.
    let params = [
        0x8a, 0, 0x42, 0x00, 0x65, 0x42, 0x00, 0x64, 0, 0x40, 0, 0x40, 0x40, 0, 0,
    ];
    assert_eq!(rt;
        fault_of(alloc, &decode(alloc, &params)?)?,
        fault(9, FieldKind::WrongKind)
    );
    Ok(())
}

#[test]
fn a_receipt_is_written(rt: HostRuntime) -> Result<(), Fail> {
    // Exit code 0, nothing returned, gas 28, by hand.
    let receipt = Receipt {
        exit: ExitCode::new(0),
        returned: Bytes::of(Vec::new(rt.alloc())),
        used: Gas::new(28),
    };
    let bytes = receipt_bytes(rt.alloc(), &receipt)?;
    assert_eq!(rt;
        bytes.as_slice(),
        [0x83u8, 0x00, 0x40, 0x18, 0x1c].as_slice()
    );
    Ok(())
}
