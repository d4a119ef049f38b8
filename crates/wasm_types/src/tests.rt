use super::*;
use fil_base::Row;
use std::test::Fail;

// Opcodes by hand from WebAssembly 1.0, appendix A.2, and WebAssembly 2.0, appendix A.7.
#[test]
fn opcodes_are_found(rt: HostRuntime) {
    assert_eq!(rt;
        opcode_at(0x0b),
        OpcodeEntry::Known(Opcode::Bare(BareOp::End))
    );
    assert_eq!(rt;
        opcode_at(0x8a),
        OpcodeEntry::Known(Opcode::Binary(BinOp::I64Rotr))
    );
    assert_eq!(rt;
        opcode_at(0xc4),
        OpcodeEntry::Known(Opcode::Unary(UnOp::I64Extend32S))
    );
    assert_eq!(rt; opcode_at(0x43), OpcodeEntry::Float);
    assert_eq!(rt; opcode_at(0x1c), OpcodeEntry::Unknown);
    assert_eq!(rt; opcode_at(0xfc), OpcodeEntry::Prefix);
    assert_eq!(rt;
        prefixed_at(11),
        OpcodeEntry::Known(Opcode::Memory(MemoryOp::Fill))
    );
    assert_eq!(rt; prefixed_at(7), OpcodeEntry::Float);
    assert_eq!(rt; prefixed_at(8), OpcodeEntry::Unknown);
}

// By hand, from the table of prices and WebAssembly 1.0, section 3.3.
#[test]
fn instructions_have_prices_and_types(rt: HostRuntime) {
    assert_eq!(rt; Op::Else.opcode().price(), None);
    assert_eq!(rt;
        Op::Binary(BinOp::I64RemU).opcode().price(),
        Some(PriceClass::MulDiv)
    );
    assert_eq!(rt;
        IndexOp::BrIf.op(3).opcode().price(),
        Some(PriceClass::Branch)
    );
    let store = Opcode::Store(StoreOp::I64Store32)
        .signature()
        .expect(&rt, "a signature");
    assert_eq!(rt; store.takes, [ValType::I32, ValType::I64].as_slice());
    assert_eq!(rt; store.gives, None);
    assert_eq!(rt; StoreOp::I64Store32.width(), 4);
    assert_eq!(rt; LoadOp::I32Load16S.width(), 2);
    assert_eq!(rt; LoadOp::I32Load16S.extends_sign(), true);
}

// By hand, from the table of system calls.
#[test]
fn system_calls_are_found(rt: HostRuntime) -> Result<(), Fail> {
    assert_eq!(rt; syscall_number(b"vm", b"exit"), Some(13));
    assert_eq!(rt; syscall_number(b"crypto", b"hash"), Some(19));
    assert_eq!(rt; syscall_number(b"vm", b"hash"), None);
    let exit = FuncType {
        params: Row::of(vec![in rt.alloc();
            ValType::I32,
            ValType::I32,
            ValType::I32,
            ValType::I32,
        ]?),
        result: None,
    };
    assert_eq!(rt; syscall_signature(13).is_type(&exit), true);
    assert_eq!(rt; syscall_signature(2).is_type(&exit), false);
    assert_eq!(rt; exit.is_same(&exit), true);
    Ok(())
}

#[test]
fn labels_are_kept(rt: HostRuntime) -> Result<(), Fail> {
    let labels = Labels::new(rt.alloc(), Row::of(vec![in rt.alloc(); 2u32, 0]?))?;
    assert_eq!(rt; labels.as_slice(), [2u32, 0].as_slice());
    Ok(())
}
