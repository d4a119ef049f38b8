ghost use Rattle.std.specs.Prelude.{◌≡◌};
ghost use Rattle.fvm_run.specs.Lines.{car_kind, cbor_kind, check_kind, field_kind, state_kind, wasm_kind};

use car_file::CarKind;
use cbor_fields::FieldKind;
use dag_cbor::CborKind;
use hamt_map::StateFault;
use wasm_check::CheckKind;
use wasm_decode::WasmKind;

pub fn car_kind_name(kind: CarKind) -> &'static [u8]
    ensures { result.now ≡ car_kind kind }
{
    match kind {
        CarKind::Header => b"Header",
        CarKind::Version => b"Version",
        CarKind::Roots => b"Roots",
        CarKind::Section => b"Section",
        CarKind::Cid => b"Cid",
        CarKind::HashNotSupported => b"HashNotSupported",
        CarKind::Digest => b"Digest",
        CarKind::Cut => b"Cut",
    }
}

pub fn cbor_kind_name(kind: CborKind) -> &'static [u8]
    ensures { result.now ≡ cbor_kind kind }
{
    match kind {
        CborKind::Cut => b"Cut",
        CborKind::LongHead => b"LongHead",
        CborKind::Reserved => b"Reserved",
        CborKind::Indefinite => b"Indefinite",
        CborKind::Float => b"Float",
        CborKind::Simple => b"Simple",
        CborKind::Tag => b"Tag",
        CborKind::LinkForm => b"LinkForm",
        CborKind::Utf8 => b"Utf8",
        CborKind::KeyKind => b"KeyKind",
        CborKind::KeyOrder => b"KeyOrder",
        CborKind::KeyRepeat => b"KeyRepeat",
        CborKind::Depth => b"Depth",
        CborKind::Trailing => b"Trailing",
    }
}

pub fn field_kind_name(kind: FieldKind) -> &'static [u8]
    ensures { result.now ≡ field_kind kind }
{
    match kind {
        FieldKind::WrongKind => b"WrongKind",
        FieldKind::WrongLength => b"WrongLength",
        FieldKind::OutOfRange => b"OutOfRange",
    }
}

pub fn state_kind_name(fault: &StateFault) -> &'static [u8]
    ensures { result.now ≡ state_kind fault.now }
{
    match fault {
        StateFault::Missing(_) => b"Missing",
        StateFault::Form(_) => b"Form",
        StateFault::NotCanonical(_, _) => b"NotCanonical",
        StateFault::Version(_) => b"Version",
        StateFault::Actor(_) => b"Actor",
    }
}

pub fn wasm_kind_name(kind: WasmKind) -> &'static [u8]
    ensures { result.now ≡ wasm_kind kind }
{
    match kind {
        WasmKind::Limit => b"Limit",
        WasmKind::Float => b"Float",
        WasmKind::Start => b"Start",
        WasmKind::Unsupported => b"Unsupported",
        WasmKind::UnknownImport => b"UnknownImport",
        WasmKind::Form => b"Form",
    }
}

pub fn check_kind_name(kind: CheckKind) -> &'static [u8]
    ensures { result.now ≡ check_kind kind }
{
    match kind {
        CheckKind::TypeMismatch => b"TypeMismatch",
        CheckKind::Underflow => b"Underflow",
        CheckKind::Height => b"Height",
        CheckKind::Label => b"Label",
        CheckKind::Local => b"Local",
        CheckKind::Global => b"Global",
        CheckKind::Function => b"Function",
        CheckKind::TypeIndex => b"TypeIndex",
        CheckKind::NoMemory0 => b"NoMemory0",
        CheckKind::NoTable => b"NoTable",
        CheckKind::Align => b"Align",
        CheckKind::Immutable => b"Immutable",
        CheckKind::Nesting => b"Nesting",
        CheckKind::Init => b"Init",
        CheckKind::Export => b"Export",
        CheckKind::Entry => b"Entry",
    }
}
