ghost use Rattle.std.specs.Prelude.{◌≡◌, ◌<◌, ℕ, IfSome, IfNone, slice_get};
ghost use Rattle.wasm_types.specs.Signatures.{type_of};
ghost use Rattle.wasm_types.specs.Syscalls.{Syscall, IsNamed, IsSyscall, number_of, call_of, answers, has_names as has_names_of};

use crate::signature::Signature;
use crate::val_type::ValType;
use ValType::{I32, I64};

/// How many system calls there are.
pub const SYSCALL_COUNT: u32 = 20;

/// The number of the system call that is imported under these names.
#[tactic(auto, using(crate::proofs::Calls::found, crate::proofs::Calls::none))]
pub fn syscall_number(module_name: &[u8], name: &[u8]) -> Option<u32>
    ensures exact { result ≡ number_of module_name.now name.now }
    ensures found { IfSome result (λ number. IsNamed number module_name.now name.now) }
    ensures none { IfNone result ((number : ℕ) → IsNamed number module_name.now name.now → ⊥) }
{
    number_with(module_name, name)
}

/// The type of the system call of this number.
pub fn syscall_signature(number: u32) -> Signature
    requires { number < SYSCALL_COUNT }
    ensures { (call : Syscall) → IsSyscall number call → type_of result ≡ call.typing }
{
    row_at(number).signature
}

// The number of the row with these names.
fn number_with(module_name: &[u8], name: &[u8]) -> Option<u32>
    ensures { result ≡ number_of module_name.now name.now }
{
    for number in 0..SYSCALL_COUNT {
        if has_names(row_at(number), module_name, name) {
            return Some(number);
        }
    }
    None
}

// Whether the row has these names.
fn has_names(row: SyscallRow, module_name: &[u8], name: &[u8]) -> bool
    ensures { result ≡ has_names_of module_name.now name.now (call_of row) }
{
    row.module_name == module_name && row.name == name
}

/// A row of the table: a call's module and name, and its type.
#[derive(Clone, Copy)]
pub struct SyscallRow {
    pub module_name: &'static [u8],
    pub name: &'static [u8],
    pub signature: Signature,
}

// A call with an error number as its result.
fn answering(
    module_name: &'static [u8],
    name: &'static [u8],
    takes: &'static [ValType],
) -> SyscallRow
    ensures { call_of result ≡ record { module_name = module_name.now; name = name.now; typing = answers takes.now } }
{
    SyscallRow {
        module_name,
        name,
        signature: Signature {
            takes,
            gives: Some(I32),
        },
    }
}

/// The row of the table of system calls with this number (Filecoin FVM, "system calls").
fn row_at(number: u32) -> SyscallRow
    requires { number < SYSCALL_COUNT }
    ensures { IsSyscall number (call_of result) }
{
    match number {
        0 => answering(b"ipld", b"block_open", &[I32, I32]),
        1 => answering(b"ipld", b"block_create", &[I32, I64, I32, I32]),
        2 => answering(b"ipld", b"block_read", &[I32, I32, I32, I32, I32]),
        3 => answering(b"ipld", b"block_stat", &[I32, I32]),
        4 => answering(b"ipld", b"block_link", &[I32, I32, I64, I32, I32, I32]),
        5 => answering(b"self", b"root", &[I32, I32, I32]),
        6 => answering(b"self", b"set_root", &[I32]),
        7 => answering(b"self", b"current_balance", &[I32]),
        8 => answering(b"self", b"self_destruct", &[I32]),
        9 => answering(b"actor", b"resolve_address", &[I32, I32, I32]),
        10 => answering(b"actor", b"get_actor_code_cid", &[I32, I64, I32, I32]),
        11 => answering(b"send", b"send", &[I32, I32, I32, I64, I32, I64, I64]),
        12 => answering(b"vm", b"message_context", &[I32]),
        13 => SyscallRow {
            module_name: b"vm",
            name: b"exit",
            signature: Signature {
                takes: &[I32, I32, I32, I32],
                gives: None,
            },
        },
        14 => answering(b"network", b"context", &[I32]),
        15 => answering(b"gas", b"available", &[I32]),
        16 => answering(b"gas", b"charge", &[I32, I32, I64]),
        17 => answering(b"debug", b"enabled", &[I32]),
        18 => answering(b"debug", b"log", &[I32, I32]),
        19 => answering(b"crypto", b"hash", &[I32, I64, I32, I32, I32, I32]),
        _ => unreachable!(),
    }
}
