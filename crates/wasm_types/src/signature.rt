ghost use Rattle.std.specs.Prelude.{◌≡◌, ◌↔◌, IsTrue};
ghost use Rattle.wasm_types.specs.Signatures.{type_of, is_same_type};

use crate::func_type::{FuncType, has_parts};
use crate::val_type::ValType;

/// The type of a function or of an instruction that is known when the program is built: its operands, the first one
/// deepest, and its result, if it has one.
#[derive(Clone, Copy, Debug)]
pub struct Signature {
    pub takes: &'static [ValType],
    pub gives: Option<ValType>,
}

impl Signature {
    /// Whether it is this type.
    pub fn is_type(self, other: &FuncType) -> bool
        ensures is { IsTrue result ↔ (type_of self ≡ other.now) }
        ensures exact { result ≡ is_same_type (type_of self) other.now }
    {
        has_parts(other, self.takes, self.gives)
    }
}
