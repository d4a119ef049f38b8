ghost use Rattle.std.specs.Prelude.{◌≡◌, ◌↔◌, IsTrue};

use crate::val_type::ValType;
use fil_base::Row;

/// The type of a function (WebAssembly 1.0, section 2.3.3): its parameters, and its result, if it has one.
#[derive(Debug, Drop)]
pub struct FuncType {
    pub params: Row<ValType>,
    pub result: Option<ValType>,
}

impl FuncType {
    /// Whether the two are one type.
    pub fn is_same(&self, other: &FuncType) -> bool
        ensures { IsTrue result ↔ (self.now ≡ other.now) }
    {
        has_parts(other, self.params.as_slice(), self.result)
    }
}

// Whether the type has these parts.
pub(crate) fn has_parts(
    func_type: &FuncType,
    params: &[ValType],
    result_type: Option<ValType>,
) -> bool
    ensures { IsTrue result ↔ (record { params = params.now; result = result_type } ≡ func_type.now) }
{
    same_params(params, func_type.params.as_slice()) && same_result(result_type, func_type.result)
}

fn same_params(params: &[ValType], others: &[ValType]) -> bool
    ensures { IsTrue result ↔ (params.now ≡ others.now) }
{
    params == others
}

fn same_result(result_type: Option<ValType>, other: Option<ValType>) -> bool
    ensures { IsTrue result ↔ (result_type ≡ other) }
{
    result_type == other
}
