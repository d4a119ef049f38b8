ghost use Rattle.std.specs.Prelude.{◌≡◌, ◌∷◌, [], ◌++◌, option_to_list};
ghost use Rattle.wasm_types.specs.Signatures.{is_same_result as is_same_result_of, is_same_value as is_same_value_of};

use wasm_types::ValType;

/// A result as the operands that it is.
pub fn list_of(result_type: Option<ValType>) -> &'static [ValType]
    ensures { result.now ≡ option_to_list result_type }
{
    match result_type {
        None => &[],
        Some(ValType::I32) => &[ValType::I32],
        Some(ValType::I64) => &[ValType::I64],
    }
}

/// The same below a condition or an index.
pub fn list_below_index(result_type: Option<ValType>) -> &'static [ValType]
    ensures { result.now ≡ option_to_list result_type ++ (ValType.I32 ∷ []) }
{
    match result_type {
        None => &[ValType::I32],
        Some(ValType::I32) => &[ValType::I32, ValType::I32],
        Some(ValType::I64) => &[ValType::I64, ValType::I32],
    }
}

/// Whether the two are one type.
pub fn is_same_value(one: ValType, other: ValType) -> bool
    ensures { result ≡ is_same_value_of one other }
{
    match (one, other) {
        (ValType::I32, ValType::I32) | (ValType::I64, ValType::I64) => true,
        (ValType::I32, ValType::I64) | (ValType::I64, ValType::I32) => false,
    }
}

/// Whether the two are one result.
pub fn is_same_result(one: Option<ValType>, other: Option<ValType>) -> bool
    ensures { result ≡ is_same_result_of one other }
{
    match (one, other) {
        (None, None) => true,
        (Some(first), Some(second)) => is_same_value(first, second),
        (None, Some(_)) | (Some(_), None) => false,
    }
}
