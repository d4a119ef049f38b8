ghost use Rattle.std.specs.Prelude.{◌≡◌, length, slice_get};
ghost use Rattle.std.specs.Option.{option_copied};
ghost use Rattle.wasm_check.specs.Effects.{function_indexes, function_type};

use wasm_types::{FuncType, RawModule};

/// How many functions there are, imported ones among them.
pub(crate) fn function_count(raw: &RawModule) -> usize
    ensures { result ≡ length (function_indexes raw.now) }
{
    raw.imports.as_slice().len() + raw.functions.as_slice().len()
}

/// The type of the function with this index, imported ones first, if it is there.
pub(crate) fn function_type(raw: &RawModule, index: u32) -> Option<&FuncType>
    ensures { option_copied result ≡ function_type raw.now index }
{
    let type_index = type_index(raw, index as usize)?;
    raw.types.as_slice().get(type_index as usize)
}

// The index of its type.
fn type_index(raw: &RawModule, index: usize) -> Option<u32>
    ensures { result ≡ slice_get (function_indexes raw.now) index }
{
    let imports = raw.imports.as_slice();
    let functions = raw.functions.as_slice();
    match imports.get(index) {
        Some(import) => Some(import.type_index),
        None => functions.get(index - imports.len()).copied(),
    }
}
