ghost use Rattle.std.specs.Prelude.{◌≡◌, ◌≤◌, length};
ghost use Rattle.std.specs.Option.{option_map};
ghost use Rattle.dag_cbor.specs.declared.value.Value.{out-Value};
ghost use Rattle.tree_blocks.specs.Forms.{bytes_in as blob_in, items_in as list_in, set_bits as ones_in};

use dag_cbor::Value;

/// The bytes of a byte string.
pub fn bytes_in(value: &Value) -> Option<&[u8]>
    ensures { option_map (λ bytes. bytes.now) result ≡ blob_in (out-Value value.now) }
{
    match value {
        Value::Blob(bytes) => Some(bytes.as_slice()),
        _ => None,
    }
}

/// The items of a list.
pub fn items_in(value: &Value) -> Option<&[Value]>
    ensures { option_map (λ items. items.now) result ≡ list_in (out-Value value.now) }
{
    match value {
        Value::List(items) => Some(items.as_slice()),
        _ => None,
    }
}

/// How many bits of a bit field are set.
pub fn set_bits(bytes: &[u8]) -> usize
    requires { length bytes.now ≤ 4 }
    ensures { result ≡ ones_in bytes.now }
{
    let mut count = 0;
    for byte in bytes {
        count += byte.count_ones() as usize;
    }
    count
}
