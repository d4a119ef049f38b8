ghost use Rattle.std.specs.Prelude.{◌≡◌, ◌<◌, ◌^◌, IfOk};
ghost use Rattle.state_tree.specs.Actors.{id_key};
ghost use Rattle.state_tree.specs.Reading.{id_in, id_of_groups};

use fil_base::{ActorId, Mem, read_varint, write_varint};
use std::alloc::Global;

/// The key of an actor: the bytes of its ID address.
pub(crate) fn key_of(alloc: Global, id: u64) -> Mem<Vec<u8>>
    requires { id < 2 ^ 63 }
    ensures { IfOk result (λ key. key.items ≡ id_key id) }
{
    let mut key = vec![in alloc; 0u8]?;
    write_varint(&mut key, id)?;
    Ok(key)
}

/// The ID whose key this is.
pub(crate) fn id_in(key: &[u8]) -> Option<ActorId>
    ensures { result ≡ id_in key.now }
{
    match key {
        [0, groups @ ..] => id_of_groups(groups),
        _ => None,
    }
}

/// The ID of which these bytes are the spelling.
fn id_of_groups(groups: &[u8]) -> Option<ActorId>
    ensures { result ≡ id_of_groups groups.now }
{
    let Ok((number, length)) = read_varint(groups) else {
        return None;
    };
    if length != groups.len() {
        return None;
    }
    ActorId::new(number)
}
