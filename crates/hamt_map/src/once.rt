ghost use Rattle.std.specs.Prelude.{◌≡◌, ◌++◌, IfOk, List, OnOk, map, ℕ};
ghost use Rattle.std.specs.FinMap.{from_entries};
ghost use Rattle.hamt_map.specs.Holds.{FitNodes, Holds, spellings};
ghost use Rattle.hamt_map.specs.Pairs.{Map, Pairs};

use crate::leaf::Leaf;
use fil_base::Mem;
use std::alloc::Global;
use std::collections::BTreeMap;

/// Puts other leaves behind those that are there, by rising key: each key once, with the first of its values.
pub(crate) fn put_once<'a>(
    alloc: Global,
    leaves: &mut Vec<Leaf<'a>>,
    others: &[Leaf<'a>],
) -> Mem<()>
    ensures { (pairs : Pairs) → others.now ≡ spellings pairs → FitNodes pairs
        → OnOk result ((put : List (List ℕ × List ℕ)) × (leaves.new.items ≡ leaves.old.items ++ put)
        × Holds put (from_entries pairs)) }
{
    let firsts = firsts_of(alloc, others)?;
    put_firsts(leaves, firsts)
}

/// The keys of leaves, each with the first of its spellings.
fn firsts_of<'a>(alloc: Global, leaves: &[Leaf<'a>]) -> Mem<BTreeMap<&'a [u8], &'a [u8]>>
    ensures held { IfOk result (λ made. (m : Map) × Holds (map (λ e. (e.0.now, e.1.now)) made.entries) m) }
    ensures pairs { (pairs : Pairs) → leaves.now ≡ spellings pairs → FitNodes pairs
        → IfOk result (λ made. Holds (map (λ e. (e.0.now, e.1.now)) made.entries) (from_entries pairs)) }
{
    let mut firsts = BTreeMap::new(alloc);
    let mut left = leaves.len();
    while left > 0 {
        left -= 1;
        let leaf = &leaves[left];
        firsts.insert(leaf.key(), leaf.spelling())?;
    }
    Ok(firsts)
}

/// Puts pairs behind leaves that are there.
fn put_firsts<'a>(leaves: &mut Vec<Leaf<'a>>, firsts: BTreeMap<&'a [u8], &'a [u8]>) -> Mem<()>
    requires { (m : Map) × Holds (map (λ e. (e.0.now, e.1.now)) firsts.entries) m }
    ensures { OnOk result (leaves.new.items ≡ leaves.old.items ++ map (λ e. (e.0.now, e.1.now)) firsts.entry.entries) }
{
    for (key, spelling) in firsts {
        leaves.push(Leaf::of(key, spelling))?;
    }
    Ok(())
}
