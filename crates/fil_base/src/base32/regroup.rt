ghost use Rattle.std.specs.Prelude.{◌≡◌, ◌<◌, ◌≤◌, ◌^◌, ◌*◌, ℕ, All, IfOk, length};
ghost use Rattle.std.specs.Int.Digits.{number_from_digits};
ghost use Rattle.fil_base.specs.Regroup.{Regroups};

use crate::failure::Mem;
use std::alloc::Global;

// Bits that wait for others to fill a group: so many, the last bits of the number.
#[derive(Clone, Copy)]
pub struct Pending {
    pub bits: u32,
    pub count: u32,
}

// The bits of the items, `from` of each, in groups of `to` bits, and those that fill no group.
pub fn regrouped(alloc: Global, items: &[u8], from: u32, to: u32) -> Mem<(Vec<u8>, Pending)>
    requires from { from ≤ 8 }
    requires some { 0 < to }
    requires to { to ≤ 8 }
    requires items { All (λ item. item < 2 ^ from) items.now }
    ensures regroups { IfOk result (λ r. Regroups (number_from_digits (2 ^ from) items.now)
        (from * length items.now) to r.0.items r.1.bits r.1.count) }
    ensures few { IfOk result (λ r. r.1.count < to) }
    ensures fits { IfOk result (λ r. r.1.bits < 2 ^ r.1.count) }
{
    let mut groups = Vec::new(alloc);
    let mut pending = Pending { bits: 0, count: 0 };
    for item in items {
        let more = Pending {
            bits: (pending.bits << from) + u32::from(*item),
            count: pending.count + from,
        };
        pending = give_groups(&mut groups, more, to)?;
    }
    Ok((groups, pending))
}

// Appends the groups that the bits fill, and gives those that are left.
fn give_groups(groups: &mut Vec<u8>, pending: Pending, to: u32) -> Mem<Pending>
    requires some { 0 < to }
    requires to { to ≤ 8 }
    requires few { pending.count ≤ 16 }
    requires fits { pending.bits < 2 ^ pending.count }
    ensures regroups { IfOk result (λ rest. (n total : ℕ) →
        Regroups n total to groups.old.items pending.bits pending.count →
        Regroups n total to groups.new.items rest.bits rest.count) }
    ensures few { IfOk result (λ rest. rest.count < to) }
    ensures fits { IfOk result (λ rest. rest.bits < 2 ^ rest.count) }
{
    let mut rest = pending;
    while rest.count >= to {
        let count = rest.count - to;
        groups.push((rest.bits >> count) as u8)?;
        rest = Pending {
            bits: rest.bits % (1 << count),
            count,
        };
    }
    Ok(rest)
}
