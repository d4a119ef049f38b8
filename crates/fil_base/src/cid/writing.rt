ghost use Rattle.std.specs.Prelude.{◌≡◌, ◌++◌, ◌∷◌, ◌<◌, ◌≤◌, ◌^◌, List, ℕ, OnOk, OnErr, length, take};
ghost use Rattle.fil_base.specs.CidBytes.{cid_bytes};
ghost use Rattle.fil_base.specs.CidParts.{CidParts, IsCid};
ghost use Rattle.fil_base.specs.Varint.{varint};

use crate::cid::Cid;
use crate::failure::Mem;
use crate::varint::write_varint;

/// Appends the spelling of the CID. Where there is no memory, nothing is appended.
pub fn write_cid(out: &mut Vec<u8>, cid: &Cid) -> Mem<()>
    ensures written { OnOk result (out.new.items ≡ out.old.items ++ cid_bytes cid.now) }
    ensures unchanged { OnErr result (out.new.items ≡ out.old.items) }
{
    let before = out.len();
    let written = append_cid(out, cid);
    if written.is_err() {
        out.truncate(before);
    }
    written
}

// Appends the spelling of the CID, or a part of it.
fn append_cid(out: &mut Vec<u8>, cid: &Cid) -> Mem<()>
    ensures written { OnOk result (out.new.items ≡ out.old.items ++ cid_bytes cid.now) }
    ensures kept { take (length out.old.items) out.new.items ≡ out.old.items }
{
    if cid.version() == 0 {
        append_version0(out, cid.digest())
    } else {
        append_version1(out, cid.codec(), cid.hash(), cid.digest())
    }
}

fn append_version0(out: &mut Vec<u8>, digest: &[u8]) -> Mem<()>
    ensures written { OnOk result (out.new.items ≡ out.old.items ++ (0x12 ∷ (0x20 ∷ digest.now))) }
    ensures kept { take (length out.old.items) out.new.items ≡ out.old.items }
{
    out.extend_from_slice(&[0x12, 0x20])?;
    out.extend_from_slice(digest)?;
    Ok(())
}

fn append_version1(out: &mut Vec<u8>, codec: u64, hash: u64, digest: &[u8]) -> Mem<()>
    requires codec { codec < 2 ^ 63 }
    requires hash { hash < 2 ^ 63 }
    requires digest { length digest.now ≤ 128 }
    ensures written { OnOk result (out.new.items ≡ out.old.items
        ++ (varint 1 ++ (varint codec ++ (varint hash ++ (varint (length digest.now) ++ digest.now))))) }
    ensures kept { take (length out.old.items) out.new.items ≡ out.old.items }
{
    write_varint(out, 1)?;
    write_varint(out, codec)?;
    write_varint(out, hash)?;
    write_varint(out, digest.len() as u64)?;
    out.extend_from_slice(digest)?;
    Ok(())
}

/// A law, with no code: no CID's spelling begins another's.
pub fn no_cid_begins_another()
    ensures { (a b : CidParts) (r s : List ℕ) → IsCid a → IsCid b →
        cid_bytes a ++ r ≡ cid_bytes b ++ s → (a ≡ b) × (r ≡ s) }
{}

#[cfg(test)]
mod tests {
    use super::*;
    use crate::cid::{CidFault, read_cid};
    use crate::failure::Failure;
    use std::test::Fail;

    #[test]
    fn a_cid_of_version_1_is_read_and_written(rt: HostRuntime) -> Result<(), Fail> {
        let bytes = [
            0x01, 0x71, 0xa0, 0xe4, 0x02, 0x20, 1, 2, 3, 4, 5, 6, 7, 8, 9, 10, 11, 12, 13, 14, 15,
            16, 17, 18, 19, 20, 21, 22, 23, 24, 25, 26, 27, 28, 29, 30, 31, 32,
        ];
        let (cid, length) = read_cid(rt.alloc(), &bytes)?;
        assert_eq!(rt; length, 38);
        assert_eq!(rt; cid.codec(), 0x71);
        assert_eq!(rt; cid.hash(), 0xb220);
        let mut out = Vec::new(rt.alloc());
        write_cid(&mut out, &cid)?;
        assert_eq!(rt; out.as_slice(), bytes.as_slice());
        let copy = cid.copy(rt.alloc())?;
        assert!(rt; copy == cid);
        let fault = read_cid(rt.alloc(), &bytes[..37]).err();
        assert_eq!(rt; fault, Some(Failure::Fault(CidFault::Cut)));
        Ok(())
    }

    #[test]
    fn a_cid_of_version_0_is_read(rt: HostRuntime) -> Result<(), Fail> {
        let mut bytes = [7u8; 34];
        bytes[0] = 0x12;
        bytes[1] = 0x20;
        let (cid, length) = read_cid(rt.alloc(), &bytes)?;
        assert_eq!(rt; length, 34);
        assert_eq!(rt; cid.version(), 0);
        assert_eq!(rt; cid.digest().len(), 32);
        let cut = read_cid(rt.alloc(), &bytes[..1]).err();
        assert_eq!(rt; cut, Some(Failure::Fault(CidFault::Cut)));
        let other = read_cid(rt.alloc(), &[0x12, 0x21]).err();
        assert_eq!(rt; other, Some(Failure::Fault(CidFault::Version)));
        Ok(())
    }
}
