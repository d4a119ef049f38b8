ghost use Rattle.std.specs.Prelude.{◌≡◌, ◌∷◌, ℕ, List, IfErr, IfOk};
ghost use Rattle.fil_base.specs.Base32.{base32};
ghost use Rattle.fil_base.specs.CidBytes.{cid_bytes};
ghost use Rattle.fil_base.specs.CidParts.{CidParts};
ghost use Rattle.fil_base.specs.Failure.{IfFault};
ghost use Rattle.cid_core.specs.CidText.{AreBytes, IsCid1, IsCidTextFault, cid_text as text_of};
ghost use Rattle.cid_core.specs.declared.text.CidTextFault.{CidTextFault};

use fil_base::{Bytes, Cid, Failure, Mem, base32_read, base32_text, read_cid, write_cid};
use std::alloc::Global;

/// Why a text is none of a CID, in the order in which it is judged.
#[derive(Clone, Copy, Debug, PartialEq, Eq)]
pub enum CidTextFault {
    /// It does not begin with `b`, the sign of base 32 in lower case.
    Prefix,

    /// What follows the `b` is no base 32 of bytes.
    Base32,

    /// The bytes are no CID of version 1, or more than one.
    Form,
}

/// The text of a CID of version 1: `b` and its bytes in base 32 (the CID specification, "Stringified form").
pub fn cid_text(alloc: Global, cid: &Cid) -> Mem<Bytes>
    requires { cid.now.version ≡ 1 }
    ensures { IfOk result (λ text. text ≡ text_of cid.now) }
{
    let mut bytes = Vec::new(alloc);
    write_cid(&mut bytes, cid)?;
    let mut text = base32_text(alloc, &bytes)?.into_vec();
    text.insert(0, b'b')?;
    Ok(Bytes::of(text))
}

/// The CID of version 1 whose text this is.
pub fn parse_cid(alloc: Global, text: &[u8]) -> Result<Cid, Failure<CidTextFault>>
    ensures found { IfOk result (λ cid. IsCid1 cid × (text.now ≡ text_of cid)) }
    ensures fault { IfErr result (λ failure. IfFault failure (IsCidTextFault text.now)) }
{
    let [b'b', letters @ ..] = text else {
        return Err(Failure::Fault(CidTextFault::Prefix));
    };
    let bytes = bytes_of(alloc, letters)?;
    whole_cid(alloc, bytes.as_slice())
}

// The bytes whose text in base 32 this is.
fn bytes_of(alloc: Global, letters: &[u8]) -> Result<Bytes, Failure<CidTextFault>>
    ensures found { IfOk result (λ bytes. letters.now ≡ base32 bytes) }
    ensures fault { IfErr result (λ failure. IfFault failure (IsCidTextFault (98 ∷ letters.now))) }
{
    match base32_read(alloc, letters) {
        Ok(bytes) => Ok(bytes),
        Err(Failure::NoMemory) => Err(Failure::NoMemory),
        Err(Failure::Fault(_)) => Err(Failure::Fault(CidTextFault::Base32)),
    }
}

// The CID of version 1 that the bytes are.
fn whole_cid(alloc: Global, bytes: &[u8]) -> Result<Cid, Failure<CidTextFault>>
    ensures found { IfOk result (λ cid. IsCid1 cid × (bytes.now ≡ cid_bytes cid)) }
    ensures fault { IfErr result (λ failure. IfFault failure (IsCidTextFault (98 ∷ base32 bytes.now))) }
{
    match read_cid(alloc, bytes) {
        Ok((cid, length)) if length == bytes.len() && cid.version() == 1 => Ok(cid),
        Ok(_) => Err(Failure::Fault(CidTextFault::Form)),
        Err(Failure::NoMemory) => Err(Failure::NoMemory),
        Err(Failure::Fault(_)) => Err(Failure::Fault(CidTextFault::Form)),
    }
}

/// A law, with no code: a CID of version 1 has a text of its own, and it is not refused; a text has one fault at most.
pub fn one_cid_text()
    ensures one { (a b : CidParts) → IsCid1 a → IsCid1 b → text_of a ≡ text_of b → a ≡ b }
    ensures accepted { (c : CidParts) (fault : CidTextFault) → IsCid1 c → IsCidTextFault (text_of c) fault → ⊥ }
    ensures one_fault { (text : List ℕ) (f g : CidTextFault) → IsCidTextFault text f → IsCidTextFault text g → f ≡ g }
{}

#[cfg(test)]
mod tests {
    use super::*;
    use std::test::Fail;

    // The CID of DAG-CBOR (71) under BLAKE2b-256 (b220) with the digest 01 02 .. 20, and its text as Python's `base64`
    // gives it.
    const BYTES: [u8; 38] = [
        0x01, 0x71, 0xa0, 0xe4, 0x02, 0x20, 1, 2, 3, 4, 5, 6, 7, 8, 9, 10, 11, 12, 13, 14, 15, 16,
        17, 18, 19, 20, 21, 22, 23, 24, 25, 26, 27, 28, 29, 30, 31, 32,
    ];

    const TEXT: &[u8] = b"bafy2bzaceaaqeayeaudaocajbifqydiob4ibceqtcqkrmfyydenbwha5dypsa";

    #[test]
    fn a_cid_is_written_and_read(rt: HostRuntime) -> Result<(), Fail> {
        let (cid, length) = read_cid(rt.alloc(), &BYTES)?;
        assert_eq!(rt; length, 38);
        assert!(rt; cid.version() == 1);
        let text = cid_text(rt.alloc(), &cid)?;
        assert_eq!(rt; text.as_slice(), TEXT);
        let back = parse_cid(rt.alloc(), TEXT)?;
        assert!(rt; back == cid);
        Ok(())
    }

    // The two before the last are 12 20 and 32 times 07, which is a CID of version 0, and the bytes above with a zero
    // behind them.
    #[test]
    fn faulty_texts_are_refused(rt: HostRuntime) {
        let cases: [(&[u8], CidTextFault); 7] = [
            (b"", CidTextFault::Prefix),
            (b"zb2rhk", CidTextFault::Prefix),
            (b"B", CidTextFault::Prefix),
            (b"b1", CidTextFault::Base32),
            (
                b"bciqaobyha4dqobyha4dqobyha4dqobyha4dqobyha4dqobyha4dqoby",
                CidTextFault::Form,
            ),
            (
                b"bafy2bzaceaaqeayeaudaocajbifqydiob4ibceqtcqkrmfyydenbwha5dypsaaa",
                CidTextFault::Form,
            ),
            (b"b", CidTextFault::Form),
        ];
        for (text, fault) in cases {
            let answer = parse_cid(rt.alloc(), text).err();
            assert_eq!(rt; answer, Some(Failure::Fault(fault)));
        }
    }
}
