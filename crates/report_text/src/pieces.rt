ghost use Rattle.std.specs.Prelude.{◌≡◌, ◌++◌, OnOk};
ghost use Rattle.cid_core.specs.CidText.{cid_text as letters_of};
ghost use Rattle.report_text.specs.Text.{return_text};

use cid_core::cid_text;
use fil_base::{Cid, Mem};
use itoa::{Buffer, Integer};
use std::alloc::Global;

/// Puts a number behind a text, in decimal.
pub(crate) fn put_number<N: Integer>(text: &mut Vec<u8>, number: N) -> Mem<()>
    ensures { OnOk result (text.new.items ≡ text.old.items ++ N.text number) }
{
    text.extend_from_slice(Buffer::new().format(number).as_bytes())?;
    Ok(())
}

/// Puts the text of a CID behind a text.
pub(crate) fn put_cid(alloc: Global, text: &mut Vec<u8>, cid: &Cid) -> Mem<()>
    requires { cid.now.version ≡ 1 }
    ensures { OnOk result (text.new.items ≡ text.old.items ++ letters_of cid.now) }
{
    let letters = cid_text(alloc, cid)?;
    text.extend_from_slice(letters.as_slice())?;
    Ok(())
}

/// Puts bytes behind a text in hex, and `-` for none.
pub(crate) fn put_hex(alloc: Global, text: &mut Vec<u8>, bytes: &[u8]) -> Mem<()>
    ensures { OnOk result (text.new.items ≡ text.old.items ++ return_text bytes.now) }
{
    if bytes.is_empty() {
        text.push(b'-')?;
        return Ok(());
    }
    let digits = hex::encode(alloc, bytes)?;
    text.extend_from_slice(digits.as_bytes())?;
    Ok(())
}
