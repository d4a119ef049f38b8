ghost use Rattle.report_text.specs.Text.{HasRootTexts};
ghost use Rattle.std.specs.Prelude.{◌≡◌, All, IfOk};

use crate::reports::text;
use fil_base::{Bytes, Cid, ExitCode, Gas, Row, Token};
use fil_message::{Receipt, ReceiptLine, Report};
use std::alloc::Global;
use std::test::Fail;

// The text was written by hand from the layout in docs/formats.md. The roots are CIDs of version 1 with an identity
// hash of no bytes: `01 71 00 00`, in base 32 `afyqaaa`.
const EXPECTED: &[u8] = b"tipset 0 epoch 7
receipt 0 0 exit 0 gas 28 return -
receipt 1 2 exit 33 gas 5 return 00ff
receipts bafyqaaa
state bafyqaaa
gas 33
minted 7
burned 10000000
invocations 1
blocks 0
end
";

fn root(alloc: Global) -> Result<Cid, Fail>
    ensures { IfOk result (λ cid. cid.version ≡ 1) }
{
    let cid = Cid::new(1, 0x71, 0, Bytes::of(Vec::new(alloc))).ok_or("no CID")?;
    Ok(cid)
}

fn line(
    alloc: Global,
    block: u32,
    message: u32,
    exit: u32,
    used: u64,
    returned: &[u8],
) -> Result<ReceiptLine, Fail> {
    let returned = Bytes::copy_of(alloc, returned)?;
    let receipt = Receipt {
        exit: ExitCode::new(exit),
        returned,
        used: Gas::new(used),
    };
    Ok(ReceiptLine {
        block,
        message,
        receipt,
    })
}

fn amount(number: u128) -> Result<Token, Fail> {
    let amount = Token::new(number).ok_or("no amount")?;
    Ok(amount)
}

fn report(alloc: Global) -> Result<Report, Fail>
    ensures { IfOk result HasRootTexts }
{
    let mut lines = Vec::new(alloc);
    lines.push(line(alloc, 0, 0, 0, 28, &[])?)?;
    lines.push(line(alloc, 1, 2, 33, 5, &[0x00, 0xff])?)?;
    let receipts_root = root(alloc)?;
    let state_root = root(alloc)?;
    Ok(Report {
        epoch: 7,
        lines: Row::of(lines),
        receipts_root,
        state_root,
        gas: 33,
        minted: amount(7)?,
        burned: amount(10_000_000)?,
        invocations: 1,
        made: Row::of(Vec::new(alloc)),
    })
}

#[test]
fn a_report_has_its_lines_in_order(rt: HostRuntime) -> Result<(), Fail> {
    let mut reports = Vec::new(rt.alloc());
    reports.push(report(rt.alloc())?)?;
    let text = text(rt.alloc(), &Row::of(reports))?;
    assert_eq!(rt; text.as_slice(), EXPECTED);
    Ok(())
}
