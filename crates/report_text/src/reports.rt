ghost use Rattle.std.specs.Prelude.{◌≡◌, ◌++◌, All, IfOk, OnOk, codes, decimal, length};
ghost use Rattle.std.specs.List.{flat_map};
ghost use Rattle.report_text.specs.Text.{HasRootTexts, count_lines, end_text, head_line, place_text, receipt_line, reports_text, root_lines, sum_lines, tipset_text};

use crate::pieces::{put_cid, put_hex, put_number};
use fil_base::{Bytes, Mem, Row};
use fil_message::{Receipt, ReceiptLine, Report};
use itoa::Integer;
use std::alloc::Global;

/// The text of the reports on tipsets, one after another: for each its place and epoch, a line for each receipt, the
/// roots, the totals, and `end`.
pub fn text(alloc: Global, reports: &Row<Report>) -> Mem<Bytes>
    requires { All HasRootTexts reports.now }
    ensures { IfOk result (λ text. text ≡ reports_text reports.now) }
{
    let mut text = Vec::new(alloc);
    put_reports(alloc, &mut text, reports.as_slice())?;
    Ok(Bytes::of(text))
}

fn put_reports(alloc: Global, text: &mut Vec<u8>, reports: &[Report]) -> Mem<()>
    requires { All HasRootTexts reports.now }
    ensures { OnOk result (text.new.items ≡ text.old.items ++ reports_text reports.now) }
{
    for (place, report) in reports.iter().enumerate() {
        put_report(alloc, text, place, report)?;
    }
    Ok(())
}

/// Puts the text of the report on the tipset of this place, counted from 0, behind a text.
#[tactic(auto, unfolding(crate::specs::Text::tipset_text))]
pub fn put_report(alloc: Global, text: &mut Vec<u8>, place: usize, report: &Report) -> Mem<()>
    requires { HasRootTexts report.now }
    ensures { OnOk result (text.new.items ≡ text.old.items ++ tipset_text (place, report.now)) }
{
    put_head(text, place, report.epoch)?;
    put_receipts(alloc, text, report.lines.as_slice())?;
    put_roots(alloc, text, report)?;
    put_sums(text, report)?;
    put_counts(text, report)?;
    text.extend_from_slice(b"end\n")?;
    Ok(())
}

fn put_head(text: &mut Vec<u8>, place: usize, epoch: u64) -> Mem<()>
    ensures { OnOk result (text.new.items ≡ text.old.items ++ head_line place epoch) }
{
    text.extend_from_slice(b"tipset ")?;
    put_number(text, place)?;
    text.extend_from_slice(b" epoch ")?;
    put_number(text, epoch)?;
    text.extend_from_slice(b"\n")?;
    Ok(())
}

fn put_receipts(alloc: Global, text: &mut Vec<u8>, lines: &[ReceiptLine]) -> Mem<()>
    ensures { OnOk result (text.new.items ≡ text.old.items ++ flat_map receipt_line lines.now) }
{
    for line in lines {
        put_receipt(alloc, text, line)?;
    }
    Ok(())
}

fn put_receipt(alloc: Global, text: &mut Vec<u8>, line: &ReceiptLine) -> Mem<()>
    ensures { OnOk result (text.new.items ≡ text.old.items ++ receipt_line line.now) }
{
    put_place(text, line)?;
    put_end(alloc, text, &line.receipt)
}

fn put_place(text: &mut Vec<u8>, line: &ReceiptLine) -> Mem<()>
    ensures { OnOk result (text.new.items ≡ text.old.items ++ place_text line.now) }
{
    text.extend_from_slice(b"receipt ")?;
    put_number(text, line.block)?;
    text.extend_from_slice(b" ")?;
    put_number(text, line.message)?;
    Ok(())
}

fn put_end(alloc: Global, text: &mut Vec<u8>, receipt: &Receipt) -> Mem<()>
    ensures { OnOk result (text.new.items ≡ text.old.items ++ end_text receipt.now) }
{
    text.extend_from_slice(b" exit ")?;
    put_number(text, receipt.exit.number())?;
    text.extend_from_slice(b" gas ")?;
    put_number(text, receipt.used.number())?;
    text.extend_from_slice(b" return ")?;
    put_hex(alloc, text, receipt.returned.as_slice())?;
    text.extend_from_slice(b"\n")?;
    Ok(())
}

fn put_roots(alloc: Global, text: &mut Vec<u8>, report: &Report) -> Mem<()>
    requires { HasRootTexts report.now }
    ensures { OnOk result (text.new.items ≡ text.old.items ++ root_lines report.now) }
{
    text.extend_from_slice(b"receipts ")?;
    put_cid(alloc, text, &report.receipts_root)?;
    text.extend_from_slice(b"\nstate ")?;
    put_cid(alloc, text, &report.state_root)?;
    text.extend_from_slice(b"\n")?;
    Ok(())
}

fn put_sums(text: &mut Vec<u8>, report: &Report) -> Mem<()>
    ensures { OnOk result (text.new.items ≡ text.old.items ++ sum_lines report.now) }
{
    put_line(text, b"gas ", report.gas)?;
    put_line(text, b"minted ", report.minted.number())?;
    put_line(text, b"burned ", report.burned.number())
}

fn put_counts(text: &mut Vec<u8>, report: &Report) -> Mem<()>
    ensures { OnOk result (text.new.items ≡ text.old.items ++ count_lines report.now) }
{
    put_line(text, b"invocations ", report.invocations)?;
    put_line(text, b"blocks ", report.made.as_slice().len())
}

fn put_line<N: Integer>(text: &mut Vec<u8>, name: &[u8], number: N) -> Mem<()>
    ensures { OnOk result (text.new.items ≡ text.old.items ++ (name.now ++ (N.text number ++ codes "\n"))) }
{
    text.extend_from_slice(name)?;
    put_number(text, number)?;
    text.extend_from_slice(b"\n")?;
    Ok(())
}
