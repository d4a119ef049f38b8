ghost use Rattle.std.specs.Prelude.{◌≡◌, ◌≤◌, ◌^◌, IfOk, length};
ghost use Rattle.amt_map.specs.Node.{amt_nodes, amt_root};
ghost use Rattle.dag_cbor.specs.Plain.{IsPlain};
ghost use Rattle.fil_message.specs.Layout.{receipt_value};
ghost use Rattle.tipset_exec.specs.Alone.{receipts_of};
ghost use Rattle.tree_blocks.specs.NewBlocks.{new_blocks};

use amt_map::Amt;
use block_base::Base;
use cid_core::Block;
use dag_cbor::Value;
use fil_base::{Bytes, Cid, Mem, Row};
use fil_message::{Receipt, ReceiptLine};
use sqlite_items::Items;
use std::alloc::Global;

/// The root of the receipts' AMT, in which they stand by their places, and its nodes that the base does not hold.
pub(crate) fn receipts_tree(
    alloc: Global,
    base: &Base,
    lines: &[ReceiptLine],
) -> Mem<(Cid, Row<Block>)>
    requires { length lines.now ≤ 2 ^ 32 }
    ensures root { IfOk result (λ r. r.0 ≡ amt_root (receipts_of lines.now)) }
    ensures nodes { IfOk result (λ r. r.1 ≡ new_blocks base.now (amt_nodes (receipts_of lines.now))) }
{
    let mut tree = Amt::empty(alloc);
    for (i, line) in lines.iter().enumerate() {
        let value = receipt_value(alloc, &line.receipt)?;
        tree.set(base, i as u64, value)?;
    }
    tree.flush(base)
}

/// The value of a receipt: `[exit code, return, gas used]`.
fn receipt_value(alloc: Global, receipt: &Receipt) -> Mem<Value>
    ensures value { IfOk result (λ value. value ≡ receipt_value receipt.now) }
    ensures plain { IfOk result (IsPlain 120) }
{
    let returned = Vec::from_slice(alloc, receipt.returned.as_slice())?;
    let items = vec![in alloc;
        Value::Int(i128::from(receipt.exit.number())),
        Value::Blob(Bytes::of(returned)),
        Value::Int(i128::from(receipt.used.number())),
    ]?;
    Ok(Value::List(Items::from_vec(items)))
}
