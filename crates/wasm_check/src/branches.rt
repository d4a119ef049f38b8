ghost use Rattle.std.specs.Prelude.{◌≡◌, length, map, nat_lt, slice_index_or};
ghost use Rattle.std.specs.List.{list_all};
ghost use Rattle.wasm_types.specs.declared.op.Op.TheVariants as op;
ghost use Rattle.wasm_types.specs.Signatures.{is_same_result as is_same_result_of};
ghost use Rattle.wasm_check.specs.Machine.{label_of, LeavesOrNoMemory, effected};

use crate::fault::CheckKind;
use crate::levels::Levels;
use crate::place::Place;
use crate::results::{is_same_result, list_below_index, list_of};
use fil_base::Failure;
use wasm_types::ValType;

/// `unreachable`.
pub fn leave(_place: &Place<'_>, levels: &mut Levels) -> Result<(), Failure<CheckKind>>
    ensures { LeavesOrNoMemory result levels.new (effected _place.now op.Unreachable levels.old) }
{
    levels.jump(&[])
}

/// `return`.
pub fn leave_function(place: &Place<'_>, levels: &mut Levels) -> Result<(), Failure<CheckKind>>
    ensures { LeavesOrNoMemory result levels.new (effected place.now op.Return levels.old) }
{
    levels.jump(list_of(place.func_type.result))
}

/// `br`.
pub fn branch(place: &Place<'_>, levels: &mut Levels, label: u32) -> Result<(), Failure<CheckKind>>
    ensures { LeavesOrNoMemory result levels.new (effected place.now (op.Br label) levels.old) }
{
    let wanted = levels.label(label)?;
    levels.jump(list_of(wanted))
}

/// `br_if`.
pub fn branch_if(
    place: &Place<'_>,
    levels: &mut Levels,
    label: u32,
) -> Result<(), Failure<CheckKind>>
    ensures { LeavesOrNoMemory result levels.new (effected place.now (op.BrIf label) levels.old) }
{
    let wanted = levels.label(label)?;
    levels.convert(list_below_index(wanted), &[], wanted)
}

/// `br_table`.
pub fn branch_among(
    place: &Place<'_>,
    levels: &mut Levels,
    default: u32,
    labels: &[u32],
) -> Result<(), Failure<CheckKind>>
    ensures { LeavesOrNoMemory result levels.new (effected place.now (op.BrTable default labels.now) levels.old) }
{
    let wanted = levels.label(default)?;
    if !are_labels(levels, labels) {
        return Err(Failure::Fault(CheckKind::Label));
    }
    if !ask_for(levels, labels, wanted) {
        return Err(Failure::Fault(levels.disagree(list_below_index(wanted))));
    }
    levels.jump(list_below_index(wanted))
}

// Whether there are such labels.
fn are_labels(levels: &Levels, labels: &[u32]) -> bool
    ensures { result ≡ list_all (λ label. nat_lt label (length (map label_of levels.now))) labels.now }
{
    for label in labels {
        if !is_label(levels, *label) {
            return false;
        }
    }
    true
}

// Whether there is such a label.
#[tactic(auto, using(crate::proofs::Jumps::there_is))]
fn is_label(levels: &Levels, label: u32) -> bool
    ensures { result ≡ nat_lt label (length (map label_of levels.now)) }
{
    levels.label(label).is_ok()
}

// Whether the labels ask for this.
fn ask_for(levels: &Levels, labels: &[u32], wanted: Option<ValType>) -> bool
    ensures { result ≡ list_all (λ label. is_same_result_of (slice_index_or (map label_of levels.now) label None) wanted) labels.now }
{
    for label in labels {
        if !asks_for(levels, *label, wanted) {
            return false;
        }
    }
    true
}

// Whether the label asks for this, where one that is not there asks for nothing.
fn asks_for(levels: &Levels, label: u32, wanted: Option<ValType>) -> bool
    ensures { result ≡ is_same_result_of (slice_index_or (map label_of levels.now) label None) wanted }
{
    match levels.label(label) {
        Ok(found) => is_same_result(found, wanted),
        Err(_) => is_same_result(None, wanted),
    }
}
