ghost use Rattle.std.specs.Prelude.{◌≡◌};
ghost use Rattle.wasm_check.specs.Effects.{table_effect};
ghost use Rattle.wasm_check.specs.Machine.{acted, LeavesOrNoMemory};

use crate::fault::CheckKind;
use crate::levels::Levels;
use fil_base::Failure;
use wasm_types::Op;

/// An instruction whose operands and result are those of the table of opcodes.
pub fn by_table(levels: &mut Levels, op: &Op) -> Result<(), Failure<CheckKind>>
    ensures { LeavesOrNoMemory result levels.new (acted (table_effect op.now) levels.old) }
{
    match op.opcode().signature() {
        Some(signature) => levels.convert(signature.takes, &[], signature.gives),
        None => levels.convert(&[], &[], None),
    }
}
