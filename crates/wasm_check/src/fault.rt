ghost use Rattle.std.specs.Prelude.{◌≡◌};
ghost use Rattle.fil_base.specs.declared.failure.Failure.TheVariants.{Fault};

use fil_base::Failure;

/// Why a module is not valid, and where. A fault outside the bodies has function and position 0.
#[derive(Clone, Copy, Debug, PartialEq, Eq)]
pub struct CheckFault {
    /// The number of the body, from 0. Imported functions have none and are not counted.
    pub function: u32,

    /// The number of the instruction in its body, from 0, with `else` and `end` counted.
    pub position: u32,

    pub kind: CheckKind,
}

/// Why a body is not valid: the number of an instruction, and the kind of its fault.
#[derive(Clone, Copy, Debug, PartialEq, Eq)]
pub struct BodyFault {
    pub position: u32,
    pub kind: CheckKind,
}

/// The kinds of faults. At one instruction `Underflow`, `TypeMismatch` and `Height` come in this order, behind all others,
/// of which the first here goes first.
#[derive(Clone, Copy, Debug, PartialEq, Eq)]
pub enum CheckKind {
    /// An operand of a wrong type, one that is left over at the end of a block, or labels of a `br_table` that ask for
    /// different operands.
    TypeMismatch,

    /// An operand is missing.
    Underflow,

    /// There are more than 1,024 operands.
    Height,

    /// There is no such label.
    Label,

    /// There is no such local.
    Local,

    /// There is no such global.
    Global,

    /// There is no such function, of a call or of an element segment.
    Function,

    /// There is no such type, of an indirect call or of a function.
    TypeIndex,

    /// No memory is declared.
    NoMemory0,

    /// No table is declared.
    NoTable,

    /// An alignment is greater than the natural one.
    Align,

    /// A global that cannot be changed is set.
    Immutable,

    /// There are more than 1,024 blocks inside each other.
    Nesting,

    /// The first value of a global or the place of a segment is no constant of its type.
    Init,

    /// Two exports have one name, or one is of something that is not there.
    Export,

    /// No memory is exported as `memory`, or no function of the module's own, from i32 to i32, as `invoke`.
    Entry,
}

impl From<CheckKind> for Failure<CheckKind> {
    ghost from_gives = { λ kind failure. failure ≡ Fault kind };

    fn from(kind: CheckKind) -> Failure<CheckKind> {
        Failure::Fault(kind)
    }
}
