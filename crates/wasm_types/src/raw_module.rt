use crate::func_type::FuncType;
use crate::op::Op;
use crate::val_type::ValType;
use fil_base::{Bytes, Row};

/// A module as its bytes spell it, whether valid or not (WebAssembly 1.0, section 2.5). Custom sections and the data count
/// are not kept.
#[derive(Debug, Drop)]
pub struct RawModule {
    pub types: Row<FuncType>,
    pub imports: Row<Import>,

    /// The index of the type of each function of the module itself.
    pub functions: Row<u32>,

    pub tables: Row<Limits>,
    pub memories: Row<Limits>,
    pub globals: Row<GlobalPart>,
    pub exports: Row<Export>,
    pub elements: Row<ElementPart>,
    pub segments: Row<SegmentPart>,
    pub bodies: Row<Body>,
}

/// An imported function: the number of the system call, and the index of its type.
#[derive(Clone, Copy, Debug, PartialEq, Eq)]
pub struct Import {
    pub syscall: u32,
    pub type_index: u32,
}

/// The size of a table in elements, or of a memory in pages: the first one, and the greatest one, if there is one.
#[derive(Clone, Copy, Debug, PartialEq, Eq)]
pub struct Limits {
    pub least: u32,
    pub greatest: Option<u32>,
}

/// A global variable.
#[derive(Debug, Drop)]
pub struct GlobalPart {
    pub kind: ValType,
    pub mutable: bool,

    /// The expression of its first value, with its `End`.
    pub init: Row<Op>,
}

/// What the module lends under a name.
#[derive(Debug, Drop)]
pub struct Export {
    pub name: Bytes,
    pub kind: ExportKind,
    pub index: u32,
}

/// What the index of an export counts.
#[derive(Clone, Copy, Debug, PartialEq, Eq)]
pub enum ExportKind {
    Function,
    Table,
    Memory,
    Global,
}

/// Functions that are written into the table at the start.
#[derive(Debug, Drop)]
pub struct ElementPart {
    /// The expression of the place of the first one, with its `End`.
    pub offset: Row<Op>,

    pub functions: Row<u32>,
}

/// Bytes that are written into the memory at the start.
#[derive(Debug, Drop)]
pub struct SegmentPart {
    /// The expression of the place of the first one, with its `End`.
    pub offset: Row<Op>,

    pub bytes: Bytes,
}

/// The locals of a function but for its parameters, and its instructions, of which the last one is its `End`.
#[derive(Debug, Drop)]
pub struct Body {
    pub locals: Row<ValType>,
    pub code: Row<Op>,
}
