//! How much a module may have.

/// The most bytes of a module.
pub const MOST_MODULE_BYTES: usize = 4_194_304;

/// The most types.
pub const MOST_TYPES: u32 = 65_536;

/// The most functions of the module itself.
pub const MOST_FUNCTIONS: u32 = 65_536;

/// The most elements that a table has at first.
pub const MOST_TABLE_ELEMENTS: u32 = 65_536;

/// The most global variables.
pub const MOST_GLOBALS: u32 = 1_024;

/// The most exports.
pub const MOST_EXPORTS: u32 = 65_536;

/// The most element segments, and the most data segments, each counted by themselves.
pub const MOST_SEGMENTS: u32 = 65_536;

/// The most parameters of a function type.
pub const MOST_PARAMS: u32 = 64;

/// The most locals of a function, its parameters not counted.
pub const MOST_LOCALS: u32 = 4_096;

/// The most pages that a memory has at first.
pub const MOST_FIRST_PAGES: u32 = 512;

/// The most pages that a memory can have at all.
pub const MOST_PAGES: u32 = 65_536;
