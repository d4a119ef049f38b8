ghost use Rattle.std.specs.Prelude.{◌≡◌};

/// An instruction that loads an integer (WebAssembly 1.0, section 2.4.4). A narrow one extends what it loads, by zeros
/// where its name ends in `U`, by the sign where it ends in `S`.
#[derive(Clone, Copy, Debug, PartialEq, Eq)]
pub enum LoadOp {
    I32Load,
    I64Load,
    I32Load8S,
    I32Load8U,
    I32Load16S,
    I32Load16U,
    I64Load8S,
    I64Load8U,
    I64Load16S,
    I64Load16U,
    I64Load32S,
    I64Load32U,
}

/// An instruction that stores an integer, or its low bits (WebAssembly 1.0, section 2.4.4).
#[derive(Clone, Copy, Debug, PartialEq, Eq)]
pub enum StoreOp {
    I32Store,
    I64Store,
    I32Store8,
    I32Store16,
    I64Store8,
    I64Store16,
    I64Store32,
}

/// Where a load or store acts (WebAssembly 1.0, section 2.4.4): the alignment that it promises, as an exponent of 2, and
/// what is added to its address.
#[derive(Clone, Copy, Debug, PartialEq, Eq)]
pub struct MemArg {
    pub align: u32,
    pub offset: u32,
}

impl LoadOp {
    ghost use Rattle.wasm_types.specs.Accesses.{load_width, extends_sign};

    /// How many bytes it loads: 1, 2, 4 or 8.
    pub fn width(self) -> u8
        ensures { result ≡ load_width self }
    {
        match self {
            LoadOp::I32Load8S | LoadOp::I32Load8U | LoadOp::I64Load8S | LoadOp::I64Load8U => 1,
            LoadOp::I32Load16S | LoadOp::I32Load16U | LoadOp::I64Load16S | LoadOp::I64Load16U => 2,
            LoadOp::I32Load | LoadOp::I64Load32S | LoadOp::I64Load32U => 4,
            LoadOp::I64Load => 8,
        }
    }

    /// Whether it extends what it loads by the sign, and not by zeros.
    pub fn extends_sign(self) -> bool
        ensures { result ≡ extends_sign self }
    {
        match self {
            LoadOp::I32Load8S
            | LoadOp::I32Load16S
            | LoadOp::I64Load8S
            | LoadOp::I64Load16S
            | LoadOp::I64Load32S => true,
            LoadOp::I32Load
            | LoadOp::I64Load
            | LoadOp::I32Load8U
            | LoadOp::I32Load16U
            | LoadOp::I64Load8U
            | LoadOp::I64Load16U
            | LoadOp::I64Load32U => false,
        }
    }
}

impl StoreOp {
    ghost use Rattle.wasm_types.specs.Accesses.{store_width};

    /// How many bytes it stores: 1, 2, 4 or 8.
    pub fn width(self) -> u8
        ensures { result ≡ store_width self }
    {
        match self {
            StoreOp::I32Store8 | StoreOp::I64Store8 => 1,
            StoreOp::I32Store16 | StoreOp::I64Store16 => 2,
            StoreOp::I32Store | StoreOp::I64Store32 => 4,
            StoreOp::I64Store => 8,
        }
    }
}
