ghost use Rattle.std.specs.Prelude.{◌≡◌};

/// Why a system call refused, as an actor is told (Filecoin FVM, "error numbers").
#[derive(Clone, Copy, Debug, PartialEq, Eq)]
pub enum ErrNo {
    IllegalArgument,
    IllegalOperation,
    LimitExceeded,
    AssertionFailed,
    InsufficientFunds,
    NotFound,
    InvalidHandle,
    IllegalCid,
    IllegalCodec,
    Serialization,
    Forbidden,
    BufferTooSmall,
    ReadOnly,
}

impl ErrNo {
    ghost use Rattle.fil_base.specs.ErrNo.{error_number};

    /// The number of the error, from 1 to 13.
    pub fn number(&self) -> u32
        ensures { result ≡ error_number self.now }
    {
        match self {
            ErrNo::IllegalArgument => 1,
            ErrNo::IllegalOperation => 2,
            ErrNo::LimitExceeded => 3,
            ErrNo::AssertionFailed => 4,
            ErrNo::InsufficientFunds => 5,
            ErrNo::NotFound => 6,
            ErrNo::InvalidHandle => 7,
            ErrNo::IllegalCid => 8,
            ErrNo::IllegalCodec => 9,
            ErrNo::Serialization => 10,
            ErrNo::Forbidden => 11,
            ErrNo::BufferTooSmall => 12,
            ErrNo::ReadOnly => 13,
        }
    }
}
