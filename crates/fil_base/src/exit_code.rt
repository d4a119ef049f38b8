ghost use Rattle.std.specs.Prelude.{◌≡◌};

use std::marker::Model;

/// The message ended well.
pub const EXIT_OK: u32 = 0;

/// The sender is no actor.
pub const SYS_SENDER_INVALID: u32 = 1;

/// The sender's nonce is another than the message's.
pub const SYS_SENDER_STATE_INVALID: u32 = 2;

/// The receiver is no actor.
pub const SYS_INVALID_RECEIVER: u32 = 5;

/// The sender has less than the message moves.
pub const SYS_INSUFFICIENT_FUNDS: u32 = 6;

/// How a message ended: 0 for success, else why it failed (Filecoin specification, "Exit codes").
#[derive(Clone, Copy, Debug, PartialEq, Eq)]
pub struct ExitCode(u32);

impl Model for ExitCode {
    ghost use Rattle.std.specs.Prelude.{ℕ};

    ghost Value = { ℕ };

    ghost view = { λ code. code.0 };

    ghost inverse = { λ n. record { 0 = n } };
}

impl ExitCode {
    pub fn new(n: u32) -> ExitCode
        ensures { result ≡ n }
    {
        ExitCode(n)
    }

    pub fn number(&self) -> u32
        ensures { result ≡ self.now }
    {
        self.0
    }
}
