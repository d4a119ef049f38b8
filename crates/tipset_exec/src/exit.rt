/// The message used up its gas (Filecoin specification, "Exit codes").
pub const SYS_OUT_OF_GAS: u32 = 7;
