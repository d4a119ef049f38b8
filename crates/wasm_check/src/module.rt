ghost use Rattle.std.specs.Prelude.{◌≡◌};
ghost use Rattle.wasm_check.specs.Validity.{IsValid};

use std::marker::Model;
use wasm_types::RawModule;

/// A valid module (WebAssembly 1.0, section 3.4).
#[derive(Debug, Drop)]
pub struct Module {
    raw: RawModule,
}

impl Model for Module {
    ghost use Rattle.wasm_types.specs.declared.raw_module.RawModule.{RawModule};
    ghost use Rattle.wasm_check.specs.Validity.{IsValid};

    ghost Value = { RawModule };

    ghost view = { λ checked. checked.raw };

    ghost invariant = { λ checked. IsValid checked.raw };
}

impl Module {
    // The module.
    pub(crate) fn of(raw: RawModule) -> Module
        requires { IsValid raw }
        ensures { result ≡ raw }
    {
        Module { raw }
    }

    /// Its parts, as its bytes spell them.
    pub fn parts(&self) -> &RawModule
        ensures parts { result.now ≡ self.now }
        ensures valid { IsValid result.now }
    {
        &self.raw
    }
}
