ghost use Rattle.std.specs.Prelude.{◌≡◌, ◌↔◌, ℕ, List, Ok};
ghost use Rattle.wasm_types.specs.declared.raw_module.RawModule.{RawModule};
ghost use Rattle.wasm_decode.specs.Modules.{SpellsModule};
ghost use Rattle.wasm_decode.specs.ReadingModule.{decoded};

/// A law, with no code: bytes spell one module at most.
pub fn one_module()
    ensures { (bytes : List ℕ) (a b : RawModule) → SpellsModule bytes a → SpellsModule bytes b → a ≡ b }
{}

/// A law, with no code: what reading gives is what the grammar says.
pub fn reading_is_the_grammar()
    ensures { (bytes : List ℕ) (raw : RawModule) → (decoded bytes ≡ Ok raw) ↔ SpellsModule bytes raw }
{}
