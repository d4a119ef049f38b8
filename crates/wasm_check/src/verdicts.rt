ghost use Rattle.std.specs.Prelude.{◌≡◌};
ghost use Rattle.wasm_types.specs.declared.raw_module.RawModule.{RawModule};
ghost use Rattle.wasm_check.specs.declared.fault.CheckFault.{CheckFault};
ghost use Rattle.wasm_check.specs.Validity.{IsFirstFault, IsValid};

/// A law, with no code: a module has one verdict. A valid one has no first fault, and no other has two.
pub fn one_verdict()
    ensures valid { (raw : RawModule) (fault : CheckFault) → IsValid raw → IsFirstFault raw fault → ⊥ }
    ensures one_fault { (raw : RawModule) (first second : CheckFault) → IsFirstFault raw first → IsFirstFault raw second → first ≡ second }
{}
