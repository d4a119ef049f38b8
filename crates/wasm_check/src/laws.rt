ghost use Rattle.std.specs.Prelude.{◌≡◌, ◌⊎◌, List, [], option_to_list, Ok, IfErr};
ghost use Rattle.std.specs.List.{AllZip};
ghost use Rattle.wasm_types.specs.declared.raw_module.RawModule.{RawModule};
ghost use Rattle.wasm_check.specs.declared.fault.CheckKind.TheVariants as kinds;
ghost use Rattle.wasm_types.specs.declared.op.Op.{Op};
ghost use Rattle.wasm_check.specs.declared.fault.CheckFault.{CheckFault};
ghost use Rattle.wasm_check.specs.Code.{Code, IsNestedAs};
ghost use Rattle.wasm_check.specs.Effects.{Context};
ghost use Rattle.wasm_check.specs.Judging.{judged};
ghost use Rattle.wasm_check.specs.Operands.{OperandStack};
ghost use Rattle.wasm_check.specs.TypedBody.{IsTypedBody};
ghost use Rattle.wasm_check.specs.Typing.{HasType};
ghost use Rattle.wasm_check.specs.Validity.{IsBodyFault, IsValid};

/// A law, with no code: code without a fault has the type of its function's body.
pub fn accepted_code_has_a_type()
    ensures { (C : Context) (code : Code) (s : OperandStack) → judged C code ≡ Ok s → HasType C code [] (option_to_list C.result) }
{}

/// A law, with no code: code with the type of its function's body has no fault but that it passes a limit.
pub fn typed_code_has_no_other_fault()
    ensures { (C : Context) (code : Code) → HasType C code [] (option_to_list C.result)
        → IfErr (judged C code) (λ fault. (fault.kind ≡ kinds.Height) ⊎ (fault.kind ≡ kinds.Nesting)) }
{}

/// A law, with no code: the bodies of a valid module have the types of their functions.
pub fn valid_bodies_have_types()
    ensures { (raw : RawModule) → IsValid raw → AllZip (IsTypedBody raw) raw.functions raw.bodies }
{}

/// A law, with no code: a module is refused for a body with a type only if that body passes a limit.
pub fn typed_bodies_have_no_other_fault()
    ensures { (raw : RawModule) (fault : CheckFault) (at : IsBodyFault raw fault) → IsTypedBody raw at.type_index at.body
        → (fault.kind ≡ kinds.Height) ⊎ (fault.kind ≡ kinds.Nesting) }
{}

/// A law, with no code: the instructions of a body nest in one way.
pub fn one_nesting()
    ensures { (ops : List Op) (a b : Code) → IsNestedAs ops a → IsNestedAs ops b → a ≡ b }
{}
