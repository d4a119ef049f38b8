ghost use Rattle.std.specs.Prelude.{◌≡◌, ℕ, List, ◌++◌};
ghost use Rattle.dag_cbor.specs.declared.fault.CborFault.{CborFault};
ghost use Rattle.dag_cbor.specs.declared.value.Value.{Value};
ghost use Rattle.dag_cbor.specs.Faults.{IsFault};
ghost use Rattle.dag_cbor.specs.Plain.{IsPlain};
ghost use Rattle.dag_cbor.specs.Spelling.{spelled};

use crate::decoding::MAX_DEPTH;

/// No spelling begins another: so each value has one, and bytes spell at most one value.
pub fn one_spelling()
    ensures { (x y : Value) (r s : List ℕ) → IsPlain MAX_DEPTH x → IsPlain MAX_DEPTH y
        → spelled x ++ r ≡ spelled y ++ s → (x ≡ y) × (r ≡ s) }
{}

/// Bytes have at most one fault.
pub fn one_fault()
    ensures { (bytes : List ℕ) (a b : CborFault) → IsFault bytes a → IsFault bytes b → a ≡ b }
{}
