ghost use Rattle.std.specs.Prelude.{◌≡◌, ◌≤◌, ◌<◌, ◌^◌, ℕ, List, length, pos, Ok};
ghost use Rattle.fil_base.specs.Amount.{amount};
ghost use Rattle.fil_base.specs.CidParts.{CidParts};
ghost use Rattle.fil_base.specs.declared.token.TheConstants.{GREATEST_AMOUNT};
ghost use Rattle.dag_cbor.specs.declared.value.Value.{Value};
ghost use Rattle.dag_cbor.specs.declared.value.Value.TheVariants as value;
ghost use Rattle.cbor_fields.specs.Readers.{u64_of, token_of, cid_of, bytes_of, items_of, list_of};

/// A law, with no code: what is laid out as a value is read back from it.
pub fn fields_are_read_back()
    ensures numbers { (n : ℕ) → n < 2 ^ 64 → u64_of (value.Int (pos n)) ≡ Ok n }
    ensures amounts { (n : ℕ) → n ≤ GREATEST_AMOUNT → token_of (value.Blob (amount n)) ≡ Ok n }
    ensures cids { (cid : CidParts) → cid_of (value.Link cid) ≡ Ok cid }
    ensures bytes { (bytes : List ℕ) → bytes_of (value.Blob bytes) ≡ Ok bytes }
    ensures items { (items : List Value) → items_of (value.List items) ≡ Ok items }
    ensures lists { (items : List Value) → list_of (value.List items) (length items) ≡ Ok items }
{}
