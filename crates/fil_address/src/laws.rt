ghost use Rattle.std.specs.Prelude.{◌≡◌, ◌<◌, ◌↔◌, ℕ, All, List, Some};
ghost use Rattle.fil_address.specs.AddressBytes.{IsAddress, address};
ghost use Rattle.fil_address.specs.AddressReading.{address_in};
ghost use Rattle.fil_address.specs.AddressText.{IsNetwork, text_under};
ghost use Rattle.fil_address.specs.AddressFault.{IsBytesFault, IsTextFault};
ghost use Rattle.fil_address.specs.declared.address.Address.{Address};
ghost use Rattle.fil_address.specs.declared.fault.AddressFault.{AddressFault};

/// A law, with no code: an address has bytes of its own, and they are not refused; bytes have one fault at most, and are
/// read as an address if and only if they are the bytes of that address.
pub fn one_address()
    ensures one { (a b : Address) → IsAddress a → IsAddress b → address a ≡ address b → a ≡ b }
    ensures accepted { (a : Address) (fault : AddressFault) → IsAddress a → IsBytesFault (address a) fault → ⊥ }
    ensures one_fault { (bytes : List ℕ) (a b : AddressFault) → IsBytesFault bytes a → IsBytesFault bytes b → a ≡ b }
    ensures reading { (bytes : List ℕ) (a : Address) → All (λ byte. byte < 256) bytes
        → (address_in bytes ≡ Some a) ↔ (IsAddress a × (bytes ≡ address a)) }
{}

/// A law, with no code: an address has a text of its own under each network's letter, and it is not refused; a text has
/// one fault at most.
pub fn one_address_text()
    ensures one { (m n : ℕ) (a b : Address) → IsAddress a → IsAddress b
        → text_under m a ≡ text_under n b → (m ≡ n) × (a ≡ b) }
    ensures accepted { (n : ℕ) (a : Address) (fault : AddressFault) → IsNetwork n → IsAddress a
        → IsTextFault (text_under n a) fault → ⊥ }
    ensures one_fault { (text : List ℕ) (a b : AddressFault) → IsTextFault text a → IsTextFault text b → a ≡ b }
{}
