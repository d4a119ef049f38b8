use fil_base::ActorId;

/// The address of an actor (the Filecoin specification, "Address"). Its protocol is 0 to 3, in this order.
#[derive(Clone, Copy, Debug, PartialEq, Eq)]
pub enum Address {
    /// The ID of an actor.
    Id(ActorId),

    /// The BLAKE2b-160 hash of a public key of secp256k1.
    Secp([u8; 20]),

    /// The BLAKE2b-160 hash by which an actor was named when it was made.
    Made([u8; 20]),

    /// A public key of BLS.
    Bls([u8; 48]),
}
