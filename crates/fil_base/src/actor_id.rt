ghost use Rattle.std.specs.Prelude.{◌≡◌, ◌<◌, ◌^◌};
ghost use Rattle.std.specs.Option.{SomeIff};

use std::marker::Model;

/// The number of an actor, below 2^63, as in an ID address (Filecoin specification, "Addresses").
#[derive(Clone, Copy, Debug, PartialEq, Eq, PartialOrd, Ord)]
pub struct ActorId(u64);

impl Model for ActorId {
    ghost use Rattle.std.specs.Prelude.{ℕ, ◌<◌, ◌^◌};

    ghost Value = { ℕ };

    ghost view = { λ id. id.0 };

    ghost invariant = { λ id. id.0 < 2 ^ 63 };

    ghost inverse = { λ n. record { 0 = n } };
}

impl ActorId {
    /// The actor of this number, if it is below 2^63.
    pub fn new(n: u64) -> Option<ActorId>
        ensures { SomeIff result (n < 2 ^ 63) n }
    {
        if n < 1 << 63 { Some(ActorId(n)) } else { None }
    }

    /// The number, below 2^63.
    pub fn number(&self) -> u64
        ensures value { result ≡ self.now }
        ensures range { self.now < 2 ^ 63 }
    {
        self.0
    }
}

#[cfg(test)]
mod tests {
    use super::*;

    #[test]
    fn actor_ids_are_below_2_to_the_63(rt: HostRuntime) {
        let last = ActorId::new((1 << 63) - 1);
        assert_eq!(rt; last.map(|id| id.number()), Some(9223372036854775807));
        assert_eq!(rt; ActorId::new(1 << 63), None);
    }
}
