ghost use Rattle.std.specs.Prelude.{◌≡◌};
ghost use Rattle.dag_cbor.specs.Plain.{IsText};

use fil_base::Bytes;
use std::marker::Model;

/// The network, a text that is kept.
#[derive(Drop)]
pub(crate) struct Network {
    text: Bytes,
}

impl Model for Network {
    ghost use Rattle.std.specs.Prelude.{List, ℕ};
    ghost use Rattle.dag_cbor.specs.Plain.{IsText};

    ghost Value = { List ℕ };

    ghost view = { λ network. network.text };

    ghost invariant = { λ network. IsText network.text };
}

impl Network {
    pub(crate) fn of(text: Bytes) -> Network
        requires { IsText text }
        ensures value { result ≡ text }
        ensures text { IsText text }
    {
        Network { text }
    }

    pub(crate) fn as_slice(&self) -> &[u8]
        ensures value { result.now ≡ self.now }
        ensures text { IsText self.now }
    {
        let Network { text } = self;
        text.as_slice()
    }
}
