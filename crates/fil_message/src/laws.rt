ghost use Rattle.std.specs.Prelude.{◌≡◌, ◌<◌, All, Ok};
ghost use Rattle.dag_cbor.specs.declared.value.Value.{Value};
ghost use Rattle.dag_cbor.specs.Plain.{IsPlain};
ghost use Rattle.dag_cbor.specs.Spelling.{spelled};
ghost use Rattle.fil_message.specs.Form0Layout.{form_value};
ghost use Rattle.fil_message.specs.Form0Reading.{form0_of};
ghost use Rattle.fil_message.specs.Form0Sound.{IsForm0};
ghost use Rattle.fil_message.specs.Layout.{message_spelling, message_value};
ghost use Rattle.fil_message.specs.Reading.{message_of};
ghost use Rattle.fil_message.specs.Sound.{IsMessage};
ghost use Rattle.fil_message.specs.declared.form0.Form0.{Form0};
ghost use Rattle.fil_message.specs.declared.message.Message.{Message};

/// A law, with no code: a value is read as a message if and only if it is the layout of that message, whose parts are
/// in their ranges; and two such messages have one encoding only if they are the same. A value has a spelling, in bytes.
pub fn messages_are_read_back()
    ensures read { (m : Message) → IsMessage m → message_of (message_value m) ≡ Ok m }
    ensures laid_out { (v : Value) (m : Message) → IsPlain 128 v → All (λ byte. byte < 256) (spelled v)
        → message_of v ≡ Ok m → IsMessage m × (v ≡ message_value m) }
    ensures one_spelling { (m n : Message) → IsMessage m → IsMessage n
        → message_spelling m ≡ message_spelling n → m ≡ n }
{}

/// A law, with no code: a value is read as an account list if and only if it is the layout of that list.
pub fn account_lists_are_read_back()
    ensures read { (f : Form0) → IsForm0 f → form0_of (form_value f) ≡ Ok f }
    ensures laid_out { (v : Value) (f : Form0) → form0_of v ≡ Ok f → IsForm0 f × (v ≡ form_value f) }
{}
