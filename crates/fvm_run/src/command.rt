ghost use Rattle.std.specs.Prelude.{◌≡◌, ◌∷◌, []};
ghost use Rattle.fvm_run.specs.Commands.{command, named};

/// What the program is asked to do.
#[derive(Clone, Copy, Debug, PartialEq, Eq)]
pub enum Command {
    /// Reads an account list or a CAR file, runs its messages and prints the report.
    Run,

    /// Reads a Wasm module and prints how much there is of it, if it is valid.
    Check,
}

/// The command that the words name. It takes no memory.
pub fn command_of(words: &[String]) -> Option<Command>
    ensures { result ≡ named words.now }
{
    match words {
        [word] => command_named(word),
        _ => None,
    }
}

fn command_named(word: &str) -> Option<Command>
    ensures { result ≡ command (word.now ∷ []) }
{
    if word == "run" {
        Some(Command::Run)
    } else if word == "check" {
        Some(Command::Check)
    } else {
        None
    }
}
