ghost use Rattle.std.specs.Prelude.{◌≡◌, ◌≤◌, length};
ghost use Rattle.fvm_run.specs.Writing.{Wrote};

use outside_io::{Failed, Sink};

/// Writes the whole text, piece by piece as the sink takes it.
pub fn write_whole<K: Sink>(sink: &mut K, text: &[u8]) -> Result<(), Failed>
    ensures wrote { Wrote (K.taken sink.old) (K.taken sink.new)
        (K.faults sink.old) (K.faults sink.new) text.now result }

    // A sink that surely takes the text does not fail.
    ensures calm { length text.now ≤ K.sure sink.old → K.faults sink.new ≡ K.faults sink.old }
{
    let mut at = 0;
    while at < text.len() {
        at += sink.write(&text[at..])?;
    }
    Ok(())
}
