ghost use Rattle.std.specs.Prelude.{◌≡◌, length};
ghost use Rattle.std.specs.List.{flat_map};
ghost use Rattle.fvm_run.specs.Writing.{Wrote};
ghost use Rattle.fvm_run.specs.Lines.{name_line, number_line};

use crate::output::write_whole;
use itoa::Buffer;
use outside_io::{Failed, Sink};

/// Writes a text and a number behind it, as a line.
pub fn write_number_line<E: Sink>(sink: &mut E, front: &[u8], number: u64) -> Result<(), Failed>
    ensures { Wrote (E.taken sink.old) (E.taken sink.new)
        (E.faults sink.old) (E.faults sink.new) (number_line front.now number) result }
{
    let mut digits = Buffer::new();
    let pieces = [front, digits.format(number).as_bytes(), b"\n"];
    write_pieces(sink, &pieces)
}

/// Writes a text, and a name and a number behind it, as a line.
pub fn write_name_line<E: Sink>(
    sink: &mut E,
    front: &[u8],
    name: &[u8],
    number: u64,
) -> Result<(), Failed>
    ensures { Wrote (E.taken sink.old) (E.taken sink.new)
        (E.faults sink.old) (E.faults sink.new) (name_line front.now name.now number) result }
{
    let mut digits = Buffer::new();
    let pieces = [front, name, b" ", digits.format(number).as_bytes(), b"\n"];
    write_pieces(sink, &pieces)
}

/// Writes the pieces one after another.
pub fn write_pieces<E: Sink>(sink: &mut E, pieces: &[&[u8]]) -> Result<(), Failed>
    ensures { Wrote (E.taken sink.old) (E.taken sink.new)
        (E.faults sink.old) (E.faults sink.new) (flat_map (λ piece. piece.now) pieces.now) result }
{
    for piece in pieces {
        write_whole(sink, piece)?;
    }
    Ok(())
}
