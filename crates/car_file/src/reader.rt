ghost use Rattle.std.specs.Prelude.{◌≡◌, ◌≢◌, ℕ, List, [], ◌++◌, Err, IfErr, IfNone, IfOk, IfSome, OnOk, length, take};
ghost use Rattle.fil_base.specs.CidParts.{IsCid};
ghost use Rattle.fil_base.specs.Failure.{IfFault};
ghost use Rattle.fil_base.specs.declared.failure.Failure.TheVariants.{NoMemory as OutOfMemory};
ghost use Rattle.dag_cbor.specs.Spelling.{spelled};
ghost use Rattle.car_file.specs.Car.{IsCar, car, header_of};
ghost use Rattle.car_file.specs.CarFault.{IsCarFault, IsCut, IsFramed, IsFrontFault};
ghost use Rattle.car_file.specs.Reader.{AreReadBehind, IsKept, IsOtherFault, IsStateOf, Stands, Took};
ghost use Rattle.car_file.specs.declared.fault.CarFault.{CarFault};
ghost use Rattle.car_file.specs.declared.fault.CarKind.TheVariants.{Cut};

use crate::car::Car;
use crate::fault::{CarFault, CarKind, placed};
use crate::frame::{FrameFault, fill, split_frame};
use crate::header::root_of;
use crate::section_reader::SectionReader;
use fil_base::{Cid, Failure};
use std::alloc::Global;

/// Reads an archive that comes in pieces of any size (the CARv1 specification).
///
/// In clauses, `Stands reader given` says that the reader has been given the bytes `given`.
#[derive(Drop)]
pub struct CarReader {
    alloc: Global,
    state: State,
}

// What the bytes given so far are.
#[derive(Drop)]
enum State {
    // Those of a header that is not whole.
    Header(Vec<u8>),

    // A header that names this root, and sections.
    Sections(Cid, SectionReader),

    // Bytes with this fault, which is no cut.
    Failed(CarFault),
}

impl CarReader {
    /// A reader that has been given no bytes. It takes no memory.
    #[tactic(auto, unfolding(crate::specs::Reader::Stands))]
    pub fn new(alloc: Global) -> CarReader
        ensures { Stands result [] }
    {
        let state = State::Header(Vec::new(alloc));
        CarReader { alloc, state }
    }

    /// Gives the reader the next bytes, of any number. It answers the first fault other than `Cut` that stands in all
    /// bytes given, and the same one at every later call.
    pub fn feed(&mut self, piece: &[u8]) -> Result<(), Failure<CarFault>>
        // The piece was taken, but where there was no memory.
        ensures taken { (given : List ℕ) → Stands self.old given → Took result → Stands self.new (given ++ piece.now) }
        ensures unchanged { (given : List ℕ) → Stands self.old given
            → result ≡ Err OutOfMemory → Stands self.new given }
        // No fault but a cut stands in all that came.
        ensures fine { (given : List ℕ) → Stands self.old given
            → OnOk result ((fault : CarFault) → IsCarFault (given ++ piece.now) fault → fault.kind ≡ Cut) }
        ensures fault { (given : List ℕ) → Stands self.old given
            → IfErr result (λ failure. IfFault failure (λ fault.
            IsCarFault (given ++ piece.now) fault × (fault.kind ≢ Cut))) }
    {
        match self.advance(piece) {
            Ok(()) => Ok(()),
            Err(failure) => Err(self.keep(failure)),
        }
    }

    // The same, but that a fault is not kept.
    fn advance(&mut self, piece: &[u8]) -> Result<(), Failure<CarFault>>
        ensures taken { (given : List ℕ) → IsStateOf self.old.state given
            → OnOk result (IsStateOf self.new.state (given ++ piece.now)) }
        ensures unchanged { (given : List ℕ) → IsStateOf self.old.state given
            → result ≡ Err OutOfMemory → IsStateOf self.new.state given }
        ensures fine { (given : List ℕ) → IsStateOf self.old.state given
            → OnOk result ((fault : CarFault) → IsCarFault (given ++ piece.now) fault → fault.kind ≡ Cut) }
        ensures fault { (given : List ℕ) → IsStateOf self.old.state given
            → IfErr result (λ failure. IfFault failure (IsOtherFault (given ++ piece.now))) }
    {
        match &mut self.state {
            State::Header(header) => {
                if let Some((root, sections)) = feed_header(self.alloc, header, piece)? {
                    self.state = State::Sections(root, sections);
                }
                Ok(())
            }
            State::Sections(_, sections) => sections.feed(self.alloc, piece),
            State::Failed(fault) => Err(Failure::Fault(*fault)),
        }
    }

    // Keeps the failure where it is a fault, and gives it back.
    fn keep(&mut self, failure: Failure<CarFault>) -> Failure<CarFault>
        ensures same { result ≡ failure }
        ensures kept { IsKept failure self.old.state self.new.state }
    {
        match failure {
            Failure::NoMemory => Failure::NoMemory,
            Failure::Fault(fault) => {
                self.state = State::Failed(fault);
                Failure::Fault(fault)
            }
        }
    }

    /// The archive of all bytes given, or their fault.
    pub fn finish(self) -> Result<Car, Failure<CarFault>>
        ensures found { (given : List ℕ) → Stands self given
            → IfOk result (λ read. IsCar read.root read.blocks × (given ≡ car read.root read.blocks)) }
        ensures fault { (given : List ℕ) → Stands self given
            → IfErr result (λ failure. IfFault failure (IsCarFault given)) }
    {
        let CarReader { alloc: _, state } = self;
        match state {
            State::Header(header) => Err(Failure::Fault(CarFault {
                kind: CarKind::Cut,
                at: header.len() as u64,
            })),
            State::Sections(root, sections) => match sections.finish() {
                Ok(blocks) => Ok(Car { root, blocks }),
                Err(fault) => Err(Failure::Fault(fault)),
            },
            State::Failed(fault) => Err(Failure::Fault(fault)),
        }
    }
}

// Takes the next bytes where the header is cut, and gives its root and the sections behind it where it is whole then.
// Where there is no memory, it takes none.
fn feed_header(
    alloc: Global,
    header: &mut Vec<u8>,
    piece: &[u8],
) -> Result<Option<(Cid, SectionReader)>, Failure<CarFault>>
    ensures still { IsCut header.old.items → IfOk result (λ next. IfNone next
        ((header.new.items ≡ header.old.items ++ piece.now) × IsCut header.new.items)) }
    ensures whole { IsCut header.old.items → IfOk result (λ next. IfSome next (λ found.
        AreReadBehind found.0 found.1 (header.old.items ++ piece.now))) }
    ensures unchanged { result ≡ Err OutOfMemory → header.new.items ≡ header.old.items }
    ensures fault { IsCut header.old.items
        → IfErr result (λ failure. IfFault failure (IsOtherFault (header.old.items ++ piece.now))) }
{
    let before = header.len();
    let fed = fill_header(alloc, header, piece);
    if matches!(fed, Err(Failure::NoMemory)) {
        header.truncate(before);
    }
    fed
}

// The same, but that where there is no memory, bytes of the piece may follow those of the header.
fn fill_header(
    alloc: Global,
    header: &mut Vec<u8>,
    piece: &[u8],
) -> Result<Option<(Cid, SectionReader)>, Failure<CarFault>>
    ensures still { IsCut header.old.items → IfOk result (λ next. IfNone next
        ((header.new.items ≡ header.old.items ++ piece.now) × IsCut header.new.items)) }
    ensures whole { IsCut header.old.items → IfOk result (λ next. IfSome next (λ found.
        AreReadBehind found.0 found.1 (header.old.items ++ piece.now))) }
    ensures kept { take (length header.old.items) header.new.items ≡ header.old.items }
    ensures fault { IsCut header.old.items
        → IfErr result (λ failure. IfFault failure (IsOtherFault (header.old.items ++ piece.now))) }
{
    let rest = fill(header, piece)?;
    let Some(root) = root_at(alloc, header.as_slice())? else {
        return Ok(None);
    };
    let end = header.len() as u64;
    let sections = SectionReader::read(alloc, Vec::new(alloc), end, rest)?;
    Ok(Some((root, sections)))
}

// The root of the header at the front, if it is whole.
fn root_at(alloc: Global, bytes: &[u8]) -> Result<Option<Cid>, Failure<CarFault>>
    ensures cid { IfOk result (λ found. IfSome found IsCid) }
    ensures found { IfOk result (λ found. IfSome found (λ root.
        (rest : List ℕ) × IsFramed bytes.now (spelled (header_of root)) rest)) }
    ensures cut { IfOk result (λ found. IfNone found (IsCut bytes.now)) }
    ensures fault { IfErr result (λ failure. IfFault failure (λ fault.
        IsFrontFault bytes.now fault.kind × (fault.kind ≢ Cut) × (fault.at ≡ 0))) }
{
    let (content, _) = match split_frame(bytes) {
        Ok(found) => found,
        Err(FrameFault::Cut) => return Ok(None),
        Err(FrameFault::BadLength) => {
            return Err(Failure::Fault(CarFault {
                kind: CarKind::Header,
                at: 0,
            }));
        }
    };
    match root_of(alloc, content) {
        Ok(root) => Ok(Some(root)),
        Err(failure) => Err(placed(failure, 0)),
    }
}

#[cfg(test)]
mod tests;
