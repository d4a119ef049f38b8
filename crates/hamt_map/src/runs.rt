ghost use Rattle.std.specs.Prelude.{◌≡◌, ◌≢◌, ◌≤◌, All, drop, length, take};
ghost use Rattle.std.specs.Int.Digits.{number_from_digits};
ghost use Rattle.hamt_map.specs.HashOrder.{place_of};

use crate::hashed::Hashed;

/// The pairs at the front of others that have a place on a level.
pub(crate) fn first_run<'a, 's>(
    level: u64,
    place: usize,
    pairs: &'a [Hashed<'s>],
) -> &'a [Hashed<'s>]
    requires first { 1 ≤ level }
    requires last { level ≤ 51 }
    ensures front { result.now ≡ take (length result.now) pairs.now }
    ensures within { length result.now ≤ length pairs.now }
    ensures run { All (λ p. place_of level (number_from_digits 256 p.hash) ≡ place) result.now }
    ensures stop { All (λ p. place_of level (number_from_digits 256 p.hash) ≢ place)
        (take 1 (drop (length result.now) pairs.now)) }
{
    let (run, _) = pairs.split_at(run_length(level, place, pairs));
    run
}

/// How many pairs at the front have a place on a level.
fn run_length(level: u64, place: usize, pairs: &[Hashed]) -> usize
    requires first { 1 ≤ level }
    requires last { level ≤ 51 }
    ensures within { result ≤ length pairs.now }
    ensures run { All (λ p. place_of level (number_from_digits 256 p.hash) ≡ place) (take result pairs.now) }
    ensures stop { All (λ p. place_of level (number_from_digits 256 p.hash) ≢ place) (take 1 (drop result pairs.now)) }
{
    for (i, pair) in pairs.iter().enumerate() {
        if pair.place(level) != place {
            return i;
        }
    }
    pairs.len()
}
