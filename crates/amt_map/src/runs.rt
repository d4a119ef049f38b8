ghost use Rattle.std.specs.Prelude.{◌≡◌, ◌≢◌, ◌<◌, ◌≤◌, ◌∷◌, [], All, drop, length, map, suc, take, ℕ};
ghost use Rattle.amt_map.specs.Node.{groups, height_of as tree_height};
ghost use Rattle.amt_map.specs.OneNode.{IsOneNode};
ghost use Rattle.amt_map.specs.Pairs.{digit_at as digit_on};

/// The pairs at the front of others that have one digit at a height.
#[derive(Clone, Copy)]
pub(crate) struct Run<'a, 's> {
    pub(crate) digit: u64,
    pub(crate) pairs: &'a [(u64, &'s [u8])],
}

/// The digit of an index at a height: the lowest one is at height 0.
pub(crate) fn digit_at(height: u64, index: u64) -> u64
    requires { height ≤ 19 }
    ensures value { result ≡ digit_on height index }
    ensures small { result < 8 }
{
    (index >> (3 * height)) % 8
}

/// The first group of a node.
pub(crate) fn first_run<'a, 's>(height: u64, pairs: &'a [(u64, &'s [u8])]) -> Run<'a, 's>
    requires height { height ≤ 19 }
    requires some { 0 < length pairs.now }
    requires node { (place : ℕ) × IsOneNode height place (map (λ p. (p.0, p.1.now)) pairs.now) }
    ensures digit { result.digit < 8 }
    ensures groups { groups height (map (λ p. (p.0, p.1.now)) pairs.now)
        ≡ (result.digit, map (λ p. (p.0, p.1.now)) result.pairs.now)
        ∷ groups height (drop (length result.pairs.now) (map (λ p. (p.0, p.1.now)) pairs.now)) }
    ensures below { (below : ℕ) → height ≡ suc below
        → (place : ℕ) × IsOneNode below place (map (λ p. (p.0, p.1.now)) result.pairs.now) }
    ensures some { 0 < length result.pairs.now }
    ensures within { length result.pairs.now ≤ length pairs.now }
{
    let digit = digit_at(height, pairs[0].0);
    let (run, _) = pairs.split_at(run_length(height, digit, pairs));
    Run { digit, pairs: run }
}

/// How many pairs at the front have a digit at a height.
fn run_length(height: u64, digit: u64, pairs: &[(u64, &[u8])]) -> usize
    requires { height ≤ 19 }
    ensures within { result ≤ length pairs.now }
    ensures run { All (λ p. digit_on height p.0 ≡ digit) (take result pairs.now) }
    ensures stop { All (λ p. digit_on height p.0 ≢ digit) (take 1 (drop result pairs.now)) }
{
    for (i, pair) in pairs.iter().enumerate() {
        if digit_at(height, pair.0) != digit {
            return i;
        }
    }
    pairs.len()
}

/// The height of the tree of pairs: the least at which all indexes are below 8 ^ (height + 1).
pub(crate) fn height_of(pairs: &[(u64, &[u8])]) -> u64
    requires { IsOneNode 19 0 (map (λ p. (p.0, p.1.now)) pairs.now) }
    ensures value { result ≡ tree_height (map (λ p. (p.0, p.1.now)) pairs.now) }
    ensures bound { result ≤ 19 }
    ensures node { IsOneNode result 0 (map (λ p. (p.0, p.1.now)) pairs.now) }
{
    match pairs.last() {
        None => 0,
        Some(pair) => height_of_index(pair.0),
    }
}

/// The height of the tree that has an index, and none above it.
pub(crate) fn height_of_index(index: u64) -> u64
    ensures value { result ≡ tree_height ((index, index) ∷ []) }
    ensures bound { result ≤ 19 }
{
    let mut height = 19;
    while height > 0 && index >> (3 * height) == 0 {
        height -= 1;
    }
    height
}
