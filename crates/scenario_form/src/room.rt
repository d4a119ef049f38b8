ghost use Rattle.std.specs.Prelude.{◌≡◌, ◌<◌, ◌≤◌, All, IfOk, length, map, sum};
ghost use Rattle.std.specs.List.{Any};
ghost use Rattle.fil_message.specs.Tipsets.{awards};
ghost use Rattle.state_model.specs.State.{State};
ghost use Rattle.state_tree.specs.Stands.{Stands};
ghost use Rattle.scenario_form.specs.Room.{IsFirstOver, all_fit};

use block_base::Base;
use fil_base::Mem;
use fil_message::{TipBlock, Tipset};
use state_tree::StateTree;

/// The first of these tipsets, by its place, whose awards the state has no room for: with all balances they are more than
/// the greatest amount.
pub(crate) fn first_over(base: &Base, tree: &StateTree, tipsets: &[Tipset]) -> Mem<Option<usize>>
    requires some { 0 < length tipsets.now }
    requires blocks { All (λ t. length t.blocks ≤ 256) tipsets.now }
    ensures { (s : State) → Stands tree.now base.now s.actors s.info → IfOk result (IsFirstOver s tipsets.now) }
{
    if all_fit(base, tree, tipsets)? {
        return Ok(None);
    }
    // There is room for all before `low`, and not for all before `high`.
    let mut low = 0;
    let mut high = tipsets.len();
    while high - low > 1 {
        let middle = low + (high - low) / 2;
        if all_fit(base, tree, &tipsets[low..middle])? {
            low = middle;
        } else {
            high = middle;
        }
    }
    Ok(Some(low))
}

/// Whether the state has room for the awards of each of these tipsets by itself.
fn all_fit(base: &Base, tree: &StateTree, tipsets: &[Tipset]) -> Mem<bool>
    requires some { 0 < length tipsets.now }
    requires blocks { All (λ t. length t.blocks ≤ 256) tipsets.now }
    ensures { (s : State) → Stands tree.now base.now s.actors s.info → IfOk result (λ all. all ≡ all_fit s tipsets.now) }
{
    tree.within(base, greatest_awards(tipsets))
}

/// The greatest sum of the awards of one of these tipsets.
fn greatest_awards(tipsets: &[Tipset]) -> u128
    requires some { 0 < length tipsets.now }
    requires blocks { All (λ t. length t.blocks ≤ 256) tipsets.now }
    ensures above { All (λ t. awards t ≤ result) tipsets.now }
    ensures reached { Any (λ t. result ≤ awards t) tipsets.now }
{
    let mut greatest = 0;
    for tipset in tipsets {
        greatest = greatest.max(awards_of(tipset.blocks.as_slice()));
    }
    greatest
}

/// The sum of the awards of blocks.
fn awards_of(blocks: &[TipBlock]) -> u128
    requires { length blocks.now ≤ 256 }
    ensures { result ≡ sum (map (λ b. b.award) blocks.now) }
{
    let mut total = 0;
    for block in blocks {
        total += block.award.number();
    }
    total
}
