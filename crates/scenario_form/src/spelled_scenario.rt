ghost use Rattle.std.specs.Prelude.{◌≡◌, ◌<◌, IfOk, List, length, slice_index_or};
ghost use Rattle.fil_message.specs.declared.tipset.Tipset.{Tipset as Tip};
ghost use Rattle.scenario_form.specs.Judged.{Spells};

use crate::tipset_fields::{tipset_of, tipsets_of};
use fil_base::{Failure, Mem, NoMemory, Row};
use fil_message::Tipset;
use gas_prices::Rules;
use std::alloc::Global;

/// A scenario that was judged. Its tipsets stay in the bytes that spell them, and each is read when it is wanted.
#[derive(Drop)]
pub struct SpelledScenario<'a> {
    /// The rules.
    pub rules: Rules,

    pub(crate) tipsets: Vec<&'a [u8]>,
}

impl<'a> SpelledScenario<'a> {
    /// How many tipsets there are.
    pub fn len(&self) -> usize
        ensures { (tipsets : List Tip) → Spells self.now tipsets → result ≡ length tipsets }
    {
        self.tipsets.as_slice().len()
    }

    /// The tipset of this place, which is read from its bytes.
    pub fn tipset(&self, alloc: Global, at: usize) -> Mem<Tipset>
        requires { (tipsets : List Tip) × Spells self.now tipsets × (at < length tipsets) }
        ensures { (tipsets : List Tip) (d : Tip) → Spells self.now tipsets →
            IfOk result (λ tipset. tipset ≡ slice_index_or tipsets at d) }
    {
        let list = self.tipsets.as_slice();
        match tipset_of(alloc, at as u32, list[at]) {
            Ok(tipset) => Ok(tipset),
            Err(Failure::NoMemory) => Err(NoMemory),
            Err(Failure::Fault(_)) => unreachable!(),
        }
    }

    /// All tipsets, which are read from their bytes.
    pub(crate) fn all_tipsets(&self, alloc: Global) -> Mem<Row<Tipset>>
        requires { (tipsets : List Tip) × Spells self.now tipsets }
        ensures { (tipsets : List Tip) → Spells self.now tipsets → IfOk result (λ found. found ≡ tipsets) }
    {
        match tipsets_of(alloc, self.tipsets.as_slice()) {
            Ok(tipsets) => Ok(tipsets),
            Err(Failure::NoMemory) => Err(NoMemory),
            Err(Failure::Fault(_)) => unreachable!(),
        }
    }
}
