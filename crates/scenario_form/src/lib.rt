//! Scenarios: tipsets with the rules that their messages run under, read from the block under a root, with their states
//! loaded and judged.
//!
//! ```text
//! let scenario = judge_scenario(alloc, &car.root, &base)?;
//! for place in 0..scenario.len() {
//!     let tipset = scenario.tipset(alloc, place)?;
//! }
//! ```
#![tactic(auto)]

mod fault;
mod judging;
mod laws;
mod limits;
mod open_state;
mod outline;
mod place;
mod raw;
mod reading;
mod room;
mod rule_fields;
mod scenario;
mod scenario_fields;
mod spelled;
mod spelled_scenario;
mod states;
mod tipset_fields;

pub use fault::ScenarioFault;
pub use laws::one_scenario;
pub use place::Place;
pub use reading::{judge_scenario, read_scenario};
pub use scenario::Scenario;
pub use spelled_scenario::SpelledScenario;

#[cfg(test)]
mod test_scenarios;
#[cfg(test)]
mod tests;
