use fil_base::Row;
use fil_message::Tipset;
use gas_prices::Rules;

/// Tipsets, and the rules that their messages run under.
#[derive(Debug, Drop)]
pub struct Scenario {
    /// The rules.
    pub rules: Rules,

    /// The tipsets, each over a state of its own.
    pub tipsets: Row<Tipset>,
}
