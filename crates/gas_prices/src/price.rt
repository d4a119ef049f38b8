ghost use Rattle.std.specs.Prelude.{◌≡◌, ◌<◌};
ghost use Rattle.gas_prices.specs.Prices.{number_of, least_of};
ghost use Rattle.gas_prices.specs.declared.price.TheConstants.{PRICE_COUNT};

/// What there is a price for, in the order of the numbers, which begin at 0.
#[derive(Clone, Copy, Debug, PartialEq, Eq)]
pub enum Price {
    Include,
    IncludeByte,
    ReturnByte,
    Call,
    Transfer,
    Create,
    Load,
    LoadByte,
    Page,
    Plain,
    MulDiv,
    Branch,
    Invoke,
    Access,
    Grow,
    Bulk,
    BulkByte,
    Syscall,
    SyscallByte,
    OpenBlock,
    Link,
    HashByte,
    Native,
}

/// How many prices there are.
pub const PRICE_COUNT: usize = 23;

/// The most that a price may be.
pub const GREATEST_PRICE: u64 = 1_000_000_000;

/// The prices in the order of their numbers, and the least that each may be.
const TABLE: [(Price, u64); PRICE_COUNT] = [
    (Price::Include, 0),
    (Price::IncludeByte, 0),
    (Price::ReturnByte, 0),
    (Price::Call, 1),
    (Price::Transfer, 0),
    (Price::Create, 0),
    (Price::Load, 0),
    (Price::LoadByte, 0),
    (Price::Page, 0),
    (Price::Plain, 1),
    (Price::MulDiv, 1),
    (Price::Branch, 1),
    (Price::Invoke, 1),
    (Price::Access, 1),
    (Price::Grow, 1),
    (Price::Bulk, 1),
    (Price::BulkByte, 0),
    (Price::Syscall, 1),
    (Price::SyscallByte, 0),
    (Price::OpenBlock, 0),
    (Price::Link, 0),
    (Price::HashByte, 0),
    (Price::Native, 0),
];

impl Price {
    /// The number of the price, which is its place in a list of prices.
    pub fn number(self) -> usize
        ensures number { result ≡ number_of self }
        ensures within { result < PRICE_COUNT }
    {
        self as usize
    }
}

/// The price of this number, and the least that it may be.
pub(crate) fn row_at(number: usize) -> (Price, u64)
    requires { number < PRICE_COUNT }
    ensures number { number_of result.0 ≡ number }
    ensures least { least_of result.0 ≡ result.1 }
{
    TABLE[number]
}
