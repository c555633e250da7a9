// How many of some whole numbers are positive, negative and 0, and the panel number, which is the first less the second (document 02, wish 4).
#![tactic(auto)]

ghost use Rattle.std.specs.Prelude.{◌≡◌};
ghost use Rattle.sign_counts.specs.Counts.{panel_number};

// At how many points a product is positive, negative and 0.
#[derive(Clone, Copy, Debug, PartialEq, Eq)]
pub struct SignCounts {
    pub positive: u16,
    pub negative: u16,
    pub zero: u16,
}

// The number that the panel shows of a query, from its three counts.
pub fn panel_number(counts: SignCounts) -> i64
    ensures { result ≡ panel_number counts }
{
    i64::from(counts.positive) - i64::from(counts.negative)
}
