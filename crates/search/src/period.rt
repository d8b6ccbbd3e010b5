//! A period in ticks, and the step down to it.
ghost use Rattle.std.specs.Prelude.{◌≡◌, pos, neg_ℤ, ◌≤ℤ◌, MatchResult};
ghost use Rattle.std.specs.Int.{int_rem_euclid};
ghost use Rattle.search.specs.Limits.{most_period, deepest_sum};
ghost use Rattle.search.specs.Floor.{floor, GreatestMultiple, FloorFacts};

use crate::limits::PERIOD;

/// So many ticks, from 1 to the longest period.
#[derive(Clone, Copy)]
pub struct Period {
    ticks: i64,
    ghost positive: { pos 1 ≤ℤ ticks },
    ghost short: { ticks ≤ℤ pos most_period },
}

/// A number of ticks that no period has.
#[derive(Clone, Copy, Debug, PartialEq, Eq)]
pub struct PeriodRange;

/// The period of so many ticks, where there is one.
impl TryFrom<i64> for Period {
    type Error = PeriodRange;

    ghost try_from_gives = { λ ticks r. MatchResult r (λ p. p.ticks ≡ ticks)
        (λ _. (pos 1 ≤ℤ ticks) × (ticks ≤ℤ pos most_period) → ⊥) };

    fn try_from(ticks: i64) -> Result<Self, PeriodRange> {
        if (1..=PERIOD).contains(&ticks) {
            Ok(Period { ticks })
        } else {
            Err(PeriodRange)
        }
    }
}

impl Period {
    /// The period of one tick.
    pub fn one() -> Period
        ensures { result.ticks ≡ pos 1 }
    {
        Period { ticks: 1 }
    }

    // How far `sum` is above the greatest multiple of the period that is not above it.
    fn above(self, sum: i64) -> i64
        ensures { result ≡ int_rem_euclid sum self.ticks }
    {
        sum.rem_euclid(self.ticks)
    }

    /// The greatest multiple of the period that is not above `sum`, below zero too.
    pub fn floor(self, sum: i64) -> i64
        requires { neg_ℤ (pos deepest_sum) ≤ℤ sum }
        ensures value { result ≡ floor self.ticks sum }
        ensures greatest { GreatestMultiple self.ticks sum result }
        ensures facts { FloorFacts self.ticks }
    {
        sum - self.above(sum)
    }
}
