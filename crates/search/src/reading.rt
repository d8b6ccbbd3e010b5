//! What is read along a chain: where it starts, how an item carries it on, and which of two readings comes first.
ghost use Rattle.std.specs.Prelude.{◌≡◌, ℕ, ◌<◌};
ghost use Rattle.search.specs.Limits.{most_rounds};
ghost use Rattle.search.specs.Kinds.{Kind, Laws};
ghost use Rattle.search.specs.Carried.{carried, InRange};
ghost use Rattle.search.specs.Kept.{carried_laws};

use crate::item::Item;
use crate::values::CarriedTime;

pub trait Reading: Copy {
    ghost kind: { Kind Self };

    // What a chain of k items can read.
    ghost reached: { ℕ → Self → Type 0 };

    fn start() -> Self
        ensures { result ≡ kind.first };

    fn step(self, item: &Item) -> Self
        requires { (k : ℕ) × (k < most_rounds) × reached k self }
        ensures { result ≡ kind.stepped item.now self };

    // Strictly before. No `Ord` in its stead: `Laws` speaks of the kind's own order, and means what it meant.
    fn before(self, other: Self) -> bool
        ensures { result ≡ kind.before self other };

    // The order is total, and the step keeps it.
    ghost lawful: { Laws kind reached };
}

/// The weight is added, and into a frame event the sum goes down to a multiple of the period; the lesser comes first.
impl Reading for CarriedTime {
    ghost kind = { carried };

    ghost reached = { InRange };

    ghost lawful = { carried_laws };

    fn start() -> CarriedTime {
        CarriedTime(0)
    }

    fn step(self, item: &Item) -> CarriedTime {
        let sum = self.0 + item.weight;
        if item.framed {
            return CarriedTime(item.period.floor(sum));
        }
        CarriedTime(sum)
    }

    fn before(self, other: CarriedTime) -> bool {
        self < other
    }
}
