//! The kinds of reading that say how two events are tied. They are read over items that are gaps.
ghost use Rattle.search.specs.Ties.{counted, FewGaps, framing, EitherWay};
ghost use Rattle.search.specs.Tied.{counted_laws, framing_laws};

use crate::item::Item;
use crate::reading::Reading;
use crate::values::{Framed, GapCount};

/// Each gap counts 1; the lesser comes first.
impl Reading for GapCount {
    ghost kind = { counted };

    ghost reached = { FewGaps };

    ghost lawful = { counted_laws };

    fn start() -> GapCount {
        GapCount(0)
    }

    fn step(self, _item: &Item) -> GapCount {
        GapCount(self.0 + 1)
    }

    fn before(self, other: GapCount) -> bool {
        self < other
    }
}

/// No at first, and yes from a gap on that leads to a frame event; yes comes first.
impl Reading for Framed {
    ghost kind = { framing };

    ghost reached = { EitherWay };

    ghost lawful = { framing_laws };

    fn start() -> Framed {
        Framed(false)
    }

    fn step(self, item: &Item) -> Framed {
        Framed(item.framed | self.0)
    }

    fn before(self, other: Framed) -> bool {
        // The reverse of the order of `bool`.
        self.0 & !other.0
    }
}
