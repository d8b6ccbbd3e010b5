//! The mark of an event.
ghost use Rattle.std.specs.Prelude.{◌≡◌};
ghost use Rattle.book.specs.Book.{is_frame};

/// Where an event may lie: on the frame clock alone, at a multiple of the period, or on any tick.
#[derive(Clone, Copy, Debug, PartialEq, Eq)]
pub enum Mark {
    Frame,
    Free,
}

impl Mark {
    pub fn is_frame(self) -> bool
        ensures { result ≡ is_frame self }
    {
        matches!(self, Mark::Frame)
    }
}
