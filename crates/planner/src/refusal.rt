//! Why a call is refused.
ghost use Rattle.std.specs.Prelude.{◌≡◌};
ghost use Rattle.timetable.specs.Records.{codes_of};
ghost use Rattle.planner.specs.declared.refusal.Refusal.TheVariants.{NameForm, PeriodRange};
ghost use Rattle.planner.specs.Refusals.{number_of, loop_of};

use book::NotAName;
use search::PeriodRange;
use timetable::Loop;

/// Each case has a number; where no timetable is the cause, it has a loop that shows it.
#[derive(Clone, Copy, Debug, PartialEq, Eq)]
pub enum Refusal {
    PeriodRange,
    LengthRange,
    EventsFull,
    NameForm,
    NameTaken,
    EventWindow,
    EventUntimed(Loop),
    GapUnknownEvent,
    GapSameEvent,
    GapWidth,
    GapsFull,
    GapUntimed(Loop),
    TimeUnknownEvent,
}

impl Refusal {
    /// The number by which the rules call it.
    // Written out: a case that holds a loop cannot be cast to its number.
    pub fn number(&self) -> u16
        ensures { result ≡ number_of self.now }
    {
        match self {
            Refusal::PeriodRange => 1,
            Refusal::LengthRange => 2,
            Refusal::EventsFull => 10,
            Refusal::NameForm => 11,
            Refusal::NameTaken => 12,
            Refusal::EventWindow => 13,
            Refusal::EventUntimed(_) => 14,
            Refusal::GapUnknownEvent => 20,
            Refusal::GapSameEvent => 21,
            Refusal::GapWidth => 22,
            Refusal::GapsFull => 23,
            Refusal::GapUntimed(_) => 24,
            Refusal::TimeUnknownEvent => 60,
        }
    }

    /// The loop record: empty unless want of a timetable is the cause.
    // A record and no `Option`: the rules want one on every end of a call.
    pub fn reducing_loop(&self) -> Loop
        ensures { codes_of result ≡ loop_of self.now }
    {
        match self {
            Refusal::EventUntimed(found) | Refusal::GapUntimed(found) => *found,
            Refusal::PeriodRange
            | Refusal::LengthRange
            | Refusal::EventsFull
            | Refusal::NameForm
            | Refusal::NameTaken
            | Refusal::EventWindow
            | Refusal::GapUnknownEvent
            | Refusal::GapSameEvent
            | Refusal::GapWidth
            | Refusal::GapsFull
            | Refusal::TimeUnknownEvent => Loop::empty(),
        }
    }
}

impl From<NotAName> for Refusal {
    ghost from_gives = { λ _ r. r ≡ NameForm };

    fn from(_e: NotAName) -> Refusal {
        Self::NameForm
    }
}

impl From<PeriodRange> for Refusal {
    ghost from_gives = { λ _ r. r ≡ PeriodRange };

    fn from(_e: PeriodRange) -> Refusal {
        Self::PeriodRange
    }
}
