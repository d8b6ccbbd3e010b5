//! Why a text is not loaded.
ghost use Rattle.std.specs.Prelude.{◌≡◌};
ghost use Rattle.plantext.specs.Faults.{layer_of, number_of};
ghost use Rattle.plantext.specs.declared.fault.Cause.TheVariants.{Text, Plan};
ghost use Rattle.plantext.specs.declared.fault.LoadError.TheVariants.{Fault as Faulty, Memory};

use planner::Refusal;
use std::alloc::AllocError;

/// What is wrong with the text itself. Each case has the number by which the rules call it.
#[derive(Clone, Copy, Debug, PartialEq, Eq)]
pub enum TextFault {
    TooLong = 70,
    Unended = 71,
    FirstWord = 72,
    FieldCount = 73,
    BadNumber = 74,
    UnknownName = 75,
    MarkWord = 76,
}

/// The first cause, from the text or from the plan's call, as it came.
#[derive(Clone, Copy, Debug, PartialEq, Eq)]
pub enum Cause {
    Text(TextFault),
    Plan(Refusal),
}

impl Cause {
    /// 1 for the text, 2 for the plan.
    // Numbers, since they are printed and the rules fix them; so is the next.
    pub fn layer(&self) -> u16
        ensures { result ≡ layer_of self.now }
    {
        match self {
            Cause::Text(_) => 1,
            Cause::Plan(_) => 2,
        }
    }

    /// The cause's own number.
    pub fn number(&self) -> u16
        ensures { result ≡ number_of self.now }
    {
        match self {
            Cause::Text(fault) => *fault as u16,
            Cause::Plan(refusal) => refusal.number(),
        }
    }
}

/// What is wrong with a line: the field, 0 where it is no single field, and the cause.
// Numbers and no `Option`, here and below: a fault has a line and a field by the rules, 0 where they name none.
#[derive(Clone, Copy, Debug, PartialEq, Eq)]
pub struct LineFault {
    pub field: usize,
    pub cause: Cause,
}

impl LineFault {
    /// What is wrong with the text of this field, counted from 1, or, at 0, of the line or of the whole text.
    pub fn text(field: usize, fault: TextFault) -> LineFault
        ensures { result ≡ record { field = field; cause = Text fault } }
    {
        LineFault {
            field,
            cause: Cause::Text(fault),
        }
    }

    /// The same as the fault of this line, counted from 1, or, at 0, of none.
    pub fn on_line(self, line: usize) -> Fault
        ensures { result ≡ record { line = line; field = self.field; cause = self.cause } }
    {
        Fault {
            line,
            field: self.field,
            cause: self.cause,
        }
    }
}

impl From<Refusal> for LineFault {
    ghost from_gives = { λ x r. r ≡ record { field = 0; cause = Plan x } };

    fn from(refusal: Refusal) -> LineFault {
        LineFault {
            field: 0,
            cause: Cause::Plan(refusal),
        }
    }
}

/// A load fault. Lines and fields are counted from 1; 0 where the fault has none.
#[derive(Clone, Copy, Debug, PartialEq, Eq)]
pub struct Fault {
    pub line: usize,
    pub field: usize,
    pub cause: Cause,
}

/// Why there is no plan: a fault, or no memory for one.
#[derive(Clone, Copy, Debug, PartialEq, Eq)]
pub enum LoadError {
    Fault(Fault),
    Memory,
}

impl From<Fault> for LoadError {
    ghost from_gives = { λ f r. r ≡ Faulty f };

    fn from(fault: Fault) -> LoadError {
        LoadError::Fault(fault)
    }
}

impl From<AllocError> for LoadError {
    ghost from_gives = { λ _ r. r ≡ Memory };

    fn from(_e: AllocError) -> LoadError {
        LoadError::Memory
    }
}
