//! Least readings along chains of items, by rounds.
#![tactic(auto)]

mod item;
pub mod limits;
mod period;
mod reading;
mod rounds;
mod ties;
mod values;

pub use item::Item;
pub use period::{Period, PeriodRange};
pub use reading::Reading;
pub use rounds::{Causes, Rounds, Unsettled, search};
pub use values::{CarriedTime, Framed, GapCount};
