//! What a plan asks: its events and gaps, and the table that holds them.
#![tactic(auto)]

mod counts;
pub mod limits;
mod mark;
mod name;
mod row;
mod table;

pub use counts::frames;
pub use mark::Mark;
pub use name::{Name, NotAName};
pub use row::{Gap, Row, Window};
pub use table::Table;
