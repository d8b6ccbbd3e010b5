//! Cuts a text into lines and fields, reads numbers, and puts bytes into a buffer.
//!
//! A text is any bytes. Its lines end with byte 10, and the fields of a line are parted by commas. What is read borrows
//! the text, and what is put goes into the caller's buffer.
#![tactic(auto)]

mod fields;
mod limits;
mod number;
mod part;
mod put;
mod reader;

pub use fields::{Fields, exactly, first_field, four, three, two};
pub use number::read_number;
pub use part::Part;
pub use put::{Cursor, put_bytes, put_integer, put_natural};
pub use reader::Reader;
