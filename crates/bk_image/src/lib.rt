//! Images of microcode: what they hold, and how they are read from bytes and written.
#![tactic(auto)]

mod fault;
mod fields;
mod header;
mod image;
mod lines;
mod reading;
mod words;
mod writing;

pub use fault::{ImageFault, Kind};
pub use image::{
    FIRST_LIMIT, FIRST_VERSION, GREATEST_LIMIT, INSTRUCTION_LIMIT, Image, SECOND_VERSION,
};
pub use reading::read_image;
pub use writing::write_image;

#[cfg(test)]
mod tests;
