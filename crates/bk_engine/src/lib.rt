//! The engine: what one instruction of its microcode does.
#![tactic(auto)]

mod changes;
mod directory;
mod engine;
mod heads;
pub mod laws;
mod parts;
mod reads;
mod registers;
mod sends;
mod step;
mod stop;
mod summed;

pub use engine::{Engine, EngineStep, Stepped};
pub use heads::{
    HEAD_BLOCK, HEAD_COH_ACK, HEAD_INV_ACK, HEAD_NONE, HEAD_NULL_WB, HEAD_OTHER, HEAD_REQUEST,
    HEAD_WB, head_number, names_class,
};
pub use parts::{
    CLASS_MEMORY, CLASS_NONE, CLASS_REQUEST, CLASS_RESPONSE, Choice, Core, DirtyBlock, Head, Held,
    NOT_READ, ROW_READ, RequestKind, SUMMED_UP,
};
pub use stop::{Halt, Stop};

#[cfg(test)]
mod tests;
