//! Clearing of memory that held something secret: the stack below a call, and blocks of the heap.
#![tactic(auto)]

mod heap;
mod stack;

pub use heap::{Cleared, clear_block};
pub use stack::clear_stack;
