//! Code of a machine of bytes: its primitives, what each does, and how often each is begun in a cycle.
#![tactic(auto)]

mod apply;
mod cells;
mod effects;
pub mod laws;
pub mod prim;
pub mod state;
pub mod step;
pub mod store;
