//! A ladder project as a tree, its names in order, and what can be wrong with it.
#![tactic(auto)]

pub mod element;
pub mod fault;
pub mod leaves;
pub mod limits;
pub mod names;
pub mod peripheral;
pub mod project;
pub mod visit;
