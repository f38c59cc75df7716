//! The outside as a program sees it: files and an output, over the host and in memory; and below it the one list type, and numbers that
//! wrap at 16 bits.
#![tactic(auto)]

mod entries;
pub mod files;
pub mod host;
pub mod list;
pub mod mem_files;
pub mod mem_out;
pub mod whole;
pub mod wrap;
