//! Texts under all readers and writers: their lines, their pieces between separators, the numbers that digits write, and how much of a
//! text is looked at.
#![tactic(auto)]

pub mod digits;
pub mod keys;
pub mod limits;
pub mod lines;

use ld_base::list::List;

/// The bytes of a text.
pub type Text = List<u8>;
