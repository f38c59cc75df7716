//! Instructions as rows of a mask and the bits under it, and the tables of them of the AVR and of the mid-range PIC.
#![tactic(auto)]

mod avr;
mod pic;
mod rows;

pub use avr::{AvrKind, avr_kind};
pub use pic::{PicKind, pic_kind};
pub use rows::{InsnRow, find_row, rows_apart};
