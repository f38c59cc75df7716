//! What a HEX file holds.

use chip_tables::Target;
use ld_base::list::List;

/// Program words in order.
pub type Words = List<u16>;

/// The program memory of a chip, and its configuration word.
///
/// `words` begin at address 0 and run to the last one that is given; words in front of it that no
/// one gave are erased ones. A PIC has words of 14 bits, an AVR of 16, and only a PIC's file has a
/// configuration word.
#[derive(Debug, Drop)]
pub struct Image {
    pub target: Target,
    pub words: Words,
    pub config: Option<u16>,
}
