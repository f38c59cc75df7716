//! What a chip gives the assembler.

ghost use Rattle.std.specs.Prelude.{◌≡◌, ◌+◌, ◌≤◌, ◌<◌, ◌^◌, ◌++◌, ℕ, OnOk, OnErr, length, slice_index, Some};
ghost use Rattle.target_core.specs.Law.{Target, MachineLaw, label_named};

use crate::words::Words;
use byte_code::prim::Prim;
use std::alloc::AllocError;

/// A chip whose flash has 16-bit words: its code for each primitive, and the machine that runs it.
pub trait Machine16 {
    /// The state of the chip's written machine.
    type Mach;

    /// What the machine and its code for each primitive mean.
    ghost target: { Self → Target Self.Mach };

    ghost WAIT_CYCLES: { ℕ };

    /// The cycles of each answer that is not ready.
    const WAIT_CYCLES: u32;

    /// The words of its flash.
    fn flash_words(&self) -> u32
        ensures size { result ≡ (target self.now).size }
        ensures bound { result < 2 ^ 16 };

    /// The words that the code of a primitive takes.
    fn words_of(&self, p: &Prim) -> u32
        ensures { result ≡ (target self.now).words_in p.now };

    /// The cycles that a primitive takes at most, without the answers that are not ready.
    fn cycles_of(&self, p: &Prim) -> u32
        ensures { result ≡ (target self.now).cycles_in p.now };

    /// Appends the code of an admitted primitive that stands at a place in flash, by the places of the labels. Its words end within the flash, and
    /// the label that it names has a place there. Where memory is refused nothing is appended.
    fn emit(&self, p: &Prim, at: u32, labels: &Words, into: &mut Words) -> Result<(), AllocError>
        requires admitted { (target self.now).admits p.now }
        requires fits { at + (target self.now).words_in p.now ≤ (target self.now).size }
        requires labels { (l : ℕ) → label_named p.now ≡ Some l → (l < length labels.now) × (slice_index labels.now l < (target self.now).size) }
        ensures ok { OnOk result (into.new ≡ into.old ++ (target self.now).emitted p.now at labels.now) }
        ensures err { OnErr result (into.new ≡ into.old) };

    ghost law: { (t : Self) → MachineLaw (target t) × ((target t).wait ≡ WAIT_CYCLES) };
}
