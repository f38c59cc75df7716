//! The places of variables and bits by their numbers.

ghost use Rattle.std.specs.Prelude.{◌≡◌, ◌<◌, ◌≤◌, ◌+◌};
ghost use Rattle.chip_tables.specs.declared.scratch.TheConstants.{WIRES};
ghost use Rattle.int_code.specs.WellFormed.{IsDest, IsSource};
ghost use Rattle.mem_plan.specs.Needs.{ram_need};
ghost use Rattle.byte_lower.specs.Layout as spec;
ghost use Rattle.byte_lower.specs.Layout.{own_cells, room_of};

use crate::layout::Layout;
use byte_code::prim::{BitDest, BitSource};
use chip_tables::{CellBit, PortBit, Scratch, scratch_cells, wire};
use int_code::op;

impl Layout {
    /// How many cells of the chip's list the variables and kept bits take.
    pub(crate) fn cells(&self) -> u16
        ensures { result ≡ ram_need self.now.plan.sizes }
    {
        self.plan.sizes().ram_need() as u16
    }

    /// The address of a variable's low byte.
    pub(crate) fn word_cell(&self, v: u32) -> u16
        requires { v < self.now.plan.sizes.variables }
        ensures { result ≡ spec.word_cell self.now v }
    {
        self.plan.cell_of(v)
    }

    /// The compiler's own cells.
    pub(crate) fn own_cells(&self) -> Scratch
        ensures cells { result ≡ own_cells self.now.plan.target }
        ensures left { result.left ≤ 1000 }
        ensures right { result.right ≤ 1000 }
    {
        scratch_cells(self.plan.target()).unwrap()
    }

    /// Where a bit is: a kept one where the plan has it, and a wire in the compiler's own cells.
    pub(crate) fn bit_cell(&self, k: u32) -> CellBit
        requires { k < self.now.plan.sizes.kept_bits + WIRES }
        ensures { result ≡ spec.bit_cell self.now k }
    {
        let kept = self.plan.sizes().kept_bits;
        if k >= kept {
            return wire(self.plan.target(), k - kept).unwrap();
        }
        let place = self.plan.bit_of(k);
        CellBit {
            address: place.address,
            bit: place.bit,
        }
    }

    /// A bit that is written: an output is the latch of its pin.
    pub(crate) fn dest(&self, b: op::BitDest) -> BitDest
        requires { IsDest (room_of self.now) b }
        ensures { result ≡ spec.dest_of self.now b }
    {
        match b {
            op::BitDest::B(k) => {
                let CellBit { address, bit } = self.bit_cell(k);
                BitDest::Cell { address, bit }
            }
            op::BitDest::Y(k) => {
                let PortBit { port, bit } = *self.outputs.get(k as usize);
                BitDest::Latch { port, bit }
            }
        }
    }

    /// A bit that is read: an input is the level at its pin.
    pub(crate) fn source(&self, s: op::BitSource) -> BitSource
        requires { IsSource (room_of self.now) s }
        ensures { result ≡ spec.source_of self.now s }
    {
        match s {
            op::BitSource::B(k) => {
                let CellBit { address, bit } = self.bit_cell(k);
                BitSource::Cell { address, bit }
            }
            op::BitSource::X(k) => {
                let PortBit { port, bit } = *self.inputs.get(k as usize);
                BitSource::Level { port, bit }
            }
            op::BitSource::Y(k) => {
                let PortBit { port, bit } = *self.outputs.get(k as usize);
                BitSource::Latch { port, bit }
            }
        }
    }
}
