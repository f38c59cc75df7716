//! The state of the byte machine.

ghost use Rattle.std.specs.Prelude.{◌≡◌};
ghost use Rattle.std.specs.Option.{option_map};
ghost use Rattle.byte_code.specs.State.{fresh};
ghost use Rattle.byte_code.specs.Store.{cell};
ghost use Rattle.chip_tables.specs.Scratch.{scratch_of};

use crate::store::Store;
use chip_tables::{DATA_ADDRESSES, EEPROM_MOST, PinReading, Poll, Scratch, Target, scratch_cells};

/// The byte machine between two primitives.
#[derive(Drop)]
pub struct Bytes {
    /// The place of the next primitive in the code.
    pub place: usize,
    /// Where an open call goes on.
    pub open_call: Option<usize>,
    /// Whether the start was done.
    pub started: bool,
    pub store: Store,
}

/// The byte machine, and what its last step asked and sent.
#[derive(Drop)]
pub struct ByteState {
    pub bytes: Bytes,
    pub poll: Poll,
    pub sent: Option<u8>,
}

impl ByteState {
    /// The machine of a chip in front of its first step, with any cells and any EEPROM; none where the target is no chip.
    pub fn new(
        target: Target,
        cells: &[u8; DATA_ADDRESSES],
        eeprom: &[u8; EEPROM_MOST],
    ) -> Option<ByteState>
        ensures { result ≡ option_map (fresh target cells.now eeprom.now) (scratch_of target) }
    {
        match scratch_cells(target) {
            Some(scratch) => Some(fresh(target, cells, eeprom, scratch)),
            None => None,
        }
    }

    /// A cell of data memory; 0 past the last.
    pub fn cell(&self, address: u16) -> u8
        ensures { result ≡ cell self.now.bytes.store address }
    {
        self.bytes.store.cell(usize::from(address))
    }
}

fn fresh(
    target: Target,
    cells: &[u8; DATA_ADDRESSES],
    eeprom: &[u8; EEPROM_MOST],
    scratch: Scratch,
) -> ByteState
    ensures { result ≡ fresh target cells.now eeprom.now scratch }
{
    ByteState {
        bytes: Bytes {
            place: 0,
            open_call: None,
            started: false,
            store: Store {
                target,
                scratch,
                cells: *cells,
                latches: [0; 5],
                eeprom: *eeprom,
                address: 0,
                channel: 0,
                converting: false,
                converted: 0,
                duty: 0,
                flag: None,
                reading: PinReading::nothing(),
            },
        },
        poll: Poll::NoPoll,
        sent: None,
    }
}
