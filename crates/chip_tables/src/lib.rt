//! The facts of the chips as tables: pins, memories, settings of the devices, and costs; and what the written machines of all chips
//! share: what a step meets and how it ends, and bits of a byte.
#![tactic(auto)]

mod bits;
mod configuration;
mod cost_kind;
mod cost_table;
pub mod mega16;
mod memory;
mod outside;
pub mod pic16;
mod pins;
mod scratch;
mod settings;
mod target;

pub use bits::{as_bit, bit_mask, bit_of};
pub use configuration::configuration_word;
pub use cost_kind::{Cost, CostKind};
pub use cost_table::cost;
pub use memory::{
    DATA_ADDRESSES, EEPROM_MOST, FLASH_MOST, eeprom_have, flash_words, ram_byte, ram_have,
};
pub use outside::{Env, PinReading, Poll, StepEnd, StuckAt, StuckCause, Went};
pub use pins::{PinRow, PortBit, adc_channel, pin_of, pwm_pin, row_of_pin, rx_pin, tx_pin};
pub use scratch::{CellBit, Scratch, WIRES, scratch_cells, wire};
pub use settings::{
    BaudSetting, PwmSetting, Settings, TimerSetting, baud_setting, pwm_setting, timer_setting,
};
pub use target::Target;
