//! The words of the start.

ghost use Rattle.std.specs.Prelude.{◌≡◌, ◌<◌, ◌≤◌, ◌++◌, OnOk};
ghost use Rattle.avr_code.specs.Code.{clear_code, direction, setup_code, start_code, words_of};
ghost use Rattle.avr_code.specs.Target.{AdmitsStart};
ghost use Rattle.avr_mach.specs.declared.insn.AvrInsn.TheVariants as insn;
ghost use Rattle.avr_mach.specs.Insn.{FieldsFit};
ghost use Rattle.avr_emit.specs.Chip.{board_of};

use crate::chip::Avr;
use crate::insns::{ldi, put};
use avr_mach::AvrInsn;
use chip_tables::bit_mask;
use chip_tables::mega16::SRAM_FIRST;
use std::alloc::AllocError;
use target_core::words::Words;

// The I/O addresses of the registers that the start writes: ATmega16 data sheet, "Register Summary".
const SPH: u8 = 0x3e;

const SPL: u8 = 0x3d;

const TIFR: u8 = 0x38;

const TCCR1A: u8 = 0x2f;

const TCCR1B: u8 = 0x2e;

const OCR1AH: u8 = 0x2b;

const OCR1AL: u8 = 0x2a;

const DDRA: u8 = 0x1a;

const DDRB: u8 = 0x17;

const DDRC: u8 = 0x14;

const DDRD: u8 = 0x11;

impl Avr {
    /// Appends the words of the start, by which so many bytes of the SRAM become 0. Where memory is refused some of them may be appended.
    pub(crate) fn start(&self, cells: u16, words: &mut Words) -> Result<(), AllocError>
        requires { AdmitsStart (board_of self.now) cells }
        ensures { OnOk result (words.new ≡ words.old ++ words_of (start_code (board_of self.now) cells)) }
    {
        put(words, &[ldi(16, 0), AvrInsn::Mov { d: 1, r: 16 }])?;
        clear(words, cells)?;
        self.setup(words)
    }

    /// The stack pointer, the outputs, the cycle timer without its flag, and no byte that waits for the EEPROM.
    fn setup(&self, words: &mut Words) -> Result<(), AllocError>
        ensures { OnOk result (words.new ≡ words.old ++ words_of (setup_code (board_of self.now))) }
    {
        let timer = self.settings.timer;
        put(
            words,
            &[
                ldi(16, 4),
                out(SPH),
                ldi(16, 0x5f),
                out(SPL),
                ldi(16, self.direction(0)),
                out(DDRA),
                ldi(16, self.direction(1)),
                out(DDRB),
                ldi(16, self.direction(2)),
                out(DDRC),
                ldi(16, self.direction(3)),
                out(DDRD),
                AvrInsn::Out { a: TCCR1A, r: 1 },
                ldi(16, (timer.compare / 256) as u8),
                out(OCR1AH),
                ldi(16, (timer.compare % 256) as u8),
                out(OCR1AL),
                ldi(16, timer.control),
                out(TCCR1B),
                ldi(16, 16),
                out(TIFR),
                AvrInsn::Mov { d: 15, r: 1 },
            ],
        )
    }

    /// The directions of a port's pins: 1 at each output.
    fn direction(&self, port: u8) -> u8
        ensures { result ≡ direction (board_of self.now).outputs port }
    {
        let mut mask = 0;
        for i in (0..self.outputs.len()).rev() {
            let pin = self.outputs.get(i);
            if pin.port == port {
                mask |= bit_mask(pin.bit % 8);
            }
        }
        mask
    }
}

/// An I/O register takes R16.
fn out(a: u8) -> AvrInsn
    requires { a < 64 }
    ensures value { result ≡ insn.Out a 16 }
    ensures fits { FieldsFit result }
{
    AvrInsn::Out { a, r: 16 }
}

/// The loop by which so many bytes of the SRAM become 0. It keeps X, which goes over them.
fn clear(words: &mut Words, cells: u16) -> Result<(), AllocError>
    requires { cells ≤ 960 }
    ensures { OnOk result (words.new ≡ words.old ++ words_of (clear_code cells)) }
{
    if cells == 0 {
        return Ok(());
    }
    let end = SRAM_FIRST + cells;
    put(
        words,
        &[
            AvrInsn::Mov { d: 18, r: 26 },
            AvrInsn::Mov { d: 19, r: 27 },
            ldi(26, SRAM_FIRST as u8),
            ldi(27, 0),
            ldi(16, (end / 256) as u8),
            AvrInsn::St { r: 1 },
            AvrInsn::Cpi {
                d: 26,
                k: (end % 256) as u8,
            },
            AvrInsn::Cpc { d: 27, r: 16 },
            AvrInsn::Brbc { s: 1, k: 124 },
            AvrInsn::Mov { d: 26, r: 18 },
            AvrInsn::Mov { d: 27, r: 19 },
        ],
    )
}
