//! The settings of the devices that a program needs.

ghost use Rattle.std.specs.Prelude.{◌≡◌, ◌+◌, ◌*◌, ◌<◌, ◌≤◌, All};
ghost use Rattle.chip_tables.specs.Settings.{timer_of, timer_among, ending_at, baud_of, divisor_within, nearest_ratio, pwm_of, lasting, pic_pwm_among, avr_pwm_among};

use crate::target::Target;

/// The registers of the cycle timer, which counts up to `compare` and begins again.
#[derive(Clone, Copy, Debug, PartialEq, Eq)]
pub struct TimerSetting {
    /// T1CON of a PIC, TCCR1B of the AVR.
    pub control: u8,
    /// CCPR1H and CCPR1L of a PIC, OCR1A of the AVR.
    pub compare: u16,
}

/// The registers of the serial port's rate.
#[derive(Clone, Copy, Debug, PartialEq, Eq)]
pub struct BaudSetting {
    /// SPBRG of a PIC, UBRR of the AVR.
    pub divisor: u16,
    /// BRGH of a PIC: 16 clocks a bit and not 64. The AVR is at 16 and has `false`.
    pub fast: bool,
}

/// The registers of the pulse-width modulator.
#[derive(Clone, Copy, Debug, PartialEq, Eq)]
pub struct PwmSetting {
    /// T2CON of the PIC16F877, TCCR2 of the ATmega16.
    pub control: u8,
    /// The duty register's value at 100 percent: a duty of `d` percent is `d * top / 100`.
    pub top: u16,
}

/// The settings of a chip's devices that a program needs.
#[derive(Clone, Copy, Debug, PartialEq, Eq)]
pub struct Settings {
    pub timer: TimerSetting,
    pub baud: Option<BaudSetting>,
    pub pwm: Option<PwmSetting>,
}

/// A prescaler, and the control register's value that selects it.
#[derive(Clone, Copy)]
struct Prescaler {
    ratio: u16,
    control: u8,
}

// A table of prescalers, each as its ratio and the value that selects it.
macro_rules! prescalers {
    ($($ratio:literal $control:literal,)*) => {
        [$(Prescaler { ratio: $ratio, control: $control }),*]
    };
}

/// The cycle timer at a cycle time in microseconds and a crystal in hertz. A cycle takes
/// `compare + 1` ticks, which is the cycle time rounded down to whole ticks.
pub fn timer_setting(target: Target, cycle: u32, hz: u32) -> Option<TimerSetting>
    ensures { result ≡ timer_of target cycle hz }
{
    match target {
        Target::F628 | Target::F877 => first_timer(&PIC_TIMER, 4, cycle, hz),
        Target::Mega16 => first_timer(&AVR_TIMER, 1, cycle, hz),
        Target::Interp | Target::AnsiC => None,
    }
}

const PIC_TIMER: [Prescaler; 4] = prescalers! {
    1 0x01,
    2 0x11,
    4 0x21,
    8 0x31,
};

const AVR_TIMER: [Prescaler; 5] = prescalers! {
    1 0x09,
    8 0x0a,
    64 0x0b,
    256 0x0c,
    1024 0x0d,
};

/// The first prescaler for which a cycle's ticks fit the timer's 16 bits, where there is a tick.
fn first_timer<const N: usize>(
    prescalers: &[Prescaler; N],
    clocks: u64,
    cycle: u32,
    hz: u32,
) -> Option<TimerSetting>
    requires ratios { All (λ p. 0 < p.ratio) prescalers.now }
    requires positive { 0 < clocks }
    requires few { clocks ≤ 4 }
    ensures { result ≡ timer_among prescalers.now clocks cycle hz }
{
    let total = u64::from(cycle) * u64::from(hz);
    for prescaler in prescalers {
        let ticks = total / (u64::from(prescaler.ratio) * clocks * 1_000_000);
        if ticks <= 65536 {
            return counting(prescaler.control, ticks);
        }
    }
    None
}

/// A count of so many ticks ends at one less.
fn counting(control: u8, ticks: u64) -> Option<TimerSetting>
    requires { ticks ≤ 65536 }
    ensures { result ≡ ending_at control ticks }
{
    if ticks == 0 {
        return None;
    }
    Some(TimerSetting {
        control,
        compare: (ticks - 1) as u16,
    })
}

/// The serial port at a crystal in hertz and a rate in bits a second: the clock divided by 16 for
/// each bit or, where a PIC's divisor does not reach, by 64.
pub fn baud_setting(target: Target, hz: u32, baud: u32) -> Option<BaudSetting>
    ensures { result ≡ baud_of target hz baud }
{
    if baud == 0 {
        return None;
    }
    match target {
        Target::F628 | Target::F877 => {
            let fast = divisor(256, true, nearest(hz, baud, 16));
            let slow = divisor(256, false, nearest(hz, baud, 64));
            fast.or(slow)
        }
        Target::Mega16 => divisor(4096, false, nearest(hz, baud, 16)),
        Target::Interp | Target::AnsiC => None,
    }
}

/// The crystal over the rate and the clocks of a bit, rounded to the nearest whole.
fn nearest(hz: u32, baud: u32, clocks: u64) -> u64
    requires asked { 0 < baud }
    requires positive { 0 < clocks }
    requires few { clocks ≤ 64 }
    ensures { result ≡ nearest_ratio hz baud clocks }
{
    let rate = u64::from(baud);
    (u64::from(hz) + clocks / 2 * rate) / (clocks * rate)
}

/// The setting whose divisor register holds the ratio less one, where the register is wide enough.
fn divisor(most: u64, fast: bool, ratio: u64) -> Option<BaudSetting>
    requires { most ≤ 65536 }
    ensures { result ≡ divisor_within most fast ratio }
{
    if 1 <= ratio && ratio <= most {
        Some(BaudSetting {
            divisor: (ratio - 1) as u16,
            fast,
        })
    } else {
        None
    }
}

/// The pulse-width modulator at a crystal and a frequency in hertz.
pub fn pwm_setting(target: Target, hz: u32, freq: u32) -> Option<PwmSetting>
    ensures { result ≡ pwm_of target hz freq }
{
    if freq == 0 {
        return None;
    }
    match target {
        Target::F877 => pic_period(&PIC_PWM, hz, freq),
        Target::Mega16 => avr_period(&AVR_PWM, hz, freq),
        Target::F628 | Target::Interp | Target::AnsiC => None,
    }
}

const PIC_PWM: [Prescaler; 3] = prescalers! {
    1 0x04,
    4 0x05,
    16 0x06,
};

const AVR_PWM: [Prescaler; 7] = prescalers! {
    1 0x69,
    8 0x6a,
    32 0x6b,
    64 0x6c,
    128 0x6d,
    256 0x6e,
    1024 0x6f,
};

/// The first prescaler for which a PIC's period is at most 255 ticks, where it is 2 at least.
fn pic_period<const N: usize>(prescalers: &[Prescaler; N], hz: u32, freq: u32) -> Option<PwmSetting>
    requires ratios { All (λ p. 0 < p.ratio) prescalers.now }
    requires asked { 0 < freq }
    ensures { result ≡ pic_pwm_among prescalers.now hz freq }
{
    for prescaler in prescalers {
        let ticks = u64::from(hz) / (4 * u64::from(prescaler.ratio) * u64::from(freq));
        if ticks <= 255 {
            return topped(prescaler.control, ticks);
        }
    }
    None
}

/// A period of so many ticks. Below 2 there is no duty between none and all.
fn topped(control: u8, ticks: u64) -> Option<PwmSetting>
    requires { ticks ≤ 255 }
    ensures { result ≡ lasting control ticks }
{
    if ticks < 2 {
        return None;
    }
    Some(PwmSetting {
        control,
        top: ticks as u16,
    })
}

/// The first prescaler for which the AVR's period of 256 ticks is no shorter than asked.
fn avr_period<const N: usize>(prescalers: &[Prescaler; N], hz: u32, freq: u32) -> Option<PwmSetting>
    ensures { result ≡ avr_pwm_among prescalers.now hz freq }
{
    let clocks = u64::from(hz);
    let fits = |p: &Prescaler| clocks <= 256 * u64::from(p.ratio) * u64::from(freq);
    let chosen = prescalers.iter().find(|p| fits(p))?;
    Some(PwmSetting {
        control: chosen.control,
        top: 255,
    })
}
