//! How the duty of the PWM is shown.

ghost use Rattle.std.specs.Prelude.{◌≡◌, ℕ, ◌<◌, ◌≤◌};
ghost use Rattle.ladder_trace.specs.Duty.{duty_register, least_duty, shown_where, duty_as};
ghost use Rattle.ladder_trace.specs.declared.duty.TheConstants.{DUTIES};

use chip_tables::PwmSetting;

/// How many duties there are in whole percent: 0 to 100.
pub const DUTIES: u8 = 101;

/// What stands for a duty where no duty has the value of a duty register.
pub const NO_DUTY: u8 = 255;

/// How the duty of the PWM is shown.
#[derive(Clone, Copy, Debug)]
pub enum DutyShown {
    /// It is not, since nothing sets it.
    Hidden,
    /// As it is, in percent.
    Exact,
    /// On a chip: as the least duty with which the duty register has the same value.
    Least(PwmSetting),
}

impl DutyShown {
    /// How the duty is shown that is set or not, on a target with a setting of the PWM or without.
    pub fn shown_where(is_set: bool, setting: Option<PwmSetting>) -> DutyShown
        ensures { result ≡ shown_where is_set setting }
    {
        if !is_set {
            return DutyShown::Hidden;
        }
        match setting {
            None => DutyShown::Exact,
            Some(setting) => DutyShown::Least(setting),
        }
    }

    /// What is shown of a duty in percent, where something is.
    pub fn shown(self, duty: u8) -> Option<u8>
        ensures { result ≡ duty_as self duty }
    {
        match self {
            DutyShown::Hidden => None,
            DutyShown::Exact => Some(duty),
            DutyShown::Least(setting) => Some(least_duty(setting, duty_register(setting, duty))),
        }
    }
}

/// The value of the duty register at a duty in percent.
pub fn duty_register(setting: PwmSetting, duty: u8) -> u32
    ensures { result ≡ duty_register setting duty }
{
    u32::from(duty) * u32::from(setting.top) / 100
}

/// The least duty in percent with which the duty register has the value, or 255 where there is none.
pub fn least_duty(setting: PwmSetting, register: u32) -> u8
    ensures value { result ≡ least_duty setting register }
    ensures least { (duty : ℕ) → duty < DUTIES → duty_register setting duty ≡ register → (duty_register setting result ≡ register) × (result ≤ duty) }
{
    for duty in 0..DUTIES {
        if duty_register(setting, duty) == register {
            return duty;
        }
    }
    NO_DUTY
}
