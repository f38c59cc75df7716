//! How the duty of a project is shown.

ghost use Rattle.std.specs.Prelude.{◌≡◌};
ghost use Rattle.std.specs.Option.{option_and_then};
ghost use Rattle.ladder_rules.specs.Settings.{settings_of};
ghost use Rattle.ladder_trace.specs.Simulated.{duty_shown};

use chip_tables::PwmSetting;
use ladder_rules::Legal;
use ladder_trace::duty::DutyShown;
use ladder_tree::peripheral::any_pwm;

/// The setting of the PWM, on a chip with a SET_PWM.
fn pwm_setting(legal: &Legal) -> Option<PwmSetting>
    ensures { result ≡ option_and_then (λ s. s.pwm) (settings_of legal.now.project) }
{
    let settings = legal.settings()?;
    settings.pwm
}

/// How the project's duty is shown.
pub fn duty_shown(legal: &Legal) -> DutyShown
    ensures { result ≡ duty_shown legal.now.project }
{
    DutyShown::shown_where(
        any_pwm(legal.project().rungs.as_slice()),
        pwm_setting(legal),
    )
}
