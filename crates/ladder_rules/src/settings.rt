//! The settings of the devices that a project uses.

ghost use Rattle.std.specs.Prelude.{◌≡◌};
ghost use Rattle.ladder_rules.specs.Settings.{baud_in, pwm_in, settings_of};

use crate::search::first_rate;
use crate::survey::{Feature, any_uses};
use chip_tables::{BaudSetting, PwmSetting, Settings, baud_setting, pwm_setting, timer_setting};
use ladder_tree::project::Project;

/// The settings for a project, where the target's timer can make its cycle.
pub fn settings_of(project: &Project) -> Option<Settings>
    ensures { result ≡ settings_of project.now }
{
    let timer = timer_setting(project.target, project.cycle, project.crystal)?;
    Some(Settings {
        timer,
        baud: baud_in(project),
        pwm: pwm_in(project),
    })
}

/// The serial port's setting, where an element uses it.
fn baud_in(project: &Project) -> Option<BaudSetting>
    ensures { result ≡ baud_in project.now }
{
    if any_uses(Feature::Serial, project.rungs.as_slice()) {
        baud_setting(project.target, project.crystal, project.baud)
    } else {
        None
    }
}

/// The pulse-width modulator's setting, at the rate of the first SET_PWM.
fn pwm_in(project: &Project) -> Option<PwmSetting>
    ensures { result ≡ pwm_in project.now }
{
    let hz = first_rate(project.rungs.as_slice())?;
    pwm_setting(project.target, project.crystal, hz)
}
