//! The C text of elements that work on devices: analog inputs, the PWM, the serial line and the EEPROM.

ghost use Rattle.std.specs.Prelude.{◌≡◌, ◌++◌, OnOk, []};
ghost use Rattle.std.specs.Fmt.{decimal};
ghost use Rattle.ladder_meaning.specs.Persist.{address_of};
ghost use Rattle.ladder_meaning.specs.State.{place_of};
ghost use Rattle.ladder_lower.specs.Wires.{Fits};
ghost use Rattle.c_output.specs.Element.{adc_template, pwm_template, recv_template, send_template, persist_text};
ghost use Rattle.c_output.specs.Filled.{filled, named};

use crate::filled::{push_named, push_pair, push_sized};
use ladder_lower::layout::Layout;
use ladder_tree::element::Name;
use std::alloc::{AllocError, Global};

/// READ_ADC sets a variable where there is power.
pub fn push_adc(
    alloc: Global,
    text: &mut Vec<u8>,
    layout: &Layout<'_>,
    name: &Name,
) -> Result<(), AllocError>
    requires { Fits layout.now 0 }
    ensures { OnOk result (text.new.items ≡ text.old.items ++ filled adc_template name.now (decimal (place_of layout.now.analog name.now)) []) }
{
    let place = layout.analog_of(name) as usize;
    push_sized(alloc, text, "if (f) v_@ = ld_adc(#);\n", name, place)
}

/// SET_PWM sets the duty where there is power.
pub fn push_pwm(alloc: Global, text: &mut Vec<u8>, name: &Name, hz: u32) -> Result<(), AllocError>
    ensures { OnOk result (text.new.items ≡ text.old.items ++ filled pwm_template name.now (decimal hz) []) }
{
    let template = "if (f) ld_pwm(v_@ < 0 ? 0 : v_@ > 100 ? 100 : v_@, #L);\n";
    push_sized(alloc, text, template, name, hz as usize)
}

/// UART_RECV takes a byte where there is power and one that was not taken.
pub fn push_recv(text: &mut Vec<u8>, name: &Name) -> Result<(), AllocError>
    ensures { OnOk result (text.new.items ≡ text.old.items ++ named recv_template name.now) }
{
    let template = "if (f && r >= 0) { v_@ = r; r = -1; } else f = 0;\n";
    push_named(text, template, name)
}

/// UART_SEND sends a byte where there is power and the transmitter does not send.
pub fn push_send(text: &mut Vec<u8>, name: &Name) -> Result<(), AllocError>
    ensures { OnOk result (text.new.items ≡ text.old.items ++ named send_template name.now) }
{
    let template = "if (f && !t) { ld_send(v_@ & 255); t = 1; } f = t;\n";
    push_named(text, template, name)
}

/// PERSIST loads its variable once, and writes it where the EEPROM holds another number.
pub fn push_persist(
    alloc: Global,
    text: &mut Vec<u8>,
    layout: &Layout<'_>,
    name: &Name,
) -> Result<(), AllocError>
    requires { Fits layout.now 0 }
    ensures { OnOk result (text.new.items ≡ text.old.items ++ persist_text name.now (address_of layout.now.persistent name.now)) }
{
    let load =
        "if (f) { if (!s_@ && !ck()) { s_@ = 1; v_@ = w16(ld_eerd(#) + 256L * ld_eerd($)); }";
    let differs = " if (!ck() && v_@ != w16(ld_eerd(#) + 256L * ld_eerd($)))";
    let save =
        " { ld_eewr(#, v_@ & 255); e = 1; h = 1; ha = $; hn = (int)(((long)v_@ & 65535) >> 8); } }\n";
    let low = 2 * layout.persistent_of(name) as usize;
    let high = low + 1;
    push_pair(alloc, text, load, name, low, high)?;
    push_pair(alloc, text, differs, name, low, high)?;
    push_pair(alloc, text, save, name, low, high)
}
