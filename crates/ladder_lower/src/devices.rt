//! The operations of elements that work on devices: analog inputs, the PWM, the serial line and the EEPROM.

ghost use Rattle.std.specs.Prelude.{◌≡◌, ◌++◌, OnOk};
ghost use Rattle.ladder_tree.specs.declared.element.LeafKind.{LeafKind};
ghost use Rattle.ladder_lower.specs.ElementCode.{element_code, persist_code};
ghost use Rattle.ladder_lower.specs.Wires.{Fits};

use crate::layout::Layout;
use crate::power::emit_where_power;
use crate::push::push_all;
use int_code::op::{BitDest, BitSource, IntOp, NumSource, Ops};
use ladder_tree::element::Name;
use std::alloc::AllocError;

/// READ_ADC sets a variable where there is power.
pub fn emit_adc(ops: &mut Ops, layout: &Layout<'_>, name: &Name) -> Result<(), AllocError>
    requires { Fits layout.now 0 }
    ensures { OnOk result (ops.new ≡ ops.old ++ element_code layout.now (LeafKind.ReadAdc name.now) 0) }
{
    let v = layout.variable_of(name);
    let k = layout.analog_of(name);
    emit_where_power(ops, layout, IntOp::Adc { v, k })
}

/// SET_PWM sets the duty where there is power.
pub fn emit_pwm(ops: &mut Ops, layout: &Layout<'_>, name: &Name, hz: u32) -> Result<(), AllocError>
    requires { Fits layout.now 0 }
    ensures { OnOk result (ops.new ≡ ops.old ++ element_code layout.now (LeafKind.SetPwm name.now hz) 0) }
{
    let w = NumSource::V(layout.variable_of(name));
    emit_where_power(ops, layout, IntOp::Pwm { w, hz })
}

/// UART_RECV takes a byte where there is power. The power tells whether there was one.
pub fn emit_recv(ops: &mut Ops, layout: &Layout<'_>, name: &Name) -> Result<(), AllocError>
    requires { Fits layout.now 0 }
    ensures { OnOk result (ops.new ≡ ops.old ++ element_code layout.now (LeafKind.Recv name.now) 0) }
{
    let v = layout.variable_of(name);
    let b = BitDest::B(layout.power());
    emit_where_power(ops, layout, IntOp::Rx { v, b })
}

/// UART_SEND sends a byte where there is power. The power tells whether the transmitter sends.
pub fn emit_send(ops: &mut Ops, layout: &Layout<'_>, name: &Name) -> Result<(), AllocError>
    requires { Fits layout.now 0 }
    ensures { OnOk result (ops.new ≡ ops.old ++ element_code layout.now (LeafKind.Send name.now) 0) }
{
    let power = layout.power();
    ops.push(IntOp::Tx {
        w: NumSource::V(layout.variable_of(name)),
        s: BitSource::B(power),
        b: BitDest::B(power),
    })
}

/// Where there is power and the EEPROM is not busy, a variable that was not loaded is, and one that was is written where the
/// EEPROM holds another number. The spare wire has what the check answered.
pub fn emit_persist(ops: &mut Ops, layout: &Layout<'_>, name: &Name) -> Result<(), AllocError>
    requires { Fits layout.now 0 }
    ensures { OnOk result (ops.new ≡ ops.old ++ persist_code layout.now name.now) }
{
    let v = layout.variable_of(name);
    let a = layout.persistent_of(name);
    let flag = layout.flag_bit(name);
    let spare = layout.spare();
    let power = BitSource::B(layout.power());
    let busy = BitSource::B(spare);
    let loaded = BitSource::B(flag);
    push_all(
        ops,
        [
            IntOp::Ifs { s: power },
            IntOp::Eebusy {
                b: BitDest::B(spare),
            },
            IntOp::Ifc { s: busy },
            IntOp::Ifs { s: loaded },
            IntOp::Ifee { v, a },
            IntOp::Els,
            IntOp::Eewr {
                w: NumSource::V(v),
                a,
            },
            IntOp::Fi,
            IntOp::Els,
            IntOp::Eerd { v, a },
            IntOp::Set {
                b: BitDest::B(flag),
            },
            IntOp::Fi,
            IntOp::Fi,
            IntOp::Fi,
        ],
    )
}
