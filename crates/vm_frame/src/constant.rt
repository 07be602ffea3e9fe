// The instructions that push a constant.
ghost use Rattle.std.specs.Prelude.{◌≡◌};
ghost use Rattle.vm_frame.specs.Constants.{constant_effect};

use crate::effect::FrameEffect;
use cf_code::Constant;
use jv_base::Value;

/// What an instruction does that pushes a constant (JVM Specification SE 8, 6.5).
pub fn constant_effect(constant: Constant) -> FrameEffect
    ensures { result ≡ constant_effect constant }
{
    match constant {
        Constant::Null => FrameEffect::Gives(0, Value::Ref(None)),
        Constant::Iconst(number) => FrameEffect::Gives(0, Value::Int(i32::from(number))),
        Constant::Bipush(number) => FrameEffect::Gives(0, Value::Int(i32::from(number))),
        Constant::Sipush(number) => FrameEffect::Gives(0, Value::Int(i32::from(number))),
        Constant::Lconst(number) => FrameEffect::Gives(0, Value::Long(i64::from(number))),
        Constant::Fconst(_) | Constant::Dconst(_) => FrameEffect::Sticks,
        Constant::Ldc(_) | Constant::LdcW(_) | Constant::Ldc2W(_) => FrameEffect::Exceeds,
    }
}
