// Instructions on objects.
ghost use Rattle.std.specs.Prelude.{◌≡◌, ◌++◌, Some, IfSome, OnOk};
ghost use Rattle.cf_code.specs.Objects.{object_spelling, FitsObject};

use crate::call::put_indexed;
use jv_base::Mem;

/// An instruction on an object (JVM Specification SE 8, 6.5). An index is one of the constant pool, of a class.
#[derive(Clone, Copy, Debug, PartialEq, Eq)]
pub enum Object {
    New(u16),
    Throw,
    CheckCast(u16),
    InstanceOf(u16),
    MonitorEnter,
    MonitorExit,
}

/// The instruction that these bytes spell.
pub(crate) fn read_object(bytes: &[u8]) -> Option<Object>
    ensures found { IfSome result (λ o. (bytes.now ≡ object_spelling o) × FitsObject o) }
    ensures only { (o : Object) → FitsObject o → bytes.now ≡ object_spelling o → result ≡ Some o }
{
    match bytes {
        [187, high, low] => Some(Object::New(u16::from_be_bytes([*high, *low]))),
        [191] => Some(Object::Throw),
        [192, high, low] => Some(Object::CheckCast(u16::from_be_bytes([*high, *low]))),
        [193, high, low] => Some(Object::InstanceOf(u16::from_be_bytes([*high, *low]))),
        [194] => Some(Object::MonitorEnter),
        [195] => Some(Object::MonitorExit),
        _ => None,
    }
}

/// Puts the bytes of the instruction at the end.
pub(crate) fn put_object(out: &mut Vec<u8>, object: Object) -> Mem<()>
    ensures { OnOk result (out.new.items ≡ out.old.items ++ object_spelling object) }
{
    match object {
        Object::New(index) => put_indexed(out, 187, index),
        Object::Throw => out.extend_from_slice(&[191]),
        Object::CheckCast(index) => put_indexed(out, 192, index),
        Object::InstanceOf(index) => put_indexed(out, 193, index),
        Object::MonitorEnter => out.extend_from_slice(&[194]),
        Object::MonitorExit => out.extend_from_slice(&[195]),
    }
}
