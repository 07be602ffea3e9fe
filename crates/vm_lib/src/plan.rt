// What a row is to do, and how it is done.
ghost use Rattle.std.specs.Prelude.{◌≡◌, IfOk, OnErr};
ghost use Rattle.vm_lib.specs.Plans.{done, made, filled};

use jv_base::{Kind, Mem, Value};
use st_text::Text;
use vm_world::{Heap, Object, TextKind};

/// What a call of a library row does.
#[derive(Clone, Copy, Debug, PartialEq, Eq)]
pub enum Effect {
    /// It returns, with this value if it has a result.
    Gives(Option<Value>),
    /// It throws the exception of this kind.
    Raises(Kind),
    /// A text would be longer than the bound allows.
    Left,
    /// An argument has a class that does not suit, or the profile leaves its value out.
    Stuck,
}

/// What a row is to do, before anything has changed.
#[derive(Debug, Drop)]
pub enum Plan {
    /// What changes nothing.
    Has(Effect),
    /// A new String of this content is made and given.
    Makes(Text),
    /// The StringBuilder of this number gets this content, and this value is given, if there is one.
    Puts(u64, Text, Option<Value>),
}

/// Does what was planned. For want of memory the heap stays.
pub fn carry_out(heap: &mut Heap, plan: Plan) -> Mem<Effect>
    ensures ok { IfOk result (λ effect. (effect, heap.new) ≡ done heap.old plan) }
    ensures unchanged { OnErr result (heap.new ≡ heap.old) }
{
    match plan {
        Plan::Has(effect) => Ok(effect),
        Plan::Makes(text) => {
            let number = heap.make(Object::Text(TextKind::Str, text))?;
            Ok(Effect::Gives(Some(Value::Ref(Some(number)))))
        }
        Plan::Puts(number, text, value) => {
            if heap.put_text(number, text) {
                Ok(Effect::Gives(value))
            } else {
                Ok(Effect::Stuck)
            }
        }
    }
}

/// A new String, unless it would be longer than the bound.
pub(crate) fn made(text: Text, bound: u8) -> Plan
    ensures { result ≡ made bound text }
{
    if text.length() <= u32::from(bound) {
        Plan::Makes(text)
    } else {
        Plan::Has(Effect::Left)
    }
}

/// Another content of a StringBuilder, unless it would be longer than the bound.
pub(crate) fn filled(number: u64, text: Text, value: Option<Value>, bound: u8) -> Plan
    ensures { result ≡ filled bound number text value }
{
    if text.length() <= u32::from(bound) {
        Plan::Puts(number, text, value)
    } else {
        Plan::Has(Effect::Left)
    }
}
