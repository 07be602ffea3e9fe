// Rows that change nothing: they give nothing, or a constant.
ghost use Rattle.std.specs.Prelude.{◌≡◌, MatchResult, Ok, Err};
ghost use Rattle.vm_lib.specs.PlainRows.{object_of, on_object, on_instance, on_class, takes_reference, takes_text, object_init_row, throwable_row, assertion_status_row, print_row};

use crate::operand::string_of;
use crate::plan::Effect;
use crate::value::gives_int;
use jv_base::{Kind, Value};
use vm_world::{Heap, Object};

/// The object of a receiver; where it is null or no object, what the row does instead.
fn object_of(heap: &Heap, value: Value) -> Result<&Object, Effect>
    ensures { MatchResult result (λ object. object_of heap.now value ≡ Ok object.now) (λ effect. object_of heap.now value ≡ Err effect) }
{
    match value {
        Value::Ref(Some(number)) => match heap.find(number) {
            Some(object) => Ok(object),
            None => Err(Effect::Stuck),
        },
        Value::Ref(None) => Err(Effect::Raises(Kind::Null)),
        _ => Err(Effect::Stuck),
    }
}

fn on_object(heap: &Heap, receiver: Value, effect: Effect) -> Effect
    ensures { result ≡ on_object heap.now receiver effect }
{
    match object_of(heap, receiver) {
        Ok(_) => effect,
        Err(effect) => effect,
    }
}

fn on_instance(heap: &Heap, receiver: Value, effect: Effect) -> Effect
    ensures { result ≡ on_instance heap.now receiver effect }
{
    match object_of(heap, receiver) {
        Ok(Object::Instance(_, _)) => effect,
        Ok(_) => Effect::Stuck,
        Err(effect) => effect,
    }
}

fn on_class(class: &str, heap: &Heap, receiver: Value, effect: Effect) -> Effect
    ensures { result ≡ on_class class.now heap.now receiver effect }
{
    match object_of(heap, receiver) {
        Ok(Object::Instance(name, _)) => {
            if name.as_str() == class {
                effect
            } else {
                Effect::Stuck
            }
        }
        Ok(_) => Effect::Stuck,
        Err(effect) => effect,
    }
}

pub(crate) fn takes_reference(value: Value) -> Effect
    ensures { result ≡ takes_reference value }
{
    match value {
        Value::Ref(_) => Effect::Gives(None),
        _ => Effect::Stuck,
    }
}

pub(crate) fn takes_text(heap: &Heap, value: Value) -> Effect
    ensures { result ≡ takes_text heap.now value }
{
    if let Value::Ref(None) = value {
        return Effect::Gives(None);
    }
    match string_of(heap, value) {
        Ok(_) => Effect::Gives(None),
        Err(effect) => effect,
    }
}

/// `<init>:()V` of Object
pub(crate) fn object_init(heap: &Heap, object: Value) -> Effect
    ensures { result ≡ object_init_row heap.now object }
{
    on_object(heap, object, Effect::Gives(None))
}

/// The constructors of Throwable and the classes under it, with what they do with their argument.
pub(crate) fn throwable(heap: &Heap, object: Value, effect: Effect) -> Effect
    ensures { result ≡ throwable_row heap.now object effect }
{
    on_instance(heap, object, effect)
}

/// `desiredAssertionStatus:()Z`
pub(crate) fn assertion_status(heap: &Heap, class: Value) -> Effect
    ensures { result ≡ assertion_status_row heap.now class }
{
    on_class("java/lang/Class", heap, class, gives_int(1))
}

/// `print` and `println`, with what they do with their argument.
pub(crate) fn print(heap: &Heap, stream: Value, effect: Effect) -> Effect
    ensures { result ≡ print_row heap.now stream effect }
{
    on_class("java/io/PrintStream", heap, stream, effect)
}
