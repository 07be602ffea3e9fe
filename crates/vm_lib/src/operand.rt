// Operands of library rows: references to texts.
ghost use Rattle.std.specs.Prelude.{◌≡◌, MatchResult, Ok, Err};
ghost use Rattle.vm_lib.specs.Operands.{string_of, builder_of};

use crate::plan::{Effect, Plan};
use jv_base::{Kind, Value};
use st_text::Text;
use vm_world::{Heap, Object, TextKind};

/// The content of a String; where the reference is null or to another object, what the row does instead.
pub fn string_of(heap: &Heap, value: Value) -> Result<&Text, Effect>
    ensures { MatchResult result (λ text. string_of heap.now value ≡ Ok text.now) (λ effect. string_of heap.now value ≡ Err effect) }
{
    match value {
        Value::Ref(Some(number)) => match heap.find(number) {
            Some(Object::Text(TextKind::Str, text)) => Ok(text),
            _ => Err(Effect::Stuck),
        },
        Value::Ref(None) => Err(Effect::Raises(Kind::Null)),
        _ => Err(Effect::Stuck),
    }
}

/// The number and the content of a StringBuilder; else what the row does instead.
pub fn builder_of(heap: &Heap, value: Value) -> Result<(u64, &Text), Effect>
    ensures { MatchResult result (λ builder. builder_of heap.now value ≡ Ok (builder.0, builder.1.now)) (λ effect. builder_of heap.now value ≡ Err effect) }
{
    match value {
        Value::Ref(Some(number)) => match heap.find(number) {
            Some(Object::Text(TextKind::Builder, text)) => Ok((number, text)),
            _ => Err(Effect::Stuck),
        },
        Value::Ref(None) => Err(Effect::Raises(Kind::Null)),
        _ => Err(Effect::Stuck),
    }
}
