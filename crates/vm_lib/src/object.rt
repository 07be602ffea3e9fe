// The row of java.lang.Object that gives a value.
ghost use Rattle.std.specs.Prelude.{◌≡◌};
ghost use Rattle.vm_lib.specs.ObjectRows.{is_same_object, same_object_row};

use crate::plan::Effect;
use crate::value::gives_test;
use jv_base::{Kind, Value};

fn is_same_object(a: Option<u64>, b: Option<u64>) -> bool
    ensures { result ≡ is_same_object a b }
{
    match (a, b) {
        (Some(a), Some(b)) => a == b,
        (None, None) => true,
        _ => false,
    }
}

/// `equals:(Ljava/lang/Object;)Z`
pub fn same_object(object: Value, other: Value) -> Effect
    ensures { result ≡ same_object_row object other }
{
    match (object, other) {
        (Value::Ref(None), Value::Ref(_)) => Effect::Raises(Kind::Null),
        (Value::Ref(a), Value::Ref(b)) => gives_test(is_same_object(a, b)),
        _ => Effect::Stuck,
    }
}
