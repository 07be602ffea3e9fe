// What instructions on arrays take from the operand stack.
ghost use Rattle.std.specs.Prelude.{◌≡◌};
ghost use Rattle.vm_object.specs.Operands as specs;

use jv_base::Value;
use vm_frame::{both, int_in, reference_in, second, top, without};

/// What a store takes: a reference to an array, an index, and the value on top.
#[derive(Clone, Copy, Debug, PartialEq, Eq)]
pub struct StoreOperands {
    pub array: Option<u64>,
    pub index: i32,
    pub value: Value,
}

/// The int on top, and the reference under it.
pub fn reference_and_int(stack: &[Value]) -> Option<(Option<u64>, i32)>
    ensures { result ≡ specs.reference_and_int stack.now }
{
    both(reference_in(second(stack)), int_in(top(stack)))
}

/// The value on top, with the int and the reference under it.
pub fn store_operands(stack: &[Value]) -> Option<StoreOperands>
    ensures { result ≡ specs.store_operands stack.now }
{
    match (reference_and_int(without(stack, 1)), top(stack)) {
        (Some((array, index)), Some(value)) => Some(StoreOperands {
            array,
            index,
            value,
        }),
        _ => None,
    }
}
