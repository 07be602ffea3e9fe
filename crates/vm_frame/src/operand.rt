// The values on an operand stack (JVM Specification SE 8, 2.6.2), whose top is the last.
ghost use Rattle.std.specs.Prelude.{◌≡◌, ◌≤◌, ℕ, length, IfSome};
ghost use Rattle.vm_frame.specs.Operands as specs;

use jv_base::Value;

/// No, one or two values on an operand stack, the top last.
#[derive(Clone, Copy, Debug, PartialEq, Eq)]
pub enum Operands {
    NoOperand,
    OneOperand(Value),
    TwoOperands(Value, Value),
}

impl Operands {
    pub fn count(self) -> usize
        ensures value { result ≡ length (specs.values self) }
        ensures within { result ≤ 2 }
    {
        match self {
            Operands::NoOperand => 0,
            Operands::OneOperand(_) => 1,
            Operands::TwoOperands(_, _) => 2,
        }
    }
}

/// The values but for so many on top.
pub fn without(stack: &[Value], count: usize) -> &[Value]
    ensures { result.now ≡ specs.without count stack.now }
{
    &stack[..stack.len().saturating_sub(count)]
}

/// The value on top, if there is one.
pub fn top(stack: &[Value]) -> Option<Value>
    ensures { result ≡ specs.top stack.now }
{
    stack.last().copied()
}

/// The value under it, if there is one.
pub fn second(stack: &[Value]) -> Option<Value>
    ensures { result ≡ specs.second stack.now }
{
    top(without(stack, 1))
}

pub fn int_in(value: Option<Value>) -> Option<i32>
    ensures { result ≡ specs.int_in value }
{
    match value {
        Some(Value::Int(number)) => Some(number),
        _ => None,
    }
}

pub fn long_in(value: Option<Value>) -> Option<i64>
    ensures { result ≡ specs.long_in value }
{
    match value {
        Some(Value::Long(number)) => Some(number),
        _ => None,
    }
}

/// The reference, null or the number of an object.
pub fn reference_in(value: Option<Value>) -> Option<Option<u64>>
    ensures { result ≡ specs.reference_in value }
{
    match value {
        Some(Value::Ref(reference)) => Some(reference),
        _ => None,
    }
}

/// Both, where both are there.
pub fn both<A: Copy, B: Copy>(first: Option<A>, second: Option<B>) -> Option<(A, B)>
    ensures { result ≡ specs.both first second }
{
    match (first, second) {
        (Some(first), Some(second)) => Some((first, second)),
        _ => None,
    }
}

/// The two ints on top. The second was pushed last.
pub fn two_ints(stack: &[Value]) -> Option<(i32, i32)>
    ensures { result ≡ specs.two_ints stack.now }
{
    both(int_in(second(stack)), int_in(top(stack)))
}

/// The two longs on top. The second was pushed last.
pub fn two_longs(stack: &[Value]) -> Option<(i64, i64)>
    ensures { result ≡ specs.two_longs stack.now }
{
    both(long_in(second(stack)), long_in(top(stack)))
}

/// The int on top, and the long under it.
pub(crate) fn long_and_int(stack: &[Value]) -> Option<(i64, i32)>
    ensures { result ≡ specs.long_and_int stack.now }
{
    both(long_in(second(stack)), int_in(top(stack)))
}

/// The two references on top. The second was pushed last.
pub fn two_references(stack: &[Value]) -> Option<(Option<u64>, Option<u64>)>
    ensures { result ≡ specs.two_references stack.now }
{
    both(reference_in(second(stack)), reference_in(top(stack)))
}

/// Whether the value has two words.
pub(crate) fn is_long(value: Value) -> bool
    ensures { result ≡ specs.is_long value }
{
    match value {
        Value::Long(_) => true,
        Value::Int(_) | Value::Ref(_) => false,
    }
}

fn one_word(top: Option<Value>) -> Option<Operands>
    ensures { result ≡ specs.one_word top }
{
    let top = top?;
    if is_long(top) {
        None
    } else {
        Some(Operands::OneOperand(top))
    }
}

fn two_words(top: Option<Value>, under: Option<Value>) -> Option<Operands>
    ensures { result ≡ specs.two_words top under }
{
    let top = top?;
    if is_long(top) {
        return Some(Operands::OneOperand(top));
    }
    let under = under?;
    if is_long(under) {
        None
    } else {
        Some(Operands::TwoOperands(under, top))
    }
}

/// The values on top that have so many words, 0 to 2. None where there are not so many, or a long would be parted.
pub(crate) fn operands_of(words: u8, stack: &[Value]) -> Option<Operands>
    ensures value { result ≡ specs.operands_of words stack.now }
    ensures within { IfSome result (λ o. length (specs.values o) ≤ length stack.now) }
{
    match words {
        0 => Some(Operands::NoOperand),
        1 => one_word(top(stack)),
        _ => two_words(top(stack), second(stack)),
    }
}
