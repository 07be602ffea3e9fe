// The local variables, and the instructions on them.
ghost use Rattle.std.specs.Prelude.{◌≡◌, ◌+◌, ◌≤◌, ◌<◌, length, IsSome, IfSome, IfOk, OnOk, OnErr, slice_get, Some};
ghost use Rattle.vm_frame.specs.Locals as specs;
ghost use Rattle.vm_frame.specs.Operands.{int_in};

use crate::effect::FrameEffect;
use crate::operand::{int_in, is_long, top};
use cf_code::{Local, LocalIndex, Word};
use jv_base::{List, Mem, Value};

/// What a local holds. Past the end of the list it holds nothing.
pub fn local_at(locals: &[Option<Value>], index: usize) -> Option<Value>
    ensures { result ≡ specs.local_at locals.now index }
{
    match locals.get(index) {
        Some(local) => *local,
        None => None,
    }
}

/// How many locals a value takes.
fn width(value: Value) -> usize
    ensures value { result ≡ specs.width value }
    ensures within { result ≤ 2 }
{
    if is_long(value) { 2 } else { 1 }
}

fn holds_long(content: Option<Value>) -> bool
    ensures { result ≡ specs.holds_long content }
{
    match content {
        Some(value) => is_long(value),
        None => false,
    }
}

/// Makes so many locals at least: more than there were hold nothing. For want of memory the locals stay.
fn make_room(locals: &mut List<Option<Value>>, count: usize) -> Mem<()>
    ensures ok { OnOk result (locals.new ≡ specs.with_room locals.old count) }
    ensures unchanged { OnErr result (locals.new ≡ locals.old) }
{
    let before = locals.length();
    'room: while locals.length() < count {
        if let Err(refused) = locals.add(None) {
            locals.truncate(before);
            return Err(refused);
        }
    }
    Ok(())
}

/// Ends a long that a local is the second of.
fn end_long(locals: &mut List<Option<Value>>, index: usize)
    ensures { locals.new ≡ specs.ended index locals.old }
{
    if index == 0 {
        return;
    }
    if holds_long(local_at(locals.as_slice(), index - 1)) {
        locals.set(index - 1, None);
    }
}

/// Puts a value into a local, and nothing into the second local of a long.
fn write(locals: &mut List<Option<Value>>, index: u16, value: Value)
    requires { index + specs.width value ≤ length locals.old }
    ensures { locals.new ≡ specs.written index value locals.old }
{
    let index = usize::from(index);
    locals.set(index, Some(value));
    if is_long(value) {
        locals.set(index + 1, None);
    }
}

/// Stores a value in a local. For want of memory the locals stay.
pub(crate) fn store(locals: &mut List<Option<Value>>, index: u16, value: Value) -> Mem<()>
    ensures ok { OnOk result (locals.new ≡ specs.stored locals.old index value) }
    ensures unchanged { OnErr result (locals.new ≡ locals.old) }
{
    make_room(locals, usize::from(index) + width(value))?;
    end_long(locals, usize::from(index));
    write(locals, index, value);
    Ok(())
}

fn index_of(index: LocalIndex) -> u16
    ensures { result ≡ specs.index_of index }
{
    match index {
        LocalIndex::Short(index) | LocalIndex::Byte(index) => u16::from(index),
        LocalIndex::Wide(index) => index,
    }
}

/// The value, if it is of this type. No value is a float or a double.
fn of_type(word: Word, value: Option<Value>) -> Option<Value>
    ensures { result ≡ specs.of_type word value }
{
    match (word, value) {
        (Word::Int, Some(Value::Int(_))) => value,
        (Word::Long, Some(Value::Long(_))) => value,
        (Word::Reference, Some(Value::Ref(_))) => value,
        _ => None,
    }
}

fn load_effect(value: Option<Value>) -> FrameEffect
    ensures { result ≡ specs.load_effect value }
{
    match value {
        Some(value) => FrameEffect::Gives(0, value),
        None => FrameEffect::Sticks,
    }
}

fn store_effect(index: u16, value: Option<Value>) -> FrameEffect
    ensures { result ≡ specs.store_effect index value }
{
    match value {
        Some(value) => FrameEffect::Stores(index, value),
        None => FrameEffect::Sticks,
    }
}

fn iinc_effect(index: u16, by: i16, number: Option<i32>) -> FrameEffect
    ensures { result ≡ specs.iinc_effect index by number }
{
    match number {
        Some(number) => {
            FrameEffect::Changes(index, Value::Int(number.wrapping_add(i32::from(by))))
        }
        None => FrameEffect::Sticks,
    }
}

/// What an instruction on a local variable does (JVM Specification SE 8, 6.5).
pub fn local_effect(local: Local, locals: &[Option<Value>], stack: &[Value]) -> FrameEffect
    ensures { result ≡ specs.local_effect local locals.now stack.now }
{
    match local {
        Local::Load(word, index) => {
            load_effect(of_type(word, local_at(locals, usize::from(index_of(index)))))
        }
        Local::Store(word, index) => store_effect(index_of(index), of_type(word, top(stack))),
        Local::Iinc(index, by) => {
            let number = int_in(local_at(locals, usize::from(index)));
            iinc_effect(u16::from(index), i16::from(by), number)
        }
        Local::IincWide(index, by) => {
            let number = int_in(local_at(locals, usize::from(index)));
            iinc_effect(index, by, number)
        }
        Local::Ret(_) | Local::RetWide(_) => FrameEffect::Sticks,
    }
}
