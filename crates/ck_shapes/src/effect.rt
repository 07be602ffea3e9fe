// What an instruction does to a shape.
use crate::shape::ValueType;
use jv_list::List;

/// A move of words on the stack, of which a long has two that are never parted (JVM Specification SE 8, 2.11.5): so
/// many words on top are taken off, and so many under them; then the words of the top are put, where `puts_below`; then
/// those from under them; and then those of the top, where `puts_above`.
#[derive(Clone, Copy, Debug, PartialEq, Eq)]
pub struct Move {
    pub top: u8,
    pub under: u8,
    pub puts_below: bool,
    pub puts_above: bool,
}

/// What an instruction does to the shape of its frame (JVM Specification SE 8, 6.5, "Operand Stack"). A number is an
/// index of a local.
#[derive(Debug, Drop)]
pub enum Effect {
    /// It moves words on the stack.
    Moves(Move),
    /// It pushes the value of a local.
    Loads(ValueType, u16),
    /// It pops a value into a local.
    Stores(ValueType, u16),
    /// It changes an int in a local.
    Increments(u16),
    /// It pops values of these types, and pushes values of those; the top is last.
    Replaces(List<ValueType>, List<ValueType>),
}
