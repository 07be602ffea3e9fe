// What a method tells of itself.
use cf_code::FieldUse;
use jv_base::{FieldId, MethodId, Name};

/// Why an instruction, a method or a reference is not supported.
#[derive(Debug, Drop)]
pub enum Why {
    /// The instruction, by its opcode; behind `wide` by the opcode that it widens.
    Opcode(u8),
    /// A constant that ldc, ldc_w or ldc2_w pushes: a float, a double, a method handle or a method type.
    Constant,
    /// A float or a double, or an array of them, in a descriptor or in a newarray.
    Float,
    /// A method that is called is native.
    Native,
    /// A reference to a built-in class for which there is no row.
    Library,
    /// Two default methods are maximally specific.
    Ambiguous,
    /// No method with code is selected.
    NoSelection,
    /// A static member in the place of another, or another in the place of a static one.
    StaticMismatch,
    /// A string literal of more than 1,000 units.
    Literal,
    /// A `<clinit>` of an interface.
    InterfaceInitialiser,
}

/// What the loading rules and the list of what is not supported read from a method. A `u16` is the pc of the
/// instruction, and a `bool` says that the reference is to a method of an interface (JVM Specification SE 8, 4.4.2).
#[derive(Debug, Drop)]
pub enum Fact {
    /// An object of this class is made by `new`.
    New(u16, Name),
    /// The constant of an instruction, or a row of the exception table, names this class; of an array type it is the
    /// class of its elements in the end.
    Names(Name),
    /// invokespecial calls this method.
    Special(u16, MethodId, bool),
    /// invokestatic calls this method.
    Static(u16, MethodId, bool),
    /// invokevirtual or invokeinterface calls this method.
    Virtual(u16, MethodId, bool),
    /// A `new` may initialise this class. Which one a call or a field initialises, its resolution tells.
    Init(Name),
    /// An instruction may raise an exception of this class, which is made then.
    Raises(Name),
    /// A constant that is pushed is an object of this class.
    Literal(Name),
    /// An instruction uses this field.
    Reads(u16, FieldId, FieldUse),
    /// The instruction at the pc is not supported; what holds of the whole method stands at 0.
    Refuse(u16, Why),
}
