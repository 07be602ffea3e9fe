// Entries of the constant pool (JVM Specification SE 8, 4.4).
use jv_base::List;

/// An entry of the constant pool, or what stands at an index that has none. Indices into the pool are kept as they
/// stand in the file, and not judged.
#[derive(Debug, Drop, PartialEq, Eq)]
pub enum PoolEntry {
    /// A text, by its UTF-16 units (4.4.7).
    Utf8(List<u16>),
    /// An int (4.4.4).
    Integer(i32),
    /// The bits of a float (4.4.4).
    Float(u32),
    /// A long (4.4.5). It takes two indices.
    Long(i64),
    /// The bits of a double (4.4.5). It takes two indices.
    Double(u64),
    /// A class, by the index of its name (4.4.1).
    Class(u16),
    /// A string, by the index of its text (4.4.3).
    Str(u16),
    /// A field, by the index of its class and that of its name and type (4.4.2).
    Field(u16, u16),
    /// A method of a class, by the same indices (4.4.2).
    Method(u16, u16),
    /// A method of an interface, by the same indices (4.4.2).
    InterfaceMethod(u16, u16),
    /// A name and a descriptor, by their indices (4.4.6).
    NameAndType(u16, u16),
    /// A method handle, by its kind and the index of what it refers to (4.4.8).
    MethodHandle(u8, u16),
    /// A method type, by the index of its descriptor (4.4.9).
    MethodType(u16),
    /// A bootstrap method, by its index in the attribute, and the index of a name and type (4.4.10).
    InvokeDynamic(u16, u16),
    /// No entry: at index 0, and at the second index of a Long or a Double (4.1, 4.4.5).
    Unusable,
}

/// The constant pool, with an element for each index, 0 too. It is empty where the count is 0.
#[derive(Debug, Drop, PartialEq, Eq)]
pub struct Pool {
    pub entries: List<PoolEntry>,
}
