// The tags of the entries (JVM Specification SE 8, 4.4, table 4.4-A).
ghost use Rattle.std.specs.Prelude.{◌≡◌, ◌≢◌, length, IfSome, IfNone};
ghost use Rattle.cf_pool.specs.Tags.{tag_byte, indices, content_size};

use byteorder::{BigEndian, ByteOrder};

/// The kinds of entries that have a tag. `Str` is the Specification's String, and `Field`, `Method` and
/// `InterfaceMethod` are its Fieldref, Methodref and InterfaceMethodref.
#[derive(Clone, Copy, Debug, PartialEq, Eq)]
pub enum Tag {
    Utf8,
    Integer,
    Float,
    Long,
    Double,
    Class,
    Str,
    Field,
    Method,
    InterfaceMethod,
    NameAndType,
    MethodHandle,
    MethodType,
    InvokeDynamic,
}

impl Tag {
    /// The tag that a byte is.
    pub(crate) fn of(byte: u8) -> Option<Tag>
        ensures found { IfSome result (λ t. tag_byte t ≡ byte) }
        ensures none { IfNone result ((t : Tag) → tag_byte t ≢ byte) }
    {
        match byte {
            1 => Some(Tag::Utf8),
            3 => Some(Tag::Integer),
            4 => Some(Tag::Float),
            5 => Some(Tag::Long),
            6 => Some(Tag::Double),
            7 => Some(Tag::Class),
            8 => Some(Tag::Str),
            9 => Some(Tag::Field),
            10 => Some(Tag::Method),
            11 => Some(Tag::InterfaceMethod),
            12 => Some(Tag::NameAndType),
            15 => Some(Tag::MethodHandle),
            16 => Some(Tag::MethodType),
            18 => Some(Tag::InvokeDynamic),
            _ => None,
        }
    }

    /// How many indices an entry takes.
    pub(crate) fn indices(self) -> usize
        ensures { result ≡ indices self }
    {
        match self {
            Tag::Long | Tag::Double => 2,
            _ => 1,
        }
    }

    /// How many of these bytes behind the tag are the entry's. There may be fewer.
    pub(crate) fn content_size(self, bytes: &[u8]) -> usize
        ensures { result ≡ content_size self bytes.now }
    {
        match self {
            Tag::Utf8 => text_size(bytes),
            Tag::Class | Tag::Str | Tag::MethodType => 2,
            Tag::MethodHandle => 3,
            Tag::Integer | Tag::Float | Tag::Field | Tag::Method => 4,
            Tag::InterfaceMethod | Tag::NameAndType | Tag::InvokeDynamic => 4,
            Tag::Long | Tag::Double => 8,
        }
    }
}

/// The two bytes of a text's length, and as many as they say where they are there.
fn text_size(bytes: &[u8]) -> usize
    ensures { result ≡ content_size Tag.Utf8 bytes.now }
{
    if bytes.len() < 2 {
        return 2;
    }
    2 + BigEndian::read_u16(bytes) as usize
}
