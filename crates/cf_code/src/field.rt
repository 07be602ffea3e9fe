// Instructions on fields.
ghost use Rattle.std.specs.Prelude.{◌≡◌, ◌++◌, Some, IfSome, OnOk};
ghost use Rattle.cf_code.specs.Fields.{field_opcode, field_spelling, FitsField};

use crate::table::opcode_table;
use jv_base::Mem;

/// How a field is used: a static field is read or written, or a field of an object.
#[derive(Clone, Copy, Debug, PartialEq, Eq)]
pub enum FieldUse {
    GetStatic,
    PutStatic,
    Get,
    Put,
}

/// An instruction on a field, with the index of the field in the constant pool (JVM Specification SE 8, 6.5).
#[derive(Clone, Copy, Debug, PartialEq, Eq)]
pub struct Field {
    pub access: FieldUse,
    pub index: u16,
}

/// The instruction that these bytes spell.
pub(crate) fn read_field(bytes: &[u8]) -> Option<Field>
    ensures found { IfSome result (λ f. (bytes.now ≡ field_spelling f) × FitsField f) }
    ensures only { (f : Field) → FitsField f → bytes.now ≡ field_spelling f → result ≡ Some f }
{
    let [opcode, high, low] = bytes else {
        return None;
    };
    Some(Field {
        access: read_use(*opcode)?,
        index: u16::from_be_bytes([*high, *low]),
    })
}

/// The opcodes of uses of fields.
macro_rules! use_table {
    ($side:ident $known:expr) => {
        opcode_table!($side $known;
            178 => (FieldUse::GetStatic),
            179 => (FieldUse::PutStatic),
            180 => (FieldUse::Get),
            181 => (FieldUse::Put),
        )
    };
}

/// The use of an opcode.
fn read_use(opcode: u8) -> Option<FieldUse>
    ensures found { IfSome result (λ u. opcode ≡ field_opcode u) }
    ensures only { (u : FieldUse) → opcode ≡ field_opcode u → result ≡ Some u }
{
    use_table!(read opcode)
}

/// Puts the bytes of the instruction at the end.
pub(crate) fn put_field(out: &mut Vec<u8>, field: Field) -> Mem<()>
    ensures { OnOk result (out.new.items ≡ out.old.items ++ field_spelling field) }
{
    let [high, low] = field.index.to_be_bytes();
    out.extend_from_slice(&[use_byte(field.access), high, low])
}

/// The opcode of a use.
fn use_byte(access: FieldUse) -> u8
    ensures { result ≡ field_opcode access }
{
    use_table!(write access)
}
