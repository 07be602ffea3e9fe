// Tables of opcodes, each written once and looked up from either side.

/// Looks up a table of opcodes and what they stand for: `read` gives what an opcode stands for, or None where the table
/// has no such opcode, and `write` gives the opcode of a value. A value stands in parentheses.
macro_rules! opcode_table {
    (read $opcode:expr; $($number:literal => $value:tt,)*) => {
        match $opcode {
            $($number => Some($value),)*
            _ => None,
        }
    };
    (write $known:expr; $($number:literal => $value:tt,)*) => {
        match $known {
            $($value => $number,)*
        }
    };
}

pub(crate) use opcode_table;
