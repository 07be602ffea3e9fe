// Moves on the operand stack.
ghost use Rattle.std.specs.Prelude.{◌≡◌, Some, IfSome};
ghost use Rattle.cf_code.specs.Stacks.{stack_opcode};

use crate::table::opcode_table;

/// A move on the operand stack (JVM Specification SE 8, 2.11.5), which counts words: a long or a double has two.
#[derive(Clone, Copy, Debug, PartialEq, Eq)]
pub enum StackMove {
    Pop,
    Pop2,
    Dup,
    DupX1,
    DupX2,
    Dup2,
    Dup2X1,
    Dup2X2,
    Swap,
}

/// The opcodes of moves on the operand stack.
macro_rules! stack_table {
    ($side:ident $known:expr) => {
        opcode_table!($side $known;
            87 => (StackMove::Pop),
            88 => (StackMove::Pop2),
            89 => (StackMove::Dup),
            90 => (StackMove::DupX1),
            91 => (StackMove::DupX2),
            92 => (StackMove::Dup2),
            93 => (StackMove::Dup2X1),
            94 => (StackMove::Dup2X2),
            95 => (StackMove::Swap),
        )
    };
}

/// The move of an opcode.
pub(crate) fn read_stack_move(opcode: u8) -> Option<StackMove>
    ensures found { IfSome result (λ r. opcode ≡ stack_opcode r) }
    ensures only { (r : StackMove) → opcode ≡ stack_opcode r → result ≡ Some r }
{
    stack_table!(read opcode)
}

/// Its opcode.
pub(crate) fn stack_byte(of: StackMove) -> u8
    ensures { result ≡ stack_opcode of }
{
    stack_table!(write of)
}
