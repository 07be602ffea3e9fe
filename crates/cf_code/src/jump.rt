// Jumps, whose targets are pcs.
ghost use Rattle.std.specs.Prelude.{◌≡◌, ◌++◌, ◌+◌, ◌∷◌, [], ◌<◌, ◌^◌, ◌↔◌, IsTrue, ℕ, Some, IfSome, OnOk};
ghost use Rattle.cf_code.specs.Bytes.{two, four, offset, signed_two, signed_four, IsTwo};
ghost use Rattle.cf_code.specs.Jumps.{near_spelling, far_spelling, jump_spelling, IsNear, FitsJump};
ghost use Rattle.cf_code.specs.Steps.Opcodes.{jump_opcode};
ghost use Rattle.cf_code.specs.Targets.{jump_target};

use crate::table::opcode_table;
use jv_base::Mem;

/// How an int compares with another, or with 0.
#[derive(Clone, Copy, Debug, PartialEq, Eq)]
pub enum Condition {
    Equal,
    NotEqual,
    Less,
    AtLeast,
    Greater,
    AtMost,
}

/// Whether two references are the same, or whether one is null.
#[derive(Clone, Copy, Debug, PartialEq, Eq)]
pub enum Equality {
    Same,
    Other,
}

/// A jump, with the pc that it goes to (JVM Specification SE 8, 6.5). `IfZero` compares an int with 0. In the code the
/// target is an offset from the jump's opcode, of four bytes in `GotoW` and `JsrW`, and else of two.
#[derive(Clone, Copy, Debug, PartialEq, Eq)]
pub enum Jump {
    IfZero(Condition, u16),
    IfInts(Condition, u16),
    IfReferences(Equality, u16),
    IfNull(Equality, u16),
    Goto(u16),
    GotoW(u16),
    Jsr(u16),
    JsrW(u16),
}

/// Whether an offset of two bytes reaches a target from a pc.
fn is_near(pc: u16, target: u16) -> bool
    ensures { IsTrue result ↔ IsNear pc target }
{
    i16::try_from(i32::from(target) - i32::from(pc)).is_ok()
}

/// Whether the offset of the jump at a pc reaches its target.
pub(crate) fn fits_jump(pc: u16, jump: Jump) -> bool
    ensures { IsTrue result ↔ FitsJump pc jump }
{
    match jump {
        Jump::GotoW(_) | Jump::JsrW(_) => true,
        _ => is_near(pc, jump_target(jump)),
    }
}

/// The jump that these bytes spell at a pc. None also where the target is no pc of two bytes.
pub(crate) fn read_jump(pc: u16, bytes: &[u8]) -> Option<Jump>
    ensures found { IfSome result (λ j. (bytes.now ≡ jump_spelling pc j) × FitsJump pc j) }
    ensures only { (j : Jump) → FitsJump pc j → bytes.now ≡ jump_spelling pc j → result ≡ Some j }
{
    match bytes {
        [opcode @ 153..=199, high, low] => numbered_jump(*opcode, near_target(pc, *high, *low)?),
        [opcode @ 200..=201, a, b, c, d] => numbered_jump(*opcode, far_target(pc, *a, *b, *c, *d)?),
        _ => None,
    }
}

/// The opcodes of jumps.
macro_rules! jump_table {
    ($side:ident $known:expr, $target:tt) => {
        opcode_table!($side $known;
            153 => (Jump::IfZero(Condition::Equal, $target)),
            154 => (Jump::IfZero(Condition::NotEqual, $target)),
            155 => (Jump::IfZero(Condition::Less, $target)),
            156 => (Jump::IfZero(Condition::AtLeast, $target)),
            157 => (Jump::IfZero(Condition::Greater, $target)),
            158 => (Jump::IfZero(Condition::AtMost, $target)),
            159 => (Jump::IfInts(Condition::Equal, $target)),
            160 => (Jump::IfInts(Condition::NotEqual, $target)),
            161 => (Jump::IfInts(Condition::Less, $target)),
            162 => (Jump::IfInts(Condition::AtLeast, $target)),
            163 => (Jump::IfInts(Condition::Greater, $target)),
            164 => (Jump::IfInts(Condition::AtMost, $target)),
            165 => (Jump::IfReferences(Equality::Same, $target)),
            166 => (Jump::IfReferences(Equality::Other, $target)),
            167 => (Jump::Goto($target)),
            168 => (Jump::Jsr($target)),
            198 => (Jump::IfNull(Equality::Same, $target)),
            199 => (Jump::IfNull(Equality::Other, $target)),
            200 => (Jump::GotoW($target)),
            201 => (Jump::JsrW($target)),
        )
    };
}

/// The jump of an opcode.
fn numbered_jump(opcode: u8, target: u16) -> Option<Jump>
    ensures found { IfSome result (λ j. (opcode ≡ jump_opcode j) × (target ≡ jump_target j)) }
    ensures only { (j : Jump) → opcode ≡ jump_opcode j → target ≡ jump_target j → result ≡ Some j }
{
    jump_table!(read opcode, target)
}

/// The opcode of a jump.
fn jump_byte(jump: Jump) -> u8
    ensures { result ≡ jump_opcode jump }
{
    jump_table!(write jump, _)
}

/// The target of a jump.
pub(crate) fn jump_target(jump: Jump) -> u16
    ensures { result ≡ jump_target jump }
{
    match jump {
        Jump::IfZero(_, target) | Jump::IfInts(_, target) => target,
        Jump::IfReferences(_, target) | Jump::IfNull(_, target) => target,
        Jump::Goto(target) | Jump::GotoW(target) | Jump::Jsr(target) | Jump::JsrW(target) => target,
    }
}

/// Where an offset of two bytes leads from a pc.
fn near_target(pc: u16, high: u8, low: u8) -> Option<u16>
    ensures found { IfSome result (λ t. (high ∷ low ∷ [] ≡ signed_two (offset pc t)) × IsNear pc t) }
    ensures only { (t : ℕ) → IsNear pc t → high ∷ low ∷ [] ≡ signed_two (offset pc t) → result ≡ Some t }
{
    let target = i32::from(pc) + i32::from(i16::from_be_bytes([high, low]));
    u16::try_from(target).ok()
}

/// Where an offset of four bytes leads from a pc.
pub(crate) fn far_target(pc: u16, a: u8, b: u8, c: u8, d: u8) -> Option<u16>
    ensures found { IfSome result (λ t. (a ∷ b ∷ c ∷ d ∷ [] ≡ signed_four (offset pc t)) × IsTwo t) }
    ensures only { (t : ℕ) → IsTwo t → a ∷ b ∷ c ∷ d ∷ [] ≡ signed_four (offset pc t) → result ≡ Some t }
{
    let target = i64::from(pc) + i64::from(i32::from_be_bytes([a, b, c, d]));
    u16::try_from(target).ok()
}

/// Puts the bytes of the jump at a pc at the end.
pub(crate) fn put_jump(out: &mut Vec<u8>, pc: u16, jump: Jump) -> Mem<()>
    requires { FitsJump pc jump }
    ensures { OnOk result (out.new.items ≡ out.old.items ++ jump_spelling pc jump) }
{
    let opcode = jump_byte(jump);
    match jump {
        Jump::GotoW(target) | Jump::JsrW(target) => put_far(out, opcode, pc, target),
        _ => put_near(out, opcode, pc, jump_target(jump)),
    }
}

/// Puts a jump with an offset of two bytes at the end.
fn put_near(out: &mut Vec<u8>, opcode: u8, pc: u16, target: u16) -> Mem<()>
    requires { IsNear pc target }
    ensures { OnOk result (out.new.items ≡ out.old.items ++ near_spelling opcode pc target) }
{
    let offset = (i32::from(target) - i32::from(pc)) as i16;
    let [high, low] = offset.to_be_bytes();
    out.extend_from_slice(&[opcode, high, low])
}

/// Puts a jump with an offset of four bytes at the end.
fn put_far(out: &mut Vec<u8>, opcode: u8, pc: u16, target: u16) -> Mem<()>
    ensures { OnOk result (out.new.items ≡ out.old.items ++ far_spelling opcode pc target) }
{
    let offset = i32::from(target) - i32::from(pc);
    let [a, b, c, d] = offset.to_be_bytes();
    out.extend_from_slice(&[opcode, a, b, c, d])
}
