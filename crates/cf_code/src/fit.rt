// Which instructions have bytes where they stand.
ghost use Rattle.std.specs.Prelude.{◌≡◌, ◌↔◌, IsTrue, length};
ghost use Rattle.cf_code.specs.Code.{AllFit, FitsPlaced};
ghost use Rattle.cf_code.specs.Instr.{Fits};
ghost use Rattle.cf_code.specs.Switches.{padding_at, FitsCase, FitsTableBody, FitsLookupBody, FitsTable, FitsLookup};
ghost use Rattle.cf_code.specs.Arrays.{FitsArray};
ghost use Rattle.cf_code.specs.Fields.{FitsField};
ghost use Rattle.cf_code.specs.Calls.{FitsCall};
ghost use Rattle.cf_code.specs.Objects.{FitsObject};
ghost use Rattle.std.specs.List.{AllByRecursion};

use crate::array::Array;
use crate::call::Call;
use crate::code::Placed;
use crate::constant::fits_constant;
use crate::field::Field;
use crate::instr::Instr;
use crate::jump::fits_jump;
use crate::local::fits_local;
use crate::object::Object;
use crate::switch::{Case, LookupSwitch, TableSwitch, key_count, rise};
use jv_base::List;

/// Whether an instruction has bytes at a pc, as `put_instr` asks: each number fits its form, a jump reaches its target, and a
/// switch has the padding and keys that one can have.
pub fn fits(pc: u16, instr: &Instr) -> bool
    ensures { IsTrue result ↔ Fits pc instr.now }
{
    match instr {
        Instr::Constant(constant) => fits_constant(*constant),
        Instr::Local(local) => fits_local(*local),
        Instr::Jump(jump) => fits_jump(pc, *jump),
        Instr::Table(switch) => fits_table(pc, switch),
        Instr::Lookup(switch) => fits_lookup(pc, switch),
        Instr::Array(array) => fits_array(*array),
        Instr::Field(field) => fits_field(*field),
        Instr::Call(call) => fits_call(*call),
        Instr::Object(object) => fits_object(*object),
        Instr::Nop | Instr::Stack(_) | Instr::Number(_) | Instr::Return(_) => true,
    }
}

/// Whether each instruction has bytes at its pc, as `encode` asks.
pub fn all_fit(code: &List<Placed>) -> bool
    ensures { IsTrue result ↔ AllFit code.now }
{
    for placed in code.as_slice() {
        if !fits(placed.pc, &placed.instr) {
            return false;
        }
    }
    true
}

// The numbers of these have the ranges of their types, so they always fit.

fn fits_array(array: Array) -> bool
    ensures { IsTrue result ↔ FitsArray array }
{
    true
}

fn fits_field(field: Field) -> bool
    ensures { IsTrue result ↔ FitsField field }
{
    true
}

fn fits_call(call: Call) -> bool
    ensures { IsTrue result ↔ FitsCall call }
{
    true
}

fn fits_object(object: Object) -> bool
    ensures { IsTrue result ↔ FitsObject object }
{
    true
}

fn fits_case(case: Case) -> bool
    ensures { IsTrue result ↔ FitsCase case }
{
    true
}

/// Whether there are as many bytes of padding as behind an opcode at a pc.
fn is_padding(pc: u16, padding: &[u8]) -> bool
    ensures { IsTrue result ↔ (length padding.now ≡ padding_at pc) }
{
    padding.len() == 3 - usize::from(pc) % 4
}

fn fits_table_body(default: u16, low: i32, targets: &[u16]) -> bool
    ensures { IsTrue result ↔ FitsTableBody default low targets.now }
{
    !targets.is_empty() && targets.len() <= key_count(low, i32::MAX)
}

fn fits_table(pc: u16, switch: &TableSwitch) -> bool
    ensures { IsTrue result ↔ FitsTable pc switch.now }
{
    is_padding(pc, switch.padding.as_slice())
        && fits_table_body(switch.default, switch.low, switch.targets.as_slice())
}

/// Whether each case fits.
fn are_cases(cases: &[Case]) -> bool
    ensures { IsTrue result ↔ AllByRecursion FitsCase cases.now }
{
    for case in cases {
        if !fits_case(*case) {
            return false;
        }
    }
    true
}

fn fits_lookup_body(default: u16, cases: &[Case]) -> bool
    ensures { IsTrue result ↔ FitsLookupBody default cases.now }
{
    cases.len() <= u32::MAX as usize && are_cases(cases) && rise(cases)
}

fn fits_lookup(pc: u16, switch: &LookupSwitch) -> bool
    ensures { IsTrue result ↔ FitsLookup pc switch.now }
{
    is_padding(pc, switch.padding.as_slice())
        && fits_lookup_body(switch.default, switch.cases.as_slice())
}
