// Where an instruction can go.
ghost use Rattle.std.specs.Prelude.{◌≡◌, ◌++◌, IfOk, OnOk, map};
ghost use Rattle.cf_code.specs.Targets.{targets, jump_goes_on, goes_on};

use crate::instr::Instr;
use crate::jump::{Jump, jump_target};
use crate::local::Local;
use crate::object::Object;
use crate::switch::Case;
use jv_base::{List, Mem};
use std::alloc::Global;

/// The targets that an instruction names: that of a jump, or those of a switch, its default first.
pub fn targets(alloc: Global, instr: &Instr) -> Mem<List<u16>>
    ensures { IfOk result (λ found. found ≡ targets instr.now) }
{
    let mut found = List::new(alloc);
    match instr {
        Instr::Jump(jump) => found.add(jump_target(*jump))?,
        Instr::Table(switch) => {
            found.add(switch.default)?;
            found.extend(switch.targets.as_slice())?;
        }
        Instr::Lookup(switch) => {
            found.add(switch.default)?;
            put_case_targets(&mut found, switch.cases.as_slice())?;
        }
        _ => {}
    }
    Ok(found)
}

/// Puts the target of each case at the end.
fn put_case_targets(out: &mut List<u16>, cases: &[Case]) -> Mem<()>
    ensures { OnOk result (out.new ≡ out.old ++ map (λ c. c.target) cases.now) }
{
    for case in cases {
        out.add(case.target)?;
    }
    Ok(())
}

/// Whether an instruction can go on to the next one: not a goto, a jsr or a ret, a switch, a return or a throw.
pub fn goes_on(instr: &Instr) -> bool
    ensures { result ≡ goes_on instr.now }
{
    match instr {
        Instr::Jump(jump) => jump_goes_on(*jump),
        Instr::Table(_) | Instr::Lookup(_) | Instr::Return(_) | Instr::Object(Object::Throw) =>
            false,
        Instr::Local(Local::Ret(_) | Local::RetWide(_)) => false,
        _ => true,
    }
}

/// Whether a jump can also go on to the next instruction.
fn jump_goes_on(jump: Jump) -> bool
    ensures { result ≡ jump_goes_on jump }
{
    match jump {
        Jump::Goto(_) | Jump::GotoW(_) | Jump::Jsr(_) | Jump::JsrW(_) => false,
        _ => true,
    }
}
