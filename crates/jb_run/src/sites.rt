// The sites of a thin method, in the order of the report.
ghost use Rattle.std.specs.Prelude.{◌≡◌, [], ◌∷◌, ◌++◌, ◌≤◌, length, IfOk, OnOk};
ghost use Rattle.cf_thin.specs.ThinCode.{HasInstrs};
ghost use Rattle.jb_run.specs.Sites.{IsSites, goal_at, goals_of};

use cf_thin::{ThinInstr, thin_instr_at};
use jv_base::{Goal, Kind, List, Mem, MethodId, Site};
use std::alloc::Global;

fn push_goal(
    alloc: Global,
    goals: &mut List<Goal>,
    method: &MethodId,
    pc: u16,
    kind: Kind,
) -> Mem<()>
    ensures { OnOk result (goals.new ≡ goals.old ++ goal_at method.now pc kind ∷ []) }
{
    let method = method.copy(alloc)?;
    let site = Site { method, pc };
    goals.add(Goal { site, kind })
}

// Adds the goals of the instruction at a pc.
fn push_goals(
    alloc: Global,
    goals: &mut List<Goal>,
    method: &MethodId,
    pc: u16,
    instr: ThinInstr,
) -> Mem<()>
    ensures { OnOk result (goals.new ≡ goals.old ++ goals_of method.now pc instr) }
{
    if instr == ThinInstr::Athrow {
        push_goal(alloc, goals, method, pc, Kind::Null)?;
        push_goal(alloc, goals, method, pc, Kind::Assert)?;
    }
    Ok(())
}

/// The goals of code that is instructions from its first byte to its last: for each `athrow` in the order of the pcs, the
/// kinds null and assert.
pub fn sites(alloc: Global, method: &MethodId, code: &[Option<(ThinInstr, u16)>]) -> Mem<List<Goal>>
    requires short { length code.now ≤ 65535 }
    requires instrs { HasInstrs code.now }
    ensures { IfOk result (IsSites method.now code.now) }
{
    let mut goals = List::new(alloc);
    let mut pc = 0;
    'instrs: while usize::from(pc) < code.len() {
        let Some((instr, next)) = thin_instr_at(code, pc) else {
            unreachable!()
        };
        push_goals(alloc, &mut goals, method, pc, instr)?;
        pc = next;
    }
    Ok(goals)
}
