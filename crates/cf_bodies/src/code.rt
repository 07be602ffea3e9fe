// The code of a method (JVM Specification SE 8, 4.7.3 and 4.9.1).
ghost use Rattle.std.specs.Prelude.{◌+◌, ◌^◌, ◌<◌, ◌∷◌, [], length};
ghost use Rattle.cf_judge.specs.Texts.{AreTexts};
ghost use Rattle.cf_code.specs.Decoding.{IsCode};
ghost use Rattle.cf_bodies.specs.Checks.{check_at, is_code, code_checks};
ghost use Rattle.cf_bodies.specs.Calls.Tells.{Tells};
ghost use Rattle.cf_bodies.specs.Calls.Unmet.{TellsUnmet};
ghost use Rattle.cf_bodies.specs.Calls.Views.{placed_of, FitsPlaced};

use crate::fault::fault_at;
use crate::need::{is_met, need_of};
use crate::place::CodeAt;
use crate::row::judge_rows;
use cf_code::{End, Placed, Walked, no_code, one_beginning, one_fault, one_size, walk};
use cf_judge::Text;
use cf_pool::{PoolEntry, What};
use cf_structure::ClassFault;
use jv_base::List;
use std::alloc::Global;

/// What stands before the bytes of a Code's code: max_stack, max_locals and code_length.
const BEFORE_CODE: u64 = 8;

/// The pc of the first instruction without what it needs.
fn first_unmet(pool: &[PoolEntry], texts: &[Option<Text>], code: &[Placed]) -> Option<u16>
    requires { AreTexts pool.now texts.now }
    ensures { TellsUnmet pool.now code.now result }
{
    for placed in code {
        if !is_met(pool, texts, need_of(&placed.instr)) {
            return Some(placed.pc);
        }
    }
    None
}

/// The instructions that the bytes at that place are.
fn judge_instrs(
    alloc: Global,
    pool: &[PoolEntry],
    texts: &[Option<Text>],
    place: u64,
    bytes: &[u8],
) -> Result<List<Placed>, ClassFault>
    requires texts { AreTexts pool.now texts.now }
    requires short { length bytes.now < 2 ^ 16 }
    requires fits { place + length bytes.now < 2 ^ 64 }
    ensures { Tells pool.now (check_at place (is_code bytes.now) ∷ []) (IsCode bytes.now) result }
{
    no_code();
    one_beginning();
    one_fault();
    one_size();
    let Walked { code, end } = walk(alloc, bytes)?;
    if let Some(pc) = first_unmet(pool, texts, code.as_slice()) {
        return Err(fault_at(place, pc, What::BadIndex));
    }
    match end {
        End::Whole => Ok(code),
        End::BadOpcode(pc) => Err(fault_at(place, pc, What::BadOpcode)),
        End::BadTarget(pc) => Err(fault_at(place, pc, What::BadTarget)),
    }
}

/// The instructions of a Code.
pub(crate) fn judge_code(
    alloc: Global,
    pool: &[PoolEntry],
    texts: &[Option<Text>],
    code: &CodeAt<'_>,
) -> Result<List<Placed>, ClassFault>
    requires texts { AreTexts pool.now texts.now }
    requires fits { FitsPlaced (placed_of code.now) }
    ensures { Tells pool.now (code_checks (placed_of code.now)) (IsCode code.now.code.now.code.now) result }
{
    let bytes = code.code.code;
    let start = code.place + BEFORE_CODE;
    let instrs = judge_instrs(alloc, pool, texts, start, bytes)?;
    let rows = start + bytes.len() as u64 + 2;
    judge_rows(
        alloc,
        instrs.as_slice(),
        bytes,
        rows,
        code.code.rows.as_slice(),
    )?;
    Ok(instrs)
}
