// The code of the methods of a class file (JVM Specification SE 8, 4.6 and 4.7.3).
ghost use Rattle.std.specs.Prelude.{◌^◌, ◌<◌, length, map, IfOk, IfErr};
ghost use Rattle.std.specs.List.{flat_map, AllByRecursion};
ghost use Rattle.cf_structure.specs.Spelled.{file_text, FitsFile};
ghost use Rattle.cf_structure.specs.ClassFile.{Names};
ghost use Rattle.cf_structure.specs.Views.{file_of};
ghost use Rattle.cf_judge.specs.Texts.{AreTexts};
ghost use Rattle.cf_bodies.specs.Places.{codes};
ghost use Rattle.cf_bodies.specs.Checks.{code_checks};
ghost use Rattle.cf_bodies.specs.Bodies.{AreBodies};
ghost use Rattle.cf_bodies.specs.Judged.{HasGoodBodies, IsBodyFault};
ghost use Rattle.cf_bodies.specs.Calls.Tells.{Tells};
ghost use Rattle.cf_bodies.specs.Calls.Views.{placed_of, FitsPlaced};

use crate::code::judge_code;
use crate::place::{CodeAt, codes_of};
use cf_code::{Placed, code_decided, no_code, one_beginning, one_fault, one_size};
use cf_judge::Text;
use cf_pool::PoolEntry;
use cf_structure::{ClassFault, Structure};
use jv_base::List;
use std::alloc::Global;

/// The instructions of each Code.
fn judge_codes(
    alloc: Global,
    pool: &[PoolEntry],
    texts: &[Option<Text>],
    codes: &[CodeAt<'_>],
) -> Result<List<List<Placed>>, ClassFault>
    requires texts { AreTexts pool.now texts.now }
    requires fit { AllByRecursion FitsPlaced (map placed_of codes.now) }
    ensures { Tells pool.now (flat_map code_checks (map placed_of codes.now)) (AreBodies (map placed_of codes.now)) result }
{
    let mut bodies = List::new(alloc);
    for code in codes {
        bodies.add(judge_code(alloc, pool, texts, code)?)?;
    }
    Ok(bodies)
}

/// Whether the code of each method is as the format has it; then it gives the instructions of each Code, in file order. The fault
/// is the one of the least place: no instruction where one should begin, a target or a row that fits none, an instruction without
/// the entry of the pool or the element type that it needs. The texts are those of the pool.
pub fn judge_bodies(
    alloc: Global,
    structure: &Structure<'_>,
    texts: &[Option<Text>],
) -> Result<List<List<Placed>>, ClassFault>
    requires texts { AreTexts structure.now.pool.entries texts.now }
    requires parts { FitsFile (file_of structure.now) }
    requires fits { length (file_text (file_of structure.now)) < 2 ^ 64 }
    ensures found { IfOk result (λ _. HasGoodBodies (file_of structure.now)) }
    ensures bodies { IfOk result (AreBodies (codes (file_of structure.now))) }
    ensures fault { IfErr result (Names (IsBodyFault (file_of structure.now))) }
    ensures outside { IfErr result (Names (λ _. HasGoodBodies (file_of structure.now) → ⊥)) }
{
    code_decided();
    one_beginning();
    no_code();
    one_fault();
    one_size();
    let codes = codes_of(alloc, structure)?;
    judge_codes(
        alloc,
        structure.pool.entries.as_slice(),
        texts,
        codes.as_slice(),
    )
}
