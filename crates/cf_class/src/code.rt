// The content of a Code attribute (JVM Specification SE 8, 4.7.3).
ghost use Rattle.std.specs.Prelude.{◌≡◌, ◌∷◌, [], drop, map, IfOk, OnOk};
ghost use Rattle.std.specs.List.{AllZip};
ghost use Rattle.cf_structure.specs.Views.{skipped_of, code_of};
ghost use Rattle.cf_class.specs.Content.{row_of, IsSkippedContent, IsCodeContent};
ghost use Rattle.cf_class.specs.Calls.Contents.{AreNames, HasContent, HaveContent, HaveBodies};

use crate::bodies::Bodies;
use crate::named::{Named, PoolTexts, text_named};
use cf_code::{Placed, Row};
use cf_structure::{CodePart, SkippedPart};
use jv_base::{List, Mem};
use std::alloc::Global;

/// An attribute whose content was passed over (4.7.1).
#[derive(Debug, Drop)]
pub struct Skipped {
    pub name: Named,
    pub content: List<u8>,
}

/// The content of a Code: what a frame takes, the instructions with their pcs, the exception table, and the attributes, none of
/// which counts here.
#[derive(Debug, Drop)]
pub struct Code {
    pub max_stack: u16,
    pub max_locals: u16,
    pub code: List<Placed>,
    pub rows: List<Row>,
    pub attributes: List<Skipped>,
}

fn row_list(alloc: Global, rows: &[cf_structure::Row]) -> Mem<List<Row>>
    ensures { IfOk result (λ made. made ≡ map row_of rows.now) }
{
    let mut made = List::with_capacity(alloc, rows.len())?;
    for row in rows {
        made.add(Row {
            start: row.start,
            end: row.end,
            handler: row.handler,
            catch_type: row.catch_type,
        })?;
    }
    Ok(made)
}

fn skipped_content(alloc: Global, names: &PoolTexts<'_>, part: &SkippedPart<'_>) -> Mem<Skipped>
    requires names { AreNames names.now }
    requires content { HasContent (IsSkippedContent names.now.pool.now) (skipped_of part.now) }
    ensures { IfOk result (λ s. IsSkippedContent names.now.pool.now (skipped_of part.now) s) }
{
    Ok(Skipped {
        name: text_named(alloc, names, part.name)?,
        content: List::copied(alloc, part.content)?,
    })
}

fn skipped_list(
    alloc: Global,
    names: &PoolTexts<'_>,
    parts: &[SkippedPart<'_>],
) -> Mem<List<Skipped>>
    requires names { AreNames names.now }
    requires content { HaveContent (IsSkippedContent names.now.pool.now) (map skipped_of parts.now) }
    ensures { IfOk result (λ made. AllZip (IsSkippedContent names.now.pool.now) (map skipped_of parts.now) made) }
{
    let mut made = List::with_capacity(alloc, parts.len())?;
    for part in parts {
        made.add(skipped_content(alloc, names, part)?)?;
    }
    Ok(made)
}

pub(crate) fn code_content(
    alloc: Global,
    names: &PoolTexts<'_>,
    bodies: &mut Bodies,
    part: &CodePart<'_>,
) -> Mem<Code>
    requires names { AreNames names.now }
    requires content { HasContent (IsCodeContent names.now.pool.now) (code_of part.now) }
    requires bodies { HaveBodies (code_of part.now ∷ []) bodies.old }
    ensures content { IfOk result (λ code. IsCodeContent names.now.pool.now (code_of part.now) code) }
    ensures left { OnOk result (bodies.new ≡ drop 1 bodies.old) }
{
    let code = bodies.take();
    let rows = row_list(alloc, part.rows.as_slice())?;
    let attributes = skipped_list(alloc, names, part.attributes.as_slice())?;
    Ok(Code {
        max_stack: part.max_stack,
        max_locals: part.max_locals,
        code,
        rows,
        attributes,
    })
}
