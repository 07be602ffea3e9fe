// The names that indices of the pool stand for (JVM Specification SE 8, 4.4.1 and 4.4.7).
ghost use Rattle.std.specs.Prelude.{IfOk};
ghost use Rattle.cf_class.specs.Content.{IsTextNamed, IsClassNamed};
ghost use Rattle.cf_class.specs.Calls.Contents.{AreNames, HasContent};

use cf_judge::Text;
use cf_pool::PoolEntry;
use jv_base::{Mem, Name};
use std::alloc::Global;

/// An index of the pool, with the name that it stands for.
#[derive(Debug, Drop)]
pub struct Named {
    pub index: u16,
    pub name: Name,
}

/// A pool, with its texts.
#[derive(Clone, Copy, Debug)]
pub(crate) struct PoolTexts<'a> {
    pub pool: &'a [PoolEntry],
    pub texts: &'a [Option<Text>],
}

/// The text at an index.
pub(crate) fn text_named(alloc: Global, names: &PoolTexts<'_>, index: u16) -> Mem<Named>
    requires names { AreNames names.now }
    requires content { HasContent (IsTextNamed names.now.pool.now) index }
    ensures { IfOk result (λ n. IsTextNamed names.now.pool.now index n) }
{
    let Some(Some(text)) = names.texts.get(usize::from(index)) else {
        unreachable!()
    };
    let Some(name) = &text.name else {
        unreachable!()
    };
    Ok(Named {
        index,
        name: name.copy(alloc)?,
    })
}

/// The name of the class at an index.
pub(crate) fn class_named(alloc: Global, names: &PoolTexts<'_>, index: u16) -> Mem<Named>
    requires names { AreNames names.now }
    requires content { HasContent (IsClassNamed names.now.pool.now) index }
    ensures { IfOk result (λ n. IsClassNamed names.now.pool.now index n) }
{
    let Some(PoolEntry::Class(name_index)) = names.pool.get(usize::from(index)) else {
        unreachable!()
    };
    let text = text_named(alloc, names, *name_index)?;
    Ok(Named {
        index,
        name: text.name,
    })
}
