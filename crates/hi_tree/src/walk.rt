// Walks from a class to its supertypes.
ghost use Rattle.std.specs.Prelude.{◌≡◌, OnOk, IfOk, IfErr};
ghost use Rattle.hi_tree.specs.declared.known.Up.{Up};
ghost use Rattle.hi_tree.specs.Calls.Steps.{IsMarked, above_name, sought_of};
ghost use Rattle.hi_tree.specs.Calls.Walking.{mark_of, Comes, FailsAt, Leads, IsWalked};
ghost use Rattle.hi_tree.specs.Faults.{IsWalkFault};
ghost use Rattle.hi_tree.specs.Supers.{climb};

use crate::fault::TreeFault;
use crate::known::{Above, KnownClass, Up};
use crate::sought::Sought;
use crate::table::Classes;
use indexmap::IndexMap;
use jv_base::{List, Mem, Name};
use std::alloc::Global;

/// A class that is being climbed from: how many of those above it were climbed to.
#[derive(Clone, Copy, Debug)]
pub(crate) struct Frame<'a> {
    pub name: Above<'a>,
    pub class: KnownClass<'a>,
    pub next: usize,
}

/// A walk under way.
#[derive(Drop)]
pub(crate) struct Walk<'a> {
    /// The classes that were met: true for those that are being climbed from.
    pub marks: IndexMap<&'a str, bool>,
    pub frames: List<Frame<'a>>,
    /// The classes that are done, each behind those above it.
    pub done: List<Above<'a>>,
}

/// What comes next: a class above, the end of what is above a class, or the end of the walk.
#[derive(Clone, Copy, Debug)]
pub(crate) enum Next<'a> {
    Above(Above<'a>),
    Left,
    Over,
}

/// Where a walk ends: at the first class that is sought, or nowhere, with the classes that it met, each behind those
/// above it.
#[derive(Drop)]
pub(crate) enum Walked<'a> {
    Found(Above<'a>),
    Clean(List<Above<'a>>),
}

pub(crate) fn set_mark<'a>(
    marks: &mut IndexMap<&'a str, bool>,
    name: &'a str,
    mark: bool,
) -> Mem<()>
    ensures { OnOk result (IsMarked (mark_of marks.old) name.now mark (mark_of marks.new)) }
{
    marks.insert(name, mark)?;
    Ok(())
}

/// Comes to a class, and tells whether it is sought. A class that was not met before is climbed from next.
fn come<'a>(
    alloc: Global,
    classes: &'a Classes,
    walk: &mut Walk<'a>,
    class: Above<'a>,
    sought: Sought<'_>,
) -> Result<bool, TreeFault>
    ensures comes { IfOk result (λ here. (up : Up) → Comes (climb classes.now up (sought_of sought.entry)) up
        (above_name class.entry) walk.old walk.new here) }
    ensures fails { IfErr result (λ fault. (up : Up) → FailsAt (climb classes.now up (sought_of sought.entry))
        (above_name class.entry) walk.old fault) }
{
    let name = class.text();
    if let Some(below) = walk.marks.get(&name) {
        return if *below {
            Err(TreeFault::Circular)
        } else {
            Ok(false)
        };
    }
    let Some(known) = classes.known(class) else {
        return Err(TreeFault::NotLoaded(Name::from_text(alloc, name)?));
    };
    if sought.is_at(name, known) {
        return Ok(true);
    }
    set_mark(&mut walk.marks, name, true)?;
    walk.frames.add(Frame {
        name: class,
        class: known,
        next: 0,
    })?;
    Ok(false)
}

/// The next class above the one that is climbed from last, which is left where there is none.
fn lead<'a>(walk: &mut Walk<'a>, up: Up) -> Mem<Next<'a>>
    ensures { IfOk result (Leads up walk.old walk.new) }
{
    let Some(frame) = walk.frames.pop() else {
        return Ok(Next::Over);
    };
    let Some(above) = frame.class.above(up, frame.next) else {
        set_mark(&mut walk.marks, frame.name.text(), false)?;
        walk.done.add(frame.name)?;
        return Ok(Next::Left);
    };
    walk.frames.add(Frame {
        name: frame.name,
        class: frame.class,
        next: frame.next + 1,
    })?;
    Ok(Next::Above(above))
}

/// Where the walk from a class ends.
pub(crate) fn climb_from<'a>(
    alloc: Global,
    classes: &'a Classes,
    class: Above<'a>,
    up: Up,
    sought: Sought<'_>,
) -> Result<Walked<'a>, TreeFault>
    ensures found { IfOk result (IsWalked (climb classes.now up (sought_of sought.entry)) (above_name class.entry)) }
    ensures fault { IfErr result (IsWalkFault (climb classes.now up (sought_of sought.entry))
        (above_name class.entry)) }
{
    let mut walk = Walk {
        marks: IndexMap::new(alloc),
        frames: List::new(alloc),
        done: List::new(alloc),
    };
    if come(alloc, classes, &mut walk, class, sought)? {
        return Ok(Walked::Found(class));
    }
    loop {
        match lead(&mut walk, up)? {
            Next::Over => return Ok(Walked::Clean(walk.done)),
            Next::Left => {}
            Next::Above(above) => {
                if come(alloc, classes, &mut walk, above, sought)? {
                    return Ok(Walked::Found(above));
                }
            }
        }
    }
}
