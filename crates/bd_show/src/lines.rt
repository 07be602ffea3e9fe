// The lines of what was loaded.
use bd_core::{Core, Event, Item, Member};
use jv_base::{Mem, entry_text};
use std::alloc::Global;

// The line of a member that is listed.
fn member_line(alloc: Global, member: &Member) -> Mem<Option<String>> {
    let line = match member {
        Member::Known(class) => format!(in alloc; "class {}", class.as_str())?,
        Member::Made(class) => format!(in alloc; "instantiated {}", class.as_str())?,
        Member::Method(method) => {
            let text = entry_text(alloc, method)?;
            format!(in alloc; "method {}", text.as_str())?
        }
        Member::Called(_, _) | Member::Initialised(_) | Member::Under(_, _) => return Ok(None),
    };
    Ok(Some(line))
}

// The line of a class file that was asked for.
fn event_line(alloc: Global, event: &Event) -> Mem<Option<String>> {
    match event {
        Event::Take(_, Item::Class(name)) => {
            Ok(Some(format!(in alloc; "asked {}", name.as_str())?))
        }
        _ => Ok(None),
    }
}

/// The lines of what was loaded, sorted by their bytes.
pub fn lines_of(alloc: Global, core: &Core) -> Mem<Vec<String>> {
    let members = core.members()?;
    let mut lines = Vec::new(alloc);
    for member in &members {
        if let Some(line) = member_line(alloc, member)? {
            lines.push(line)?;
        }
    }
    for event in core.events() {
        if let Some(line) = event_line(alloc, event)? {
            lines.push(line)?;
        }
    }
    lines.sort()?;
    Ok(lines)
}
