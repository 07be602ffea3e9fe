// The content of a Code attribute (JVM Specification SE 8, 4.7.3).
ghost use Rattle.std.specs.Prelude.{◌≡◌, ◌+◌, ◌^◌, ◌<◌, ◌≤◌, length, map, IfOk};
ghost use Rattle.cf_structure.specs.Structure.{row_at, inner_at, many_at, counted_at, is_code_length, code_bytes_at, code_at};
ghost use Rattle.cf_structure.specs.Views.{skipped_of, code_of};
ghost use Rattle.cf_structure.specs.Calls.Views.{Gives};

use crate::cursor::{front, u16_at, u32_at};
use crate::fault::{Cut, Stop};
use cf_pool::What;
use jv_base::List;
use std::alloc::Global;

/// A row of an exception table.
#[derive(Clone, Copy, Debug, PartialEq, Eq)]
pub struct Row {
    pub start: u16,
    pub end: u16,
    pub handler: u16,
    pub catch_type: u16,
}

/// An attribute that is passed over, by the index of its name.
#[derive(Clone, Copy, Debug)]
pub struct SkippedPart<'a> {
    pub name: u16,
    pub content: &'a [u8],
}

/// The content of a Code attribute.
#[derive(Debug, Drop)]
pub struct CodePart<'a> {
    pub max_stack: u16,
    pub max_locals: u16,
    pub code: &'a [u8],
    pub rows: List<Row>,
    pub attributes: List<SkippedPart<'a>>,
}

#[tactic(auto, unfolding(crate::specs::Structure::row_at))]
fn read_row(holder: Cut, bytes: &[u8]) -> Result<(Row, &[u8]), Stop>
    ensures value { Gives (λ x. (x.0, x.1.now)) result (row_at holder bytes.now) }
    ensures within { IfOk result (λ x. length x.1.now ≤ length bytes.now) }
{
    let (start, rest) = u16_at(bytes, holder)?;
    let (end, rest) = u16_at(rest, holder)?;
    let (handler, rest) = u16_at(rest, holder)?;
    let (catch_type, rest) = u16_at(rest, holder)?;
    let row = Row {
        start,
        end,
        handler,
        catch_type,
    };
    Ok((row, rest))
}

fn read_row_list(
    alloc: Global,
    holder: Cut,
    count: u16,
    bytes: &[u8],
) -> Result<(List<Row>, &[u8]), Stop>
    ensures value { Gives (λ x. (x.0, x.1.now)) result (many_at (row_at holder) count bytes.now) }
    ensures within { IfOk result (λ x. length x.1.now ≤ length bytes.now) }
{
    let mut rows = List::new(alloc);
    let mut rest = bytes;
    for _ in 0..count {
        let (row, after) = read_row(holder, rest)?;
        rows.add(row)?;
        rest = after;
    }
    Ok((rows, rest))
}

/// The exception table behind its length.
#[tactic(auto, unfolding(crate::specs::Structure::counted_at))]
fn read_rows(alloc: Global, holder: Cut, bytes: &[u8]) -> Result<(List<Row>, &[u8]), Stop>
    ensures value { Gives (λ x. (x.0, x.1.now)) result (counted_at holder (row_at holder) bytes.now) }
    ensures within { IfOk result (λ x. length x.1.now ≤ length bytes.now) }
{
    let (count, rest) = u16_at(bytes, holder)?;
    read_row_list(alloc, holder, count, rest)
}

/// An attribute of a Code.
#[tactic(auto, unfolding(crate::specs::Structure::inner_at))]
fn read_inner(holder: Cut, behind: usize, bytes: &[u8]) -> Result<(SkippedPart<'_>, &[u8]), Stop>
    requires { length bytes.now + behind < 2 ^ 64 }
    ensures value { Gives (λ x. (skipped_of x.0, x.1.now)) result (inner_at holder behind bytes.now) }
    ensures within { IfOk result (λ x. length x.1.now ≤ length bytes.now) }
{
    let (name, sized) = u16_at(bytes, holder)?;
    let (size, rest) = u32_at(sized, holder)?;
    let too_long = Cut {
        left: sized.len() + behind,
        what: What::BadLength,
    };
    let (content, rest) = front(rest, size as usize, too_long)?;
    Ok((SkippedPart { name, content }, rest))
}

fn read_inner_list(
    alloc: Global,
    holder: Cut,
    behind: usize,
    count: u16,
    bytes: &[u8],
) -> Result<(List<SkippedPart<'_>>, &[u8]), Stop>
    requires { length bytes.now + behind < 2 ^ 64 }
    ensures value { Gives (λ x. (map skipped_of x.0, x.1.now)) result (many_at (inner_at holder behind) count bytes.now) }
    ensures within { IfOk result (λ x. length x.1.now ≤ length bytes.now) }
{
    let mut attributes = List::new(alloc);
    let mut rest = bytes;
    for _ in 0..count {
        let (attribute, after) = read_inner(holder, behind, rest)?;
        attributes.add(attribute)?;
        rest = after;
    }
    Ok((attributes, rest))
}

/// The attributes of a Code behind their count.
#[tactic(auto, unfolding(crate::specs::Structure::counted_at))]
fn read_inners(
    alloc: Global,
    holder: Cut,
    behind: usize,
    bytes: &[u8],
) -> Result<(List<SkippedPart<'_>>, &[u8]), Stop>
    requires { length bytes.now + behind < 2 ^ 64 }
    ensures value { Gives (λ x. (map skipped_of x.0, x.1.now)) result (counted_at holder (inner_at holder behind) bytes.now) }
    ensures within { IfOk result (λ x. length x.1.now ≤ length bytes.now) }
{
    let (count, rest) = u16_at(bytes, holder)?;
    read_inner_list(alloc, holder, behind, count, rest)
}

#[tactic(auto, unfolding(crate::specs::Structure::is_code_length))]
fn is_code_length(size: u32) -> bool
    ensures { result ≡ is_code_length size }
{
    0 < size && size < 65536
}

/// The code behind its length.
#[tactic(auto, unfolding(crate::specs::Structure::code_bytes_at))]
fn read_code_bytes(holder: Cut, behind: usize, bytes: &[u8]) -> Result<(&[u8], &[u8]), Stop>
    requires { length bytes.now + behind < 2 ^ 64 }
    ensures value { Gives (λ x. (x.0.now, x.1.now)) result (code_bytes_at holder behind bytes.now) }
    ensures within { IfOk result (λ x. length x.1.now ≤ length bytes.now) }
{
    let (size, rest) = u32_at(bytes, holder)?;
    if !is_code_length(size) {
        return Err(Stop::At(Cut {
            left: bytes.len() + behind,
            what: What::BadLength,
        }));
    }
    front(rest, size as usize, holder)
}

/// The content of a Code, which is all of these bytes. So many bytes of the file stand behind it; `holder` is the fault of
/// its length.
#[tactic(auto, unfolding(crate::specs::Structure::code_at))]
pub(crate) fn read_code(
    alloc: Global,
    holder: Cut,
    behind: usize,
    content: &[u8],
) -> Result<CodePart<'_>, Stop>
    requires { length content.now + behind < 2 ^ 64 }
    ensures { Gives code_of result (code_at holder behind content.now) }
{
    let (max_stack, rest) = u16_at(content, holder)?;
    let (max_locals, rest) = u16_at(rest, holder)?;
    let (code, rest) = read_code_bytes(holder, behind, rest)?;
    let (rows, rest) = read_rows(alloc, holder, rest)?;
    let (attributes, rest) = read_inners(alloc, holder, behind, rest)?;
    if !rest.is_empty() {
        return Err(Stop::At(holder));
    }
    Ok(CodePart {
        max_stack,
        max_locals,
        code,
        rows,
        attributes,
    })
}
