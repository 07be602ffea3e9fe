// The text that a run prints.
ghost use Rattle.std.specs.Prelude.{◌≡◌, ◌++◌, ◌==◌, All, IfOk, OnOk, IfSome, codes, decimal, length, string_bytes, map};
ghost use Rattle.std.specs.List.{flat_map};
ghost use Rattle.serde_json.specs.Data.{array};
ghost use Rattle.serde_json.specs.View.{view, items_of};
ghost use Rattle.jb_run.specs.Inputs.{IsIntTree};
ghost use Rattle.jb_run.specs.InputText.{argument_json, input_json, input_text};
ghost use Rattle.jb_run.specs.IntLines.{IsIntVerdict, AreIntLines, HasIntLines};
ghost use Rattle.jb_run.specs.Answers.{verdict_text, line_text, fails, failure_count, counts_text, bound_text, run_bounds, value_bounds, bounds_text, entry_line, plain_text, what_word, no_entry_text, missing_text, malformed_place, malformed_text, refusal_text, failure_text, answer_text, status_of};

use crate::report::{Answer, Line, Refusal, Status, Verdict};
use cf_pool::What;
use cl_words::Command;
use itoa::Buffer;
use jv_base::{Bounds, Input, Mem, MethodId, Name, Tree, entry_text, push_name_text, site_text};
use serde_json::{Value, json};
use std::alloc::Global;

fn tree_value(tree: &Tree) -> Value
    requires { IsIntTree tree.now }
    ensures { view result ≡ argument_json tree.now }
{
    match tree {
        Tree::Int(value) => Value::from(*value),
        _ => unreachable!(),
    }
}

fn args_value(alloc: Global, args: &[Tree]) -> Mem<Value>
    requires { All IsIntTree args.now }
    ensures { IfOk result (λ v. view v ≡ array (items_of (map argument_json args.now))) }
{
    let mut values = Vec::new(alloc);
    for tree in args {
        values.push(tree_value(tree))?;
    }
    Ok(Value::Array(values))
}

fn input_value(alloc: Global, input: &Input) -> Mem<Value>
    requires { All IsIntTree input.now.args }
    ensures { IfOk result (λ v. view v ≡ input_json input.now) }
{
    let args = args_value(alloc, input.args.as_slice())?;
    json!(in alloc; {"args": args})
}

// An input as compact JSON.
fn json_of(alloc: Global, input: &Input) -> Mem<String>
    requires { All IsIntTree input.now.args }
    ensures { IfOk result (λ text. string_bytes text ≡ input_text input.now) }
{
    let value = input_value(alloc, input)?;
    value.to_string(alloc)
}

fn add(out: &mut String, text: &str) -> Mem<()>
    ensures { OnOk result (string_bytes out.new ≡ string_bytes out.old ++ text.now) }
{
    out.push_str(text)
}

fn push_failure(alloc: Global, out: &mut String, input: &Input) -> Mem<()>
    requires { All IsIntTree input.now.args }
    ensures { OnOk result (string_bytes out.new ≡ string_bytes out.old ++ failure_text input.now) }
{
    let json = json_of(alloc, input)?;
    add(out, " FAILURE ")?;
    add(out, json.as_str())?;
    add(out, "\n")?;
    Ok(())
}

fn push_verdict(alloc: Global, out: &mut String, verdict: &Verdict) -> Mem<()>
    requires { IsIntVerdict verdict.now }
    ensures { OnOk result (string_bytes out.new ≡ string_bytes out.old ++ verdict_text verdict.now) }
{
    match verdict {
        Verdict::Success => add(out, " SUCCESS\n"),
        Verdict::Failure(input) => push_failure(alloc, out, input),
    }
}

#[tactic(auto, unfolding(crate::specs::Answers::line_text))]
fn push_line(alloc: Global, out: &mut String, line: &Line) -> Mem<()>
    requires { IsIntVerdict line.now.verdict }
    ensures { OnOk result (string_bytes out.new ≡ string_bytes out.old ++ line_text line.now) }
{
    let site = site_text(alloc, &line.goal)?;
    add(out, site.as_str())?;
    push_verdict(alloc, out, &line.verdict)?;
    Ok(())
}

fn push_lines(alloc: Global, out: &mut String, lines: &[Line]) -> Mem<()>
    requires { AreIntLines lines.now }
    ensures { OnOk result (string_bytes out.new ≡ string_bytes out.old ++ flat_map line_text lines.now) }
{
    for line in lines {
        push_line(alloc, out, line)?;
    }
    Ok(())
}

fn push_number(out: &mut String, number: usize) -> Mem<()>
    ensures { OnOk result (string_bytes out.new ≡ string_bytes out.old ++ decimal number) }
{
    let mut buffer = Buffer::new();
    out.push_str(buffer.format(number))
}

fn push_place(out: &mut String, place: u64) -> Mem<()>
    ensures { OnOk result (string_bytes out.new ≡ string_bytes out.old ++ decimal place) }
{
    let mut buffer = Buffer::new();
    out.push_str(buffer.format(place))
}

fn is_failure(line: &Line) -> bool
    ensures { result ≡ fails line.now.verdict }
{
    match &line.verdict {
        Verdict::Success => false,
        Verdict::Failure(_) => true,
    }
}

/// How many lines print an input.
pub fn failures(lines: &[Line]) -> usize
    ensures { result ≡ failure_count lines.now }
{
    lines.iter().filter(|line| is_failure(line)).count()
}

fn push_counts(out: &mut String, lines: &[Line]) -> Mem<()>
    ensures { OnOk result (string_bytes out.new ≡ string_bytes out.old ++ counts_text lines.now) }
{
    add(out, "sites ")?;
    push_number(out, lines.len())?;
    add(out, " failure ")?;
    push_number(out, failures(lines))?;
    add(out, " unknown 0\n")?;
    Ok(())
}

fn push_bound(out: &mut String, name: &str, bound: u8) -> Mem<()>
    ensures { OnOk result (string_bytes out.new ≡ string_bytes out.old ++ bound_text name.now bound) }
{
    add(out, name)?;
    push_number(out, usize::from(bound))
}

fn push_run_bounds(out: &mut String, bounds: &Bounds) -> Mem<()>
    ensures { OnOk result (string_bytes out.new ≡ string_bytes out.old ++ run_bounds bounds.now) }
{
    push_bound(out, "bounds unwind=", bounds.unwind)?;
    push_bound(out, " frames=", bounds.frames)?;
    Ok(())
}

fn push_value_bounds(out: &mut String, bounds: &Bounds) -> Mem<()>
    ensures { OnOk result (string_bytes out.new ≡ string_bytes out.old ++ value_bounds bounds.now) }
{
    push_bound(out, " depth=", bounds.depth)?;
    push_bound(out, " string=", bounds.string)?;
    push_bound(out, " array=", bounds.array)?;
    add(out, "\n")?;
    Ok(())
}

fn push_bounds(out: &mut String, bounds: &Bounds) -> Mem<()>
    ensures { OnOk result (string_bytes out.new ≡ string_bytes out.old ++ bounds_text bounds.now) }
{
    push_run_bounds(out, bounds)?;
    push_value_bounds(out, bounds)?;
    Ok(())
}

fn push_entry_line(alloc: Global, out: &mut String, entry: &MethodId) -> Mem<()>
    ensures { OnOk result (string_bytes out.new ≡ string_bytes out.old ++ entry_line entry.now) }
{
    let text = entry_text(alloc, entry)?;
    add(out, "entry ")?;
    add(out, text.as_str())?;
    add(out, "\n")?;
    Ok(())
}

fn push_plain(alloc: Global, out: &mut String, command: &Command, lines: &[Line]) -> Mem<()>
    requires { AreIntLines lines.now }
    ensures { OnOk result (string_bytes out.new ≡ string_bytes out.old ++ plain_text command.now lines.now) }
{
    push_entry_line(alloc, out, &command.entry)?;
    push_bounds(out, &command.bounds)?;
    push_lines(alloc, out, lines)?;
    push_counts(out, lines)?;
    Ok(())
}

fn word_of(what: What) -> &'static str
    ensures { result.now ≡ what_word what }
{
    match what {
        What::Truncated => "Truncated",
        What::BadMagic => "BadMagic",
        What::BadVersion => "BadVersion",
        What::BadTag => "BadTag",
        What::BadUtf8 => "BadUtf8",
        What::BadLength => "BadLength",
        What::Extra => "Extra",
        What::BadIndex => "BadIndex",
        What::BadName => "BadName",
        What::BadDesc => "BadDesc",
        What::Duplicate => "Duplicate",
        What::CodeRule => "CodeRule",
        What::WrongName => "WrongName",
        What::BadOpcode => "BadOpcode",
        What::BadTarget => "BadTarget",
        What::TooLong => "TooLong",
        What::Circular => "Circular",
        What::BadSuper => "BadSuper",
    }
}

fn push_no_entry(alloc: Global, out: &mut String, entry: &MethodId) -> Mem<()>
    ensures { OnOk result (string_bytes out.new ≡ string_bytes out.old ++ no_entry_text entry.now) }
{
    let text = entry_text(alloc, entry)?;
    add(out, "refused: no entry ")?;
    add(out, text.as_str())?;
    add(out, "\n")?;
    Ok(())
}

fn push_missing(out: &mut String, name: &Name) -> Mem<()>
    ensures { OnOk result (string_bytes out.new ≡ string_bytes out.old ++ missing_text name.now) }
{
    add(out, "refused: missing class ")?;
    push_name_text(out, name)?;
    add(out, "\n")?;
    Ok(())
}

fn push_malformed_place(out: &mut String, name: &Name, place: u64) -> Mem<()>
    ensures { OnOk result (string_bytes out.new ≡ string_bytes out.old ++ malformed_place name.now place) }
{
    add(out, "refused: malformed ")?;
    push_name_text(out, name)?;
    add(out, " at ")?;
    push_place(out, place)?;
    Ok(())
}

fn push_malformed(out: &mut String, name: &Name, place: u64, what: What) -> Mem<()>
    ensures { OnOk result (string_bytes out.new ≡ string_bytes out.old ++ malformed_text name.now place what) }
{
    push_malformed_place(out, name, place)?;
    add(out, ": ")?;
    add(out, word_of(what))?;
    add(out, "\n")?;
    Ok(())
}

fn push_refusal(alloc: Global, out: &mut String, refusal: &Refusal) -> Mem<()>
    ensures { OnOk result (string_bytes out.new ≡ string_bytes out.old ++ refusal_text refusal.now) }
{
    match refusal {
        Refusal::NoEntry(entry) => push_no_entry(alloc, out, entry),
        Refusal::Missing(name) => push_missing(out, name),
        Refusal::Malformed(name, place, what) => push_malformed(out, name, *place, *what),
        Refusal::Narrow => add(out, "refused: not built yet\n"),
    }
}

fn push_refusals(alloc: Global, out: &mut String, refusals: &[Refusal]) -> Mem<()>
    ensures { OnOk result (string_bytes out.new ≡ string_bytes out.old ++ flat_map refusal_text refusals.now) }
{
    for refusal in refusals {
        push_refusal(alloc, out, refusal)?;
    }
    Ok(())
}

/// The status of an answer, before its text is put.
pub fn status_of(answer: &Answer) -> Status
    ensures { result.0 ≡ status_of answer.now }
{
    match answer {
        Answer::Usage => Status(1),
        Answer::ReadFault => Status(3),
        Answer::NoMemory => Status(6),
        Answer::Refused(_, _) => Status(2),
        Answer::Decided(_, lines) if failures(lines.as_slice()) == 0 => Status(0),
        Answer::Decided(_, _) => Status(10),
    }
}

/// The text of an answer.
pub fn output(alloc: Global, answer: &Answer) -> Mem<String>
    requires { HasIntLines answer.now }
    ensures { IfOk result (λ text. string_bytes text ≡ answer_text answer.now) }
{
    let mut out = String::new(alloc);
    match answer {
        Answer::Usage => add(&mut out, "usage: jbmc [OPTIONS] DIR ENTRY\n")?,
        Answer::ReadFault => add(&mut out, "fault: read\n")?,
        Answer::NoMemory => add(&mut out, NO_MEMORY)?,
        Answer::Refused(_, refusals) => push_refusals(alloc, &mut out, refusals.as_slice())?,
        Answer::Decided(load, lines) => {
            push_plain(alloc, &mut out, &load.command, lines.as_slice())?
        }
    }
    Ok(out)
}

/// The text for want of memory.
pub const NO_MEMORY: &str = "fault: no memory\n";
