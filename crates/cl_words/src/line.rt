// The command line as a command of `clap`.
ghost use Rattle.std.specs.Prelude.{◌≡◌, false, IfOk};
ghost use Rattle.clap.specs.Words.{app_of, rule_of};
ghost use Rattle.cl_words.specs.CommandLine.{bound_rules, command_line, flag_rule, form_rules, number_rule, text_rule, with_rules, work_rules};
ghost use Rattle.cl_words.specs.Calls.Options.{option_of};

use crate::option::{ARRAY, BUDGET, DEPTH, FRAMES, JOBS, MAKE, NumberOption, STRING, UNWIND};
use clap::builder::ValueParser;
use clap::{Arg, ArgAction, Command};
use jv_base::Mem;
use std::alloc::Global;

/// `--NAME N`.
fn number_option<'a>(alloc: Global, option: NumberOption) -> Arg<'a>
    ensures rule { rule_of result ≡ number_rule (option_of option) }
    ensures local { result.global ≡ false }
{
    let argument = Arg::new(alloc, option.name).long(option.name).value_parser(
        ValueParser::Unsigned(u64::from(option.least), u64::from(option.most)),
    );
    match option.default {
        Some(text) => argument.default_value(text),
        None => argument,
    }
}

/// `--NAME`.
fn flag<'a>(alloc: Global, name: &'a str) -> Arg<'a>
    ensures rule { rule_of result ≡ flag_rule name.entry.now }
    ensures local { result.global ≡ false }
{
    Arg::new(alloc, name).long(name).action(ArgAction::SetTrue)
}

/// `--NAME TEXT`.
fn text_option<'a>(alloc: Global, name: &'a str) -> Arg<'a>
    ensures rule { rule_of result ≡ text_rule name.entry.now }
    ensures local { result.global ≡ false }
{
    Arg::new(alloc, name).long(name)
}

/// The command with the bounds.
fn with_bounds<'a>(alloc: Global, command: Command<'a>) -> Mem<Command<'a>>
    ensures { IfOk result (λ r. app_of r ≡ with_rules (app_of command.entry) bound_rules) }
{
    command
        .arg(number_option(alloc, UNWIND))?
        .arg(number_option(alloc, FRAMES))?
        .arg(number_option(alloc, DEPTH))?
        .arg(number_option(alloc, STRING))?
        .arg(number_option(alloc, ARRAY))
}

/// The command with the other options with a number.
fn with_work<'a>(alloc: Global, command: Command<'a>) -> Mem<Command<'a>>
    ensures { IfOk result (λ r. app_of r ≡ with_rules (app_of command.entry) work_rules) }
{
    command
        .arg(number_option(alloc, BUDGET))?
        .arg(number_option(alloc, JOBS))?
        .arg(number_option(alloc, MAKE))
}

/// The command with the flags, the texts and the positionals.
fn with_forms<'a>(alloc: Global, command: Command<'a>) -> Mem<Command<'a>>
    ensures { IfOk result (λ r. app_of r ≡ with_rules (app_of command.entry) form_rules) }
{
    command
        .arg(flag(alloc, "trace"))?
        .arg(flag(alloc, "list"))?
        .arg(text_option(alloc, "replay"))?
        .arg(text_option(alloc, "site"))?
        .arg(Arg::new(alloc, "DIR"))?
        .arg(Arg::new(alloc, "ENTRY"))
}

/// The command line, for words without the program's name.
pub(crate) fn command_line<'a>(alloc: Global) -> Mem<Command<'a>>
    ensures { IfOk result (λ r. app_of r ≡ command_line) }
{
    let command = Command::new(alloc, "jbmc")
        .no_binary_name(true)
        .disable_help_flag(true);
    with_forms(alloc, with_work(alloc, with_bounds(alloc, command)?)?)
}
