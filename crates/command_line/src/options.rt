//! Options and commands, as a parse reads them.
ghost use Rattle.std.specs.Prelude.{◌≡◌, IfOk, false};
ghost use Rattle.clap.specs.Words.{app_of, rule_of, with_rule, with_subcommand};
ghost use Rattle.clap.specs.declared.builder.command.Command.TheViews.{out-Command};
ghost use Rattle.command_line.specs.Options as spec;

use clap::builder::ValueParser;
use clap::{Arg, ArgAction, Command};
use std::alloc::{AllocError, Global};

/// An option with one value.
pub(crate) fn text_option<'a>(
    alloc: Global,
    name: &'static str,
    value: &'static str,
    help: &'static str,
) -> Arg<'a>
    ensures rule { rule_of result ≡ spec.option_rule name.entry.now }
    ensures local { result.global ≡ false }
{
    Arg::new(alloc, name)
        .long(name)
        .value_name(value)
        .help(help)
        .action(ArgAction::Set)
}

/// An option for a number from 1 to `most`.
pub(crate) fn number_option<'a>(
    alloc: Global,
    name: &'static str,
    help: &'static str,
    most: u64,
) -> Arg<'a>
    ensures rule { rule_of result ≡ spec.number_rule name.entry.now most }
    ensures local { result.global ≡ false }
{
    text_option(alloc, name, "N", help).value_parser(ValueParser::unsigned(1, most))
}

/// The option, which has to be given.
pub(crate) fn required<'a>(option: Arg<'a>) -> Arg<'a>
    ensures rule { rule_of result ≡ spec.required (rule_of option.entry) }
    ensures local { result.global ≡ option.entry.global }
{
    option.required(true)
}

/// The option, with the value that it has where it isn't given.
pub(crate) fn with_default<'a>(option: Arg<'a>, value: &'static str) -> Arg<'a>
    ensures rule { rule_of result ≡ spec.with_default (rule_of option.entry) value.entry.now }
    ensures local { result.global ≡ option.entry.global }
{
    option.default_value(value)
}

/// A command with one option more.
pub(crate) fn with_option<'a>(
    command: Command<'a>,
    option: Arg<'a>,
) -> Result<Command<'a>, AllocError>
    requires local { option.global ≡ false }
    requires plain { (out-Command command).has_globals ≡ false }
    ensures app { IfOk result (λ new. app_of new ≡ with_rule (app_of command.entry) (rule_of option.entry)) }
    ensures plain { IfOk result (λ new. (out-Command new).has_globals ≡ false) }
{
    command.arg(option)
}

/// A program with one command more.
pub(crate) fn with_command<'a>(
    program: Command<'a>,
    command: Command<'a>,
) -> Result<Command<'a>, AllocError>
    requires plain { (out-Command command).has_globals ≡ false }
    ensures { IfOk result (λ new. app_of new ≡ with_subcommand (app_of program.entry) (app_of command.entry).top) }
{
    program.subcommand(command)
}
