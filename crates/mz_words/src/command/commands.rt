// The `clap` commands.

ghost use Rattle.std.specs.Prelude.{◌≡◌, IfOk, false};
ghost use Rattle.clap.specs.Words.{app_of, rule_of};
ghost use Rattle.mz_words.specs.Commands.{model_rule, data_rule, number_rule, count_rule, files_command, number_command};

use crate::command::limits::{BUDGET_LIMIT, INT_RANGE_LIMIT, MAKE_LIMIT};
use clap::builder::ValueParser;
use clap::{Arg, ArgAction, Command};
use std::alloc::{AllocError, Global};

/// The file of the model, which is required.
fn model(alloc: Global) -> Arg<'static>
    ensures rule { rule_of result ≡ model_rule }
    ensures own { result.global ≡ false }
{
    Arg::new(alloc, "MODEL")
        .required(true)
        .action(ArgAction::Set)
}

/// The data files: every further file.
fn data_files(alloc: Global) -> Arg<'static>
    ensures rule { rule_of result ≡ data_rule }
    ensures own { result.global ≡ false }
{
    Arg::new(alloc, "DATA").action(ArgAction::Append)
}

/// An option whose value is a number from 1 to `limit`: `--name N` or `--name=N`.
fn number<'a>(alloc: Global, name: &'a str, limit: u64) -> Arg<'a>
    ensures rule { rule_of result ≡ number_rule name.entry.now limit }
    ensures own { result.global ≡ false }
{
    Arg::new(alloc, name)
        .long(name)
        .action(ArgAction::Set)
        .value_parser(ValueParser::unsigned(1, limit))
}

/// A number from 1 to `limit`, which is required.
fn count(alloc: Global, limit: u64) -> Arg<'static>
    ensures rule { rule_of result ≡ count_rule limit }
    ensures own { result.global ≡ false }
{
    Arg::new(alloc, "N")
        .required(true)
        .action(ArgAction::Set)
        .value_parser(ValueParser::unsigned(1, limit))
}

/// A command with files: `NAME MODEL [DATA ..] [--budget N] [--int-range N]`.
pub fn files_command<'a>(alloc: Global, name: &'a str) -> Result<Command<'a>, AllocError>
    ensures { IfOk result (λ c. app_of c ≡ files_command name.entry.now) }
{
    Command::new(alloc, name)
        .disable_help_flag(true)
        .arg(model(alloc))?
        .arg(data_files(alloc))?
        .arg(number(alloc, "budget", BUDGET_LIMIT))?
        .arg(number(alloc, "int-range", INT_RANGE_LIMIT))
}

/// A command with a number: `NAME N`.
pub fn number_command<'a>(alloc: Global, name: &'a str) -> Result<Command<'a>, AllocError>
    ensures { IfOk result (λ c. app_of c ≡ number_command name.entry.now) }
{
    Command::new(alloc, name)
        .disable_help_flag(true)
        .arg(count(alloc, MAKE_LIMIT))
}
