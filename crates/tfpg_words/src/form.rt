//! The form of a command: which options and flags it takes; and the command of `clap` that reads it.

ghost use Rattle.std.specs.Prelude.{◌≡◌, IfOk, [], false};
ghost use Rattle.clap.specs.Walk.{rule_of};
ghost use Rattle.clap.specs.Simple.{app_of};
ghost use Rattle.tfpg_words.specs.inside.Rows.{app_for, app_with, flag_arg, option_arg, words_arg};
ghost use Rattle.tfpg_words.specs.inside.Parts.{flags_in, options_in};

use clap::{Arg, ArgAction, Command};
use std::alloc::{AllocError, Global};

/// The argument that has the positional words.
pub(crate) const WORDS: &str = "words";

/// The names of the options that take a value, and of the flags, which take none, without their hyphens.
#[derive(Clone, Copy)]
pub(crate) struct Form {
    pub(crate) options: &'static [&'static str],
    pub(crate) flags: &'static [&'static str],
}

/// The command of the form. It takes any number of positional words, and has no help, no version and no environment.
/// Options and flags may be repeated: who reads the matches counts them.
pub(crate) fn command_for<'a>(alloc: Global, form: &Form) -> Result<Command<'a>, AllocError>
    ensures { IfOk result (λ command. app_of command ≡ app_for (options_in form.now) (flags_in form.now)) }
{
    let mut command = new_command(alloc);
    for name in form.options {
        command = command.arg(option_arg(alloc, name))?;
    }
    for name in form.flags {
        command = command.arg(flag_arg(alloc, name))?;
    }
    command.arg(words_arg(alloc))
}

fn new_command<'a>(alloc: Global) -> Command<'a>
    ensures { app_of result ≡ app_with [] }
{
    Command::new(alloc, "tfpg")
        .no_binary_name(true)
        .disable_help_flag(true)
        .disable_version_flag(true)
}

fn option_arg<'a>(alloc: Global, name: &'a str) -> Arg<'a>
    ensures rule { rule_of result ≡ option_arg name.now }
    ensures local { result.global ≡ false }
{
    Arg::new(alloc, name).long(name).action(ArgAction::Append)
}

fn flag_arg<'a>(alloc: Global, name: &'a str) -> Arg<'a>
    ensures rule { rule_of result ≡ flag_arg name.now }
    ensures local { result.global ≡ false }
{
    Arg::new(alloc, name).long(name).action(ArgAction::Count)
}

fn words_arg<'a>(alloc: Global) -> Arg<'a>
    ensures rule { rule_of result ≡ words_arg }
    ensures local { result.global ≡ false }
{
    Arg::new(alloc, WORDS).action(ArgAction::Append)
}
