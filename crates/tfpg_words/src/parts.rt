//! The parts of the words after a command, as `clap` takes them apart.

ghost use Rattle.std.specs.Prelude.{◌≡◌, length, map, nat_le, option_map, true};
ghost use Rattle.std.specs.List.{list_all};
ghost use Rattle.std.specs.String.{string_bytes};
ghost use Rattle.clap.specs.Walk.{count_of};
ghost use Rattle.clap.specs.Simple.{app_of};
ghost use Rattle.clap.specs.Faults.{is_simple_and_free};
ghost use Rattle.tfpg_words.specs.Words.{Any, parts_from, parts_of_words};
ghost use Rattle.tfpg_words.specs.inside.Given.{once_given, first_value, is_used};
ghost use Rattle.tfpg_words.specs.inside.Rows.{vals, IsFormed};
ghost use Rattle.tfpg_words.specs.inside.Rules.{words_id};
ghost use Rattle.tfpg_words.specs.inside.Parts.{flags_in, form_in, options_in, rows_in, texts_in, Parses, TakesApart};

use crate::form::{Form, WORDS, command_for};
use crate::plan_fault::PlanFault;
use crate::usage_cause::UsageCause;
use clap::error::ErrorKind;
use clap::{ArgMatches, Command};
use std::alloc::Global;

/// The words after a command, taken apart.
#[derive(Drop)]
pub(crate) struct Parts<'a> {
    matches: ArgMatches<'a>,
}

impl<'a> Parts<'a> {
    /// Takes the words apart, where they are of the form. Takes time linear in the number of the words.
    pub(crate) fn of(
        alloc: Global,
        form: &Form,
        words: &'a [String],
    ) -> Result<Parts<'a>, PlanFault>
        requires { IsFormed (options_in form.now) (flags_in form.now) }
        ensures { TakesApart (form_in form.now)
            (parts_of_words (form_in form.now) (map string_bytes words.now)) result }
    {
        let parts = Parts::taken(alloc, form, words)?;
        if !parts.are_once(form) {
            return Err(PlanFault::Usage(UsageCause::BadWords));
        }
        Ok(parts)
    }

    /// Takes the words apart, where each word has its place.
    fn taken(alloc: Global, form: &Form, words: &'a [String]) -> Result<Parts<'a>, PlanFault>
        requires { IsFormed (options_in form.now) (flags_in form.now) }
        ensures { TakesApart (form_in form.now)
            (parts_from (form_in form.now) (map string_bytes words.now) Any) result }
    {
        let command = command_for(alloc, form)?;
        let matches = parsed(command, words)?;
        Ok(Parts { matches })
    }

    /// Whether no option and no flag is used twice.
    fn are_once(&self, form: &Form) -> bool
        ensures { result ≡ once_given (options_in form.now) (flags_in form.now) (rows_in self.now) }
    {
        self.options_are_once(form.options) && self.flags_are_once(form.flags)
    }

    fn options_are_once(&self, names: &[&str]) -> bool
        ensures { result ≡ list_all (λ name. nat_le (length (vals name.now (rows_in self.now))) 1) names.now }
    {
        names.iter().all(|name| self.option_is_once(name))
    }

    fn option_is_once(&self, name: &str) -> bool
        ensures { result ≡ nat_le (length (vals name.now (rows_in self.now))) 1 }
    {
        match self.values_of(name) {
            Some(values) => values.len() <= 1,
            None => true,
        }
    }

    fn flags_are_once(&self, names: &[&str]) -> bool
        ensures { result ≡ list_all (λ name. nat_le (count_of name.now (rows_in self.now)) 1) names.now }
    {
        names.iter().all(|name| self.flag_is_once(name))
    }

    fn flag_is_once(&self, name: &str) -> bool
        ensures { result ≡ nat_le (count_of name.now (rows_in self.now)) 1 }
    {
        self.matches.get_count(name) <= 1
    }

    /// The positional words, in order, where there are any.
    pub(crate) fn positional(&self) -> Option<&[&'a str]>
        ensures { texts_in result ≡ vals words_id (rows_in self.now) }
    {
        self.values_of(WORDS)
    }

    /// All values of this name, in order, where there are any.
    fn values_of(&self, name: &str) -> Option<&[&'a str]>
        ensures { texts_in result ≡ vals name.now (rows_in self.now) }
    {
        self.matches.get_raw(name)
    }

    /// The value of the option of this name.
    pub(crate) fn value_of(&self, name: &str) -> Option<&'a str>
        ensures { option_map (λ value. value.now) result ≡ first_value name.now (rows_in self.now) }
    {
        self.matches.get_str(name)
    }

    /// Whether the flag of this name is used.
    pub(crate) fn has(&self, flag: &str) -> bool
        ensures { result ≡ is_used flag.now (rows_in self.now) }
    {
        self.matches.get_count(flag) > 0
    }
}

/// Parses the words by the command. Every error of `clap` other than out of memory says that the words are not of the form.
fn parsed<'a>(command: Command<'a>, words: &'a [String]) -> Result<ArgMatches<'a>, PlanFault>
    requires { is_simple_and_free (app_of command) ≡ true }
    ensures { Parses (app_of command.entry) (map string_bytes words.now) result }
{
    match command.try_get_matches_from(words) {
        Ok(matches) => Ok(matches),
        Err(error) => match error.kind() {
            ErrorKind::OutOfMemory => Err(PlanFault::NoMemory),
            _ => Err(PlanFault::Usage(UsageCause::BadWords)),
        },
    }
}
