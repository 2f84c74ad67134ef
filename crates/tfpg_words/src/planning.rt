//! The plan of a line of words.

ghost use Rattle.std.specs.Prelude.{◌≡◌, ◌≤◌, ◌++◌, ◌∷◌, [], IfOk, codes, map};
ghost use Rattle.std.specs.String.{string_bytes};
ghost use Rattle.tfpg_words.specs.Meaning.{ahead_option, ask_on, by_form, command_meaning, convert_on, diagnose_on, draw_option, fleet_on, generate_on, meant_by, predict_on, simulate_on, size_option, terms_options, two_files_on, Explain, Check};
ghost use Rattle.tfpg_words.specs.PanelWords.{panels_named};
ghost use Rattle.tfpg_words.specs.Plans.{IsPlanOf};
ghost use Rattle.tfpg_words.specs.inside.Given.{ask_given, check_given, convert_given, diagnose_given, diagnose_to, explain_given, fleet_given, generate_given, numbers_given, predict_given, simulate_given, terms_given};
ghost use Rattle.tfpg_base.specs.declared.limits.TheConstants.{MAX_DOUBT, MAX_K};
ghost use Rattle.tfpg_words.specs.inside.Parts.{rows_in};

use crate::command::{Command, Planned};
use crate::form::Form;
use crate::limits::{
    DEFAULT_AHEAD, DEFAULT_BUDGET, DEFAULT_DOUBT, DEFAULT_DRAW, DEFAULT_K, DEFAULT_SIZE, MAX_DRAW,
};
use crate::names::has_names;
use crate::number::{NumberOption, both};
use crate::panels::panels_of;
use crate::parts::Parts;
use crate::plan_fault::PlanFault;
use crate::usage_cause::UsageCause;
use std::alloc::Global;
use tfpg_base::{MAX_BUDGET, MAX_CASE_SIZE, MAX_DOUBT, MAX_K, MAX_TIME, Terms, Text};

const K: NumberOption = NumberOption {
    name: "k",
    least: 0,
    limit: MAX_K,
    default: DEFAULT_K,
};

const DOUBT: NumberOption = NumberOption {
    name: "doubt",
    least: 0,
    limit: MAX_DOUBT,
    default: DEFAULT_DOUBT,
};

const BUDGET: NumberOption = NumberOption {
    name: "budget",
    least: 1,
    limit: MAX_BUDGET,
    default: DEFAULT_BUDGET,
};

const AHEAD: NumberOption = NumberOption {
    name: "ahead",
    least: 0,
    limit: MAX_TIME,
    default: DEFAULT_AHEAD,
};

const DRAW: NumberOption = NumberOption {
    name: "draw",
    least: 0,
    limit: MAX_DRAW,
    default: DEFAULT_DRAW,
};

const SIZE: NumberOption = NumberOption {
    name: "size",
    least: 1,
    limit: MAX_CASE_SIZE,
    default: DEFAULT_SIZE,
};

/// Reads the words after the program's name.
///
/// An option stands as `--name value` or `--name=value`, at most once, anywhere after the command; a flag stands as
/// `--name`. The first `--` makes all later words positional. Every other word that begins with a hyphen and has another
/// byte is an option word, and never a value nor a positional word. Takes time linear in the length of the
/// words.
///
/// # Errors
///
/// The first [`UsageCause`] that holds of the words, or out of memory.
///
/// ```
/// let planned = plan(alloc, &words)?; // `simulate --draw=7 engine.tfpg case.script`
/// if let Command::Simulate { draw, trace, .. } = planned.command {
///     // draw is 7, trace is false
/// }
/// ```
pub fn plan(alloc: Global, words: &[String]) -> Result<Planned, PlanFault>
    ensures { IsPlanOf (meant_by (map string_bytes words.now)) result }
{
    let [command, words @ ..] = words else {
        return Err(PlanFault::Usage(UsageCause::NoCommand));
    };
    plan_command(alloc, command.as_str(), words)
}

/// The plan for the command of this name, with the words after it.
fn plan_command(alloc: Global, command: &str, words: &[String]) -> Result<Planned, PlanFault>
    ensures { IsPlanOf (command_meaning command.now (map string_bytes words.now)) result }
{
    if command == "diagnose" {
        plan_diagnose(alloc, words)
    } else if command == "explain" {
        plan_explain(alloc, words)
    } else if command == "check" {
        plan_check(alloc, words)
    } else if command == "simulate" {
        plan_simulate(alloc, words)
    } else if command == "generate" {
        plan_generate(alloc, words)
    } else if command == "convert" {
        plan_convert(alloc, words)
    } else if command == "ask" {
        plan_ask(alloc, words)
    } else if command == "fleet" {
        plan_fleet(alloc, words)
    } else if command == "predict" {
        plan_predict(alloc, words)
    } else {
        Err(PlanFault::Usage(UsageCause::UnknownCommand))
    }
}

/// `diagnose [--k N] [--doubt N] [--budget N] GRAPH [PANEL]..`
fn plan_diagnose(alloc: Global, words: &[String]) -> Result<Planned, PlanFault>
    ensures { IsPlanOf (by_form terms_options [] diagnose_on (map string_bytes words.now)) result }
{
    let form = Form {
        options: &[K.name, DOUBT.name, BUDGET.name],
        flags: &[],
    };
    let parts = Parts::of(alloc, &form, words)?;
    plan_diagnose_by(alloc, &parts)
}

fn plan_diagnose_by(alloc: Global, parts: &Parts) -> Result<Planned, PlanFault>
    ensures { IsPlanOf (diagnose_given (rows_in parts.now)) result }
{
    let Some([graph, words @ ..]) = parts.positional() else {
        return Err(PlanFault::Usage(UsageCause::BadWords));
    };
    let terms = terms_in(parts)?;
    diagnose_to(alloc, terms, graph, words)
}

/// The diagnosis of this graph on these terms, with the panels that the words name.
fn diagnose_to(
    alloc: Global,
    terms: Terms,
    graph: &str,
    words: &[&str],
) -> Result<Planned, PlanFault>
    ensures { IsPlanOf (diagnose_to terms graph.now (panels_named (map (λ word. word.now) words.now))) result }
{
    let panels = panels_of(alloc, words)?;
    let command = Command::Diagnose {
        k: terms.k,
        doubt: terms.doubt,
        budget: terms.budget,
        graph: Text::of(alloc, graph)?,
    };
    Ok(Planned { command, panels })
}

/// `explain GRAPH LOG`
fn plan_explain(alloc: Global, words: &[String]) -> Result<Planned, PlanFault>
    ensures { IsPlanOf (by_form [] [] (two_files_on Explain) (map string_bytes words.now)) result }
{
    let form = Form {
        options: &[],
        flags: &[],
    };
    let parts = Parts::of(alloc, &form, words)?;
    plan_explain_by(alloc, &parts)
}

fn plan_explain_by(alloc: Global, parts: &Parts) -> Result<Planned, PlanFault>
    ensures { IsPlanOf (explain_given (rows_in parts.now)) result }
{
    let Some([graph, log]) = parts.positional() else {
        return Err(PlanFault::Usage(UsageCause::BadWords));
    };
    let command = Command::Explain {
        graph: Text::of(alloc, graph)?,
        log: Text::of(alloc, log)?,
    };
    Ok(Planned::alone(alloc, command))
}

/// `check GRAPH LOG`
fn plan_check(alloc: Global, words: &[String]) -> Result<Planned, PlanFault>
    ensures { IsPlanOf (by_form [] [] (two_files_on Check) (map string_bytes words.now)) result }
{
    let form = Form {
        options: &[],
        flags: &[],
    };
    let parts = Parts::of(alloc, &form, words)?;
    plan_check_by(alloc, &parts)
}

fn plan_check_by(alloc: Global, parts: &Parts) -> Result<Planned, PlanFault>
    ensures { IsPlanOf (check_given (rows_in parts.now)) result }
{
    let Some([graph, log]) = parts.positional() else {
        return Err(PlanFault::Usage(UsageCause::BadWords));
    };
    let command = Command::Check {
        graph: Text::of(alloc, graph)?,
        log: Text::of(alloc, log)?,
    };
    Ok(Planned::alone(alloc, command))
}

/// `simulate [--draw N] [--trace] GRAPH SCRIPT`
fn plan_simulate(alloc: Global, words: &[String]) -> Result<Planned, PlanFault>
    ensures { IsPlanOf (by_form (draw_option.name ∷ []) (codes "--trace" ∷ []) simulate_on (map string_bytes words.now)) result }
{
    let form = Form {
        options: &[DRAW.name],
        flags: &["trace"],
    };
    let parts = Parts::of(alloc, &form, words)?;
    plan_simulate_by(alloc, &parts)
}

fn plan_simulate_by(alloc: Global, parts: &Parts) -> Result<Planned, PlanFault>
    ensures { IsPlanOf (simulate_given (rows_in parts.now)) result }
{
    let Some([graph, script]) = parts.positional() else {
        return Err(PlanFault::Usage(UsageCause::BadWords));
    };
    let draw = DRAW.number_in(parts)?;
    let command = Command::Simulate {
        draw,
        trace: parts.has("trace"),
        graph: Text::of(alloc, graph)?,
        script: Text::of(alloc, script)?,
    };
    Ok(Planned::alone(alloc, command))
}

/// `generate [--draw N] [--size N]`
fn plan_generate(alloc: Global, words: &[String]) -> Result<Planned, PlanFault>
    ensures { IsPlanOf (by_form (draw_option.name ∷ size_option.name ∷ []) [] generate_on (map string_bytes words.now)) result }
{
    let form = Form {
        options: &[DRAW.name, SIZE.name],
        flags: &[],
    };
    let parts = Parts::of(alloc, &form, words)?;
    plan_generate_by(alloc, &parts)
}

fn plan_generate_by(alloc: Global, parts: &Parts) -> Result<Planned, PlanFault>
    ensures { IsPlanOf (generate_given (rows_in parts.now)) result }
{
    if let Some([_, ..]) = parts.positional() {
        return Err(PlanFault::Usage(UsageCause::BadWords));
    }
    let (draw, size) = both(DRAW.number_in(parts), SIZE.number_in(parts))?;
    let command = Command::Generate {
        draw,
        size: size as u32,
    };
    Ok(Planned::alone(alloc, command))
}

/// `convert [--json] GRAPH`
fn plan_convert(alloc: Global, words: &[String]) -> Result<Planned, PlanFault>
    ensures { IsPlanOf (by_form [] (codes "--json" ∷ []) convert_on (map string_bytes words.now)) result }
{
    let form = Form {
        options: &[],
        flags: &["json"],
    };
    let parts = Parts::of(alloc, &form, words)?;
    plan_convert_by(alloc, &parts)
}

fn plan_convert_by(alloc: Global, parts: &Parts) -> Result<Planned, PlanFault>
    ensures { IsPlanOf (convert_given (rows_in parts.now)) result }
{
    let Some([graph]) = parts.positional() else {
        return Err(PlanFault::Usage(UsageCause::BadWords));
    };
    let command = Command::Convert {
        json: parts.has("json"),
        graph: Text::of(alloc, graph)?,
    };
    Ok(Planned::alone(alloc, command))
}

/// `ask [--k N] [--doubt N] [--budget N] GRAPH LOG`
fn plan_ask(alloc: Global, words: &[String]) -> Result<Planned, PlanFault>
    ensures { IsPlanOf (by_form terms_options [] ask_on (map string_bytes words.now)) result }
{
    let form = Form {
        options: &[K.name, DOUBT.name, BUDGET.name],
        flags: &[],
    };
    let parts = Parts::of(alloc, &form, words)?;
    plan_ask_by(alloc, &parts)
}

fn plan_ask_by(alloc: Global, parts: &Parts) -> Result<Planned, PlanFault>
    ensures { IsPlanOf (ask_given (rows_in parts.now)) result }
{
    let Some([graph, log]) = parts.positional() else {
        return Err(PlanFault::Usage(UsageCause::BadWords));
    };
    let terms = terms_in(parts)?;
    let command = Command::Ask {
        k: terms.k,
        doubt: terms.doubt,
        budget: terms.budget,
        graph: Text::of(alloc, graph)?,
        log: Text::of(alloc, log)?,
    };
    Ok(Planned::alone(alloc, command))
}

/// `fleet [--k N] [--doubt N] [--budget N] GRAPH NAMES`
fn plan_fleet(alloc: Global, words: &[String]) -> Result<Planned, PlanFault>
    ensures { IsPlanOf (by_form terms_options [] fleet_on (map string_bytes words.now)) result }
{
    let form = Form {
        options: &[K.name, DOUBT.name, BUDGET.name],
        flags: &[],
    };
    let parts = Parts::of(alloc, &form, words)?;
    plan_fleet_by(alloc, &parts)
}

fn plan_fleet_by(alloc: Global, parts: &Parts) -> Result<Planned, PlanFault>
    ensures { IsPlanOf (fleet_given (rows_in parts.now)) result }
{
    let Some([graph, names]) = parts.positional() else {
        return Err(PlanFault::Usage(UsageCause::BadWords));
    };
    let terms = terms_in(parts)?;
    if !has_names(alloc, names)? {
        return Err(PlanFault::Usage(UsageCause::BadNames));
    }
    let command = Command::Fleet {
        k: terms.k,
        doubt: terms.doubt,
        budget: terms.budget,
        graph: Text::of(alloc, graph)?,
        names: Text::of(alloc, names)?,
    };
    Ok(Planned::alone(alloc, command))
}

/// `predict [--k N] [--doubt N] [--budget N] [--ahead N] GRAPH LOG NODE`
fn plan_predict(alloc: Global, words: &[String]) -> Result<Planned, PlanFault>
    ensures { IsPlanOf (by_form (terms_options ++ ahead_option.name ∷ []) [] predict_on (map string_bytes words.now)) result }
{
    let form = Form {
        options: &[K.name, DOUBT.name, BUDGET.name, AHEAD.name],
        flags: &[],
    };
    let parts = Parts::of(alloc, &form, words)?;
    plan_predict_by(alloc, &parts)
}

fn plan_predict_by(alloc: Global, parts: &Parts) -> Result<Planned, PlanFault>
    ensures { IsPlanOf (predict_given (rows_in parts.now)) result }
{
    let Some([graph, log, node]) = parts.positional() else {
        return Err(PlanFault::Usage(UsageCause::BadWords));
    };
    let (terms, ahead) = both(terms_in(parts), AHEAD.number_in(parts))?;
    let command = Command::Predict {
        k: terms.k,
        doubt: terms.doubt,
        budget: terms.budget,
        ahead,
        graph: Text::of(alloc, graph)?,
        log: Text::of(alloc, log)?,
        node: Text::of(alloc, node)?,
    };
    Ok(Planned::alone(alloc, command))
}

/// The terms of a diagnosis.
fn terms_in(parts: &Parts) -> Result<Terms, UsageCause>
    ensures { result ≡ terms_given (rows_in parts.now) }
{
    let ((k, doubt), budget) = numbers_in(parts)?;
    Ok(Terms {
        k: k as u32,
        doubt: doubt as u32,
        budget,
    })
}

/// The numbers of the terms of a diagnosis, which are within their limits.
fn numbers_in(parts: &Parts) -> Result<((u64, u64), u64), UsageCause>
    ensures numbers { result ≡ numbers_given (rows_in parts.now) }
    ensures small { IfOk result (λ numbers. (numbers.0.0 ≤ MAX_K) × (numbers.0.1 ≤ MAX_DOUBT)) }
{
    let members = both(K.number_in(parts), DOUBT.number_in(parts));
    both(members, BUDGET.number_in(parts))
}
