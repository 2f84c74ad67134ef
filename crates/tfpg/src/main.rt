//! The program: a diagnoser for timed failure propagation graphs.
//!
//! `main` makes the panels that the words of the command line name, and calls [`tfpg_run::run`] on these words, over the files of the
//! system, standard input and standard output. It writes the line of the end to standard error, and exits with its code.
//!
//! ```text
//! ./tfpg diagnose examples/pump.tfpg < examples/pump.log
//! ```
//!
//! # Proved, and by which clause
//!
//! - The arguments after the first are the words, there is a file panel for each that names one, its line is the one of
//!   its kind, and the code is that of the end: `words_after_name`, `panels_of`, `FilePanel::line_of`.
//! - `End::code` of `tfpg_run`.
//!
//! # Not proved
//!
//! - What real files and streams hold.
#![tactic(auto)]

ghost use Rattle.std.specs.Prelude.{◌≡◌, ◌<◌, map, IfOk};

mod real;
#[cfg(test)]
mod tests;
mod words;

use real::{FilePanel, FileShelf, StandardInput, StandardOutput};
use std::alloc::Global;
use std::io::{ErrorKind, Write};
use std::marker::Brand;
use std::process::ExitCode;
use std::rt::Files;
use std::sync::ledger::{Blank, Ledger};
use std::{env, io};
use tfpg_base::{NoMemory, Shelf, Sink, Source, Steps};
use tfpg_panel::{Desk, Panel};
use tfpg_run::{End, run};
use tfpg_words::{PanelWord, PlanFault, UsageCause, plan};
use words::words_after_name;

/// Runs on the words of the command line, says how that ended, and exits with its status.
fn main(rt: HostRuntime) -> ExitCode {
    let end = match args_of(&rt) {
        Ok(args) => run_words(&rt, words_after_name(&args)),
        Err(error) => end_without_words(&error),
    };
    // Where memory runs out for the line, the status alone is given.
    let _ = print_line(&rt, &end);
    end.code()
}

/// The arguments of the process, of which the first is the name of the program.
fn args_of(rt: &HostRuntime) -> io::Result<Vec<String>> {
    let mut args = Vec::new(rt.alloc());
    for arg in env::args(rt)? {
        args.push(arg)?;
    }
    Ok(args)
}

/// The end where the words are no texts, or memory ran out for them.
fn end_without_words(error: &io::Error) -> End {
    if error.kind() == ErrorKind::OutOfMemory {
        End::NoMemory
    } else {
        End::Usage {
            cause: UsageCause::BadWords,
        }
    }
}

/// Runs on these words, over the files of the system, standard input and standard output.
fn run_words(rt: &HostRuntime, words: &[String]) -> End {
    let mut input = StandardInput::new(rt.stdin());
    let mut output = StandardOutput::new(rt.stdout());
    run_on_files(rt, words, &mut input, &mut output)
}

/// Runs on these words, over the files of the system, with the panels that the words name. Words that are refused name none, and the run
/// says why they are.
fn run_on_files<S: Source, K: Sink>(
    rt: &HostRuntime,
    words: &[String],
    input: &mut S,
    out: &mut K,
) -> End {
    let ended = match plan(rt.alloc(), words) {
        Ok(planned) => run_with_panels(rt, words, planned.panels.as_slice(), input, out),
        Err(PlanFault::Usage(_)) => run_with_panels(rt, words, &[], input, out),
        Err(PlanFault::NoMemory) => Err(NoMemory),
    };
    match ended {
        Ok(end) => end,
        Err(NoMemory) => End::NoMemory,
    }
}

/// Runs on these words, over the files of the system, with these panels, which it boxes.
fn run_with_panels<S: Source, K: Sink>(
    rt: &HostRuntime,
    words: &[String],
    named: &[PanelWord],
    input: &mut S,
    out: &mut K,
) -> Result<End, NoMemory> {
    let alloc = rt.alloc();
    let mut panels: Vec<Box<dyn Panel>> = Vec::new(alloc);
    for panel in panels_of(*rt, alloc, named)? {
        panels.push(Box::new(alloc, panel)?)?;
    }
    let mut desk = Desk::new(alloc, panels)?;
    let mut shelf = FileShelf::new(rt);
    Ok(run_over(alloc, words, &mut shelf, input, out, &mut desk))
}

/// The panels that the words name, over these files.
fn panels_of<R: Files + Copy>(
    files: R,
    alloc: Global,
    named: &[PanelWord],
) -> Result<Vec<FilePanel<R>>, NoMemory>
    ensures { IfOk result (λ panels. map (λ panel. panel.word) panels.items ≡ named.now) }
{
    let mut panels = Vec::new(alloc);
    for word in named {
        panels.push(FilePanel::new(files, alloc, word)?)?;
    }
    Ok(panels)
}

/// Runs on these words, over this shelf, input, output and desk.
fn run_over<F: Shelf, S: Source, K: Sink>(
    alloc: Global,
    words: &[String],
    shelf: &mut F,
    input: &mut S,
    out: &mut K,
    desk: &mut Desk,
) -> End {
    run_counted::<F, S, K, Brand>(alloc, words, shelf, input, out, desk, Blank::new(1))
}

/// The same with a new counter of steps, which costs nothing.
fn run_counted<F: Shelf, S: Source, K: Sink, L: Ledger>(
    alloc: Global,
    words: &[String],
    shelf: &mut F,
    input: &mut S,
    out: &mut K,
    desk: &mut Desk,
    blank: Blank,
) -> End
    requires name { blank.name ≡ L.name }
    requires parts { blank.parts ≡ L.parts }
    requires some { 0 < blank.parts }
{
    let mut work = Steps::<L>::new(blank);
    run(alloc, words, shelf, input, out, desk, &mut work)
}

/// Writes the line of the end to standard error, where it has one. Where that fails, nothing more can be said.
fn print_line(rt: &HostRuntime, end: &End) -> Result<(), NoMemory> {
    let mut line = Vec::new(rt.alloc());
    end.line(&mut line)?;
    if !line.is_empty() {
        line.push(b'\n')?;
        let _ = rt.stderr().write_all(&line);
    }
    Ok(())
}
