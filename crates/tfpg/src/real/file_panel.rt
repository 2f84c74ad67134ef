//! Files as panels.

ghost use Rattle.std.specs.Prelude.{◌≡◌, [], IfOk};
ghost use Rattle.tfpg_evidence.specs.RoundOf.{IsRoundOf};
ghost use Rattle.tfpg_graph.specs.Graph.{sizes_of};
ghost use Rattle.tfpg_run.specs.PanelLines.{panel_line};

use std::alloc::Global;
use std::io::Write;
use std::rt::Files;
use std::{fs, io};
use tfpg_base::{FaultCount, NoMemory, Text};
use tfpg_evidence::Round;
use tfpg_graph::Graph;
use tfpg_panel::{Panel, PanelFault, ToldRounds};
use tfpg_run::panel_lines::panel_line;
use tfpg_words::PanelWord;

/// A panel that writes a line for each round to a file. The file is made anew at the first round.
///
/// It owns its word and the files that it writes to, so that it goes into a box.
#[derive(Drop)]
pub(crate) struct FilePanel<R: Files + Copy> {
    files: R,
    alloc: Global,
    word: PanelWord,
    file: Option<R::File>,
    faults: FaultCount,
    told: ToldRounds,
}

impl<R: Files + Copy> FilePanel<R> {
    /// The panel that the words name, over these files. It was told nothing and has not failed, and its file is not touched yet.
    pub(crate) fn new(files: R, alloc: Global, word: &PanelWord) -> Result<FilePanel<R>, NoMemory>
        ensures word { IfOk result (λ panel. panel.word ≡ word.now) }
        ensures no_fault { IfOk result (λ panel. panel.faults.count ≡ 0) }
        ensures told { IfOk result (λ panel. panel.told.rounds ≡ []) }
    {
        let word = PanelWord {
            kind: word.kind,
            file: Text::of(alloc, word.file.as_str())?,
        };
        Ok(FilePanel {
            files,
            alloc,
            word,
            file: None,
            faults: FaultCount::new(),
            told: ToldRounds::none(),
        })
    }

    /// The line of the round, of the kind that the words name.
    fn line_of(&self, graph: &Graph, round: &Round) -> Result<Vec<u8>, NoMemory>
        requires { IsRoundOf (sizes_of graph.now) round.now }
        ensures { IfOk result (λ line. line.items ≡ panel_line self.now.word.kind graph.now round.entry.now) }
    {
        let mut line = Vec::new(self.alloc);
        panel_line(self.word.kind, graph, round, &mut line)?;
        Ok(line)
    }

    /// Writes the line to the file, which it makes first where it has not yet.
    fn write(&mut self, line: &[u8]) -> io::Result<()>
        ensures faults { self.new.faults ≡ self.old.faults }
        ensures told { self.new.told ≡ self.old.told }
    {
        if let Some(file) = &mut self.file {
            return file.write_all(line);
        }
        let mut file = fs::create(&self.files, self.word.file.as_str())?;
        file.write_all(line)?;
        self.file = Some(file);
        Ok(())
    }
}

impl<R: Files + Copy> Panel for FilePanel<R> {
    ghost use Rattle.std.specs.Prelude.{false};

    ghost state = { λ panel. record { told = panel.told.rounds; lends = false; faults = panel.faults.count } };

    fn tell(&mut self, graph: &Graph, round: &Round) -> Result<(), PanelFault> {
        let line = self.line_of(graph, round)?;
        match self.write(&line) {
            Ok(()) => {
                self.told = self.told.with(round);
                Ok(())
            }
            Err(_) => {
                self.faults.raise();
                Err(PanelFault::Lost)
            }
        }
    }

    fn told(&self) -> Option<&[Round]> {
        None
    }
}
