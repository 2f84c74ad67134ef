//! The lines that describe the rows, one after the other, and the answer to them.

use crate::answers::{append_asked, append_explained, append_predicted};
use crate::bytes::{append_spelled, number_of, numbers_of, text_of, texts_of, words_of};
use crate::evidence::append_evidence;
use crate::panels::PanelFaults;
use crate::row::{Change, InTurn, NamedFile, Row};
use crate::runs::append_runs;
use crate::texts::{append_checked, append_diagnosed};
use std::alloc::Global;
use std::mem;
use tfpg_base::NoMemory;

/// To what the lines after a bar belong.
#[derive(Clone, Copy)]
enum Target {
    Nothing,
    Input,
    Change,
    LastFile,
}

/// The files so far, the row, and the answer to all lines so far.
#[derive(Drop)]
pub(crate) struct RowReader {
    alloc: Global,
    files: Vec<NamedFile>,
    row: Row,
    target: Target,
    repeats: u64,
    answer: Vec<u8>,
}

impl RowReader {
    /// No line was taken yet.
    pub(crate) fn new(alloc: Global) -> RowReader {
        RowReader {
            alloc,
            files: Vec::new(alloc),
            row: Row::new(alloc),
            target: Target::Nothing,
            repeats: 1,
            answer: Vec::new(alloc),
        }
    }

    /// The answer to all lines.
    pub(crate) fn into_answer(self) -> Vec<u8> {
        self.answer
    }

    /// Takes the next line.
    pub(crate) fn take_line(&mut self, line: &[u8]) -> Result<(), NoMemory> {
        if let Some(text) = line.strip_prefix(b"|".as_slice()) {
            return self.take_text(text.strip_prefix(b" ".as_slice()).unwrap_or(text));
        }
        if line.is_empty() || line.starts_with(b"#") {
            return Ok(());
        }
        let words = words_of(self.alloc, line)?;
        match words.split_first() {
            None => Ok(()),
            Some((keyword, others)) => self.take_words(line, keyword, others),
        }
    }

    /// Takes a line of a file or of the input, as often as it is to be repeated.
    fn take_text(&mut self, text: &[u8]) -> Result<(), NoMemory> {
        let repeats = mem::replace(&mut self.repeats, 1);
        match self.target {
            Target::Nothing => Ok(()),
            Target::Input => append_often(text, repeats, &mut self.row.input),
            Target::Change => match &mut self.row.change {
                None => Ok(()),
                Some(change) => append_often(text, repeats, &mut change.text),
            },
            Target::LastFile => match self.files.last_mut() {
                None => Ok(()),
                Some(file) => append_often(text, repeats, &mut file.text),
            },
        }
    }

    /// Takes a line that is no text, by its first word and the others.
    fn take_words(
        &mut self,
        line: &[u8],
        keyword: &[u8],
        others: &[&[u8]],
    ) -> Result<(), NoMemory> {
        if keyword == b"group".as_slice() || keyword == b"row".as_slice() {
            self.begin(line)
        } else if keyword == b"file".as_slice() {
            self.begin_file(others)
        } else if keyword == b"run".as_slice() {
            self.run(line, others)
        } else if keyword == b"diagnose-texts".as_slice() {
            self.append_line(line)?;
            append_diagnosed(self.alloc, others, &self.files, &self.row, &mut self.answer)
        } else if keyword == b"check-texts".as_slice() {
            self.append_line(line)?;
            append_checked(self.alloc, others, &self.files, &self.row, &mut self.answer)
        } else if keyword == b"ask-texts".as_slice() {
            self.append_line(line)?;
            append_asked(self.alloc, others, &self.files, &self.row, &mut self.answer)
        } else if keyword == b"predict-texts".as_slice() {
            self.append_line(line)?;
            append_predicted(self.alloc, others, &self.files, &self.row, &mut self.answer)
        } else if keyword == b"explain-texts".as_slice() {
            self.append_line(line)?;
            append_explained(self.alloc, others, &self.files, &self.row, &mut self.answer)
        } else if keyword == b"evidence".as_slice() {
            self.append_line(line)?;
            append_evidence(self.alloc, others, &self.files, &self.row, &mut self.answer)
        } else {
            self.set(line, keyword, others)
        }
    }

    /// Begins a group or a row: what the row before it set holds no more.
    fn begin(&mut self, line: &[u8]) -> Result<(), NoMemory> {
        self.row = Row::new(self.alloc);
        self.target = Target::Nothing;
        self.answer.push(b'\n')?;
        self.append_line(line)
    }

    /// Appends a line to the answer.
    fn append_line(&mut self, line: &[u8]) -> Result<(), NoMemory> {
        self.answer.extend_from_slice(line)?;
        self.answer.push(b'\n')?;
        Ok(())
    }

    /// Begins a file of this name, in place of an earlier one.
    fn begin_file(&mut self, words: &[&[u8]]) -> Result<(), NoMemory> {
        self.target = Target::LastFile;
        let Some(word) = words.first() else {
            return Ok(());
        };
        if let Some(name) = text_of(self.alloc, word)? {
            self.files
                .retain(|file| file.name.as_str() != name.as_str());
            let text = Vec::new(self.alloc);
            self.files.push(NamedFile { name, text })?;
        }
        Ok(())
    }

    /// Sets what this line says for the next runs of the row.
    fn set(&mut self, line: &[u8], keyword: &[u8], others: &[&[u8]]) -> Result<(), NoMemory> {
        let number = match others.first() {
            None => 0,
            Some(word) => number_of(word),
        };
        if keyword == b"input".as_slice() {
            self.begin_input(others)
        } else if keyword == b"lines".as_slice() {
            self.begin_change(others);
            Ok(())
        } else if keyword == b"repeat".as_slice() {
            self.repeats = number;
            Ok(())
        } else if keyword == b"room".as_slice() {
            self.row.room = number as usize;
            Ok(())
        } else if keyword == b"last".as_slice() {
            self.row.view.keep_last(number);
            Ok(())
        } else if keyword == b"cut".as_slice() {
            self.row.view.cut(self.alloc, others)
        } else if keyword == b"fails".as_slice() {
            self.set_fails(others)
        } else if keyword == b"panel".as_slice() {
            self.add_panel(others)
        } else if keyword == b"each".as_slice() {
            self.set_in_turn(others);
            Ok(())
        } else {
            self.answer.extend_from_slice(b"not understood: ")?;
            self.append_line(line)
        }
    }

    /// Begins the input: with the text of the file of this name, where there is one.
    fn begin_input(&mut self, words: &[&[u8]]) -> Result<(), NoMemory> {
        self.row.input = Vec::new(self.alloc);
        self.row.change = None;
        self.target = Target::Input;
        for word in words {
            for file in &self.files {
                if file.name.as_str().as_bytes() == *word {
                    self.row.input.extend_from_slice(&file.text)?;
                }
            }
        }
        Ok(())
    }

    /// Begins a change of the input: these lines are taken out, from the first to the last, and the lines after a bar that follow
    /// stand in their place.
    fn begin_change(&mut self, words: &[&[u8]]) {
        if let [first, last] = words {
            self.row.change = Some(Change {
                first: number_of(first),
                last: number_of(last),
                text: Vec::new(self.alloc),
            });
            self.target = Target::Change;
        }
    }

    /// Sets which calls fail: a stream or the files, and numbers of calls.
    fn set_fails(&mut self, words: &[&[u8]]) -> Result<(), NoMemory> {
        if let Some((name, calls)) = words.split_first() {
            let calls = numbers_of(self.alloc, calls)?;
            if *name == b"read".as_slice() {
                self.row.read_fails = calls;
            } else if *name == b"write".as_slice() {
                self.row.write_fails = calls;
            } else {
                self.row.file_fails = calls;
            }
        }
        Ok(())
    }

    /// Adds a panel to the desk: one that is told all, or that fails or runs out of memory at the calls of these numbers.
    fn add_panel(&mut self, words: &[&[u8]]) -> Result<(), NoMemory> {
        let mut faults = PanelFaults::none(self.alloc);
        if let Some((name, calls)) = words.split_first() {
            let calls = numbers_of(self.alloc, calls)?;
            if *name == b"lost".as_slice() {
                faults.failing = calls;
            } else {
                faults.starving = calls;
            }
        }
        self.row.panels.push(faults)?;
        Ok(())
    }

    /// Sets what a run is made again with: a stream, and how many of its first calls fail in turn; or fronts of the input.
    fn set_in_turn(&mut self, words: &[&[u8]]) {
        match words {
            [name, count] => {
                let count = number_of(count);
                self.row.in_turn = Some(if *name == b"read".as_slice() {
                    InTurn::ReadFails(count)
                } else {
                    InTurn::WriteFails(count)
                });
            }
            _ => self.row.in_turn = Some(InTurn::Cut),
        }
    }

    /// Makes the runs on these words, and says what came of them.
    fn run(&mut self, line: &[u8], words: &[&[u8]]) -> Result<(), NoMemory> {
        self.append_line(line)?;
        let texts = texts_of(self.alloc, words)?;
        append_runs(self.alloc, &texts, &self.files, &self.row, &mut self.answer)
    }
}

/// Appends the line that the text spells so many times, numbered from 1.
fn append_often(text: &[u8], count: u64, into: &mut Vec<u8>) -> Result<(), NoMemory> {
    for number in 1..=count {
        if append_spelled(text, number, into)? {
            into.push(b'\n')?;
        }
    }
    Ok(())
}
