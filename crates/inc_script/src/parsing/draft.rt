// The script as far as its lines are read.
ghost use Rattle.std.specs.Prelude.{◌≡◌, Some};
ghost use Rattle.inc_script.specs.Script.{IsTaken, with_line, behind_end, fresh_draft, taken, taken_as, with_reader, with_times};

use super::forms::{LineFault, ScriptLine, read_line};
use super::spans::count_reads;
use crate::{MOST_READERS, MOST_READS, MOST_TIMES, ReaderLine, Script, ScriptFault, TimesLine};
use inc_model::Rows;
use std::alloc::Global;
use std::marker::Model;

#[derive(Drop)]
pub struct Draft {
    times: Vec<TimesLine>,
    readers: Vec<ReaderLine>,
    /// How many reads the readers make.
    reads: u64,
    ended: bool,
}

impl Model for Draft {
    ghost use Rattle.std.specs.Prelude.{◌≡◌, ◌≤◌, ◌^◌};
    ghost use Rattle.inc_script.specs.Limits.{all_reads};
    ghost use Rattle.inc_script.specs.Drafts.{DraftState};

    ghost Value = { DraftState };

    ghost view = { λ d. record { times = d.times.items; readers = d.readers.items; ended = d.ended } };

    ghost invariant = { λ d. (d.reads ≡ all_reads d.readers.items) × (d.reads ≤ 2 ^ 18) };
}

impl Draft {
    /// Nothing is read. It takes no memory.
    pub fn new(alloc: Global) -> Draft
        ensures value { result ≡ fresh_draft }
    {
        Draft {
            times: Vec::new(alloc),
            readers: Vec::new(alloc),
            reads: 0,
            ended: false,
        }
    }

    pub fn has_ended(&self) -> bool
        ensures value { result ≡ self.now.ended }
    {
        self.ended
    }

    pub fn into_script(self) -> Script
        ensures value { result ≡ record { times = self.times; readers = self.readers } }
    {
        Script {
            times: Rows::from_vec(self.times),
            readers: Rows::from_vec(self.readers),
        }
    }

    /// Takes the next line, which has this number. After a fault nothing is read from it.
    pub fn take_line(&mut self, alloc: Global, at: u32, line: &[u8]) -> Result<(), ScriptFault>
        ensures value { IsTaken (taken at self.old line.now) self.new result }
    {
        match read_line(alloc, line) {
            Ok(said) => self.take_said(at, said),
            Err(LineFault::Misfit) => Err(ScriptFault::BadLine { line: at }),
            Err(LineFault::OutOfMemory) => Err(ScriptFault::OutOfMemory),
        }
    }

    fn take_said(&mut self, at: u32, said: ScriptLine) -> Result<(), ScriptFault>
        ensures value { IsTaken (taken_as at self.old (Some said)) self.new result }
    {
        if self.ended {
            self.pass_behind_end(at, said)
        } else {
            self.add(at, said)
        }
    }

    /// Behind the end a line has to say nothing.
    fn pass_behind_end(&self, at: u32, said: ScriptLine) -> Result<(), ScriptFault>
        ensures value { IsTaken (behind_end at self.now said) self.now result }
    {
        match said {
            ScriptLine::Passed => Ok(()),
            ScriptLine::TimesOf(_) => Err(ScriptFault::BadLine { line: at }),
            ScriptLine::ReaderOf(_) => Err(ScriptFault::BadLine { line: at }),
            ScriptLine::End => Err(ScriptFault::BadLine { line: at }),
        }
    }

    /// Adds what a line says.
    fn add(&mut self, at: u32, said: ScriptLine) -> Result<(), ScriptFault>
        ensures value { IsTaken (with_line at self.old said) self.new result }
    {
        match said {
            ScriptLine::Passed => Ok(()),
            ScriptLine::TimesOf(times) => self.add_times(at, times),
            ScriptLine::ReaderOf(reader) => self.add_reader(at, reader),
            ScriptLine::End => {
                self.ended = true;
                Ok(())
            }
        }
    }

    fn add_times(&mut self, at: u32, times: TimesLine) -> Result<(), ScriptFault>
        ensures value { IsTaken (with_times at self.old times) self.new result }
    {
        if self.times.len() >= MOST_TIMES {
            return Err(ScriptFault::TooMany { line: at });
        }
        self.times.push(times)?;
        Ok(())
    }

    fn add_reader(&mut self, at: u32, reader: ReaderLine) -> Result<(), ScriptFault>
        ensures value { IsTaken (with_reader at self.old reader) self.new result }
    {
        if self.readers.len() >= MOST_READERS {
            return Err(ScriptFault::TooMany { line: at });
        }
        let room = MOST_READS - self.reads;
        let Some(count) = count_reads(reader.blocks.as_slice(), room) else {
            return Err(ScriptFault::TooMany { line: at });
        };
        self.readers.push(reader)?;
        self.reads += count;
        Ok(())
    }
}
