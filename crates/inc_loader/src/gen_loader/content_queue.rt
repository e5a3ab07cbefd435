// The contents that are still to be given.
ghost use Rattle.std.specs.Prelude.{◌≡◌, ◌==◌, ◌+◌, ◌<◌, ◌≤◌, ◌^◌, [], ◌∷◌, All, drop, length, true, false, None, Ok, IfOk, OnOk, OnErr};
ghost use Rattle.inc_loader.specs.Content.{generated_content};
ghost use Rattle.inc_loader.specs.ContentPieces.{pieces_of};
ghost use Rattle.inc_loader.specs.PiecesLeft.{left_in, pieces_left};
ghost use Rattle.inc_loader.specs.declared.loader_file.LoaderFile.{LoaderFile};
ghost use Rattle.inc_tree.specs.shape.Limits.{most_size};

use super::file_in_work::FileInWork;
use crate::{LoaderFile, OutOfMemory};
use inc_frame::Piece;
use std::alloc::Global;

#[derive(Drop)]
pub struct ContentQueue {
    pub number: u64,
    /// How many of the files were begun.
    pub begun: usize,
    pub work: Option<FileInWork>,
}

impl ContentQueue {
    pub(crate) fn new(number: u64) -> ContentQueue
        ensures number { result.number ≡ number }
        ensures begun { result.begun ≡ 0 }
        ensures work { result.work ≡ None }
    {
        ContentQueue {
            number,
            begun: 0,
            work: None,
        }
    }

    // Goes on to the next file that has a piece left, and says whether there is one. An empty file takes no memory.
    pub(crate) fn go_on(&mut self, alloc: Global, files: &[LoaderFile]) -> Result<bool, OutOfMemory>
        requires { All (λ (file : LoaderFile). file.size ≤ most_size) files.now }
        ensures number { self.new.number ≡ self.old.number }
        ensures left { pieces_left self.new.number self.new.work self.new.begun files.now
            ≡ pieces_left self.old.number self.old.work self.old.begun files.now }
        ensures found { result ≡ Ok true → (length (left_in self.new.work) == 0) ≡ false }
        ensures none { result ≡ Ok false → pieces_left self.new.number self.new.work self.new.begun files.now ≡ [] }
        ensures some { OnErr result (0 < length (pieces_left self.new.number self.new.work self.new.begun files.now)) }
    {
        'seeking: while self.is_between_files() {
            if self.begun >= files.len() {
                return Ok(false);
            }
            self.begin(alloc, files[self.begun])?;
        }
        Ok(true)
    }

    fn is_between_files(&self) -> bool
        ensures value { result ≡ (length (left_in self.now.work) == 0) }
    {
        match &self.work {
            Some(work) => work.is_given(),
            None => true,
        }
    }

    fn begin(&mut self, alloc: Global, file: LoaderFile) -> Result<(), OutOfMemory>
        requires small { file.size ≤ most_size }
        requires between { (length (left_in self.old.work) == 0) ≡ true }
        requires more { self.old.begun + 1 < 2 ^ 64 }
        ensures number { self.new.number ≡ self.old.number }
        ensures left { OnOk result (left_in self.new.work ≡ pieces_of file (generated_content self.old.number file.size)) }
        ensures begun { OnOk result (self.new.begun ≡ self.old.begun + 1) }
        ensures same { OnErr result (self.new ≡ self.old) }
        ensures some { OnErr result (0 < file.size) }
    {
        if file.size > 0 {
            self.work = Some(FileInWork::begin(alloc, self.number, file)?);
        }
        self.begun += 1;
        Ok(())
    }

    // The next piece of the file in work.
    pub(crate) fn piece(&self, alloc: Global) -> Result<Piece, OutOfMemory>
        requires { (length (left_in self.now.work) == 0) ≡ false }
        ensures first { IfOk result (λ piece. left_in self.now.work ≡ piece ∷ drop 1 (left_in self.now.work)) }
    {
        let Some(work) = &self.work else {
            unreachable!()
        };
        work.piece(alloc)
    }

    // That piece was given.
    pub(crate) fn pass(&mut self)
        requires { (length (left_in self.old.work) == 0) ≡ false }
        ensures left { left_in self.new.work ≡ drop 1 (left_in self.old.work) }
        ensures number { self.new.number ≡ self.old.number }
        ensures begun { self.new.begun ≡ self.old.begun }
    {
        let Some(work) = &mut self.work else {
            unreachable!()
        };
        work.pass();
    }
}
