ghost use Rattle.std.specs.Prelude.{◌≡◌, IfOk};

use crate::OutOfMemory;
use inc_bytes::Id;
use inc_tree::Digest32;
use std::alloc::Global;
use std::marker::Model;

/// What a loader is told of a file before anything is asked of it.
#[derive(Clone, Copy, Debug, PartialEq, Eq)]
pub struct LoaderFile {
    pub id: Id,
    /// The bytes of the file's content, at most `inc_tree::MOST_SIZE`.
    pub size: u64,
    /// The root of the content's tree, zeros where the file has none.
    pub root: Digest32,
}

/// The files that a loader was prepared for.
#[derive(Drop)]
pub struct FileList {
    items: Vec<LoaderFile>,
}

impl Model for FileList {
    ghost use Rattle.std.specs.Prelude.{List};
    ghost use Rattle.inc_loader.specs.declared.loader_file.LoaderFile.{LoaderFile};

    ghost Value = { List LoaderFile };

    ghost view = { λ files. files.items.items };
}

impl FileList {
    /// A copy of these files.
    pub fn of(alloc: Global, files: &[LoaderFile]) -> Result<FileList, OutOfMemory>
        ensures value { IfOk result (λ copy. copy ≡ files.now) }
    {
        Ok(FileList {
            items: files.to_vec(alloc)?,
        })
    }

    pub fn as_slice(&self) -> &[LoaderFile]
        ensures value { result.now ≡ self.now }
    {
        self.items.as_slice()
    }
}
