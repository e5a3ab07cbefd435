ghost use Rattle.std.specs.Prelude.{◌≡◌, ◌≤◌, None, refl};
ghost use Rattle.inc_io.specs.Causes.{Rose};
ghost use Rattle.inc_io.specs.declared.failed.LendFault.TheVariants.{Failed as lend_failed};

use crate::RealDisk;
use inc_disk::Shelf;
use inc_io::{Backing, LendFault, Name, NameList, ReadShelf};
use std::fs::{File, OpenFile, OpenOptions};
use std::io::ErrorKind;
use std::rt::Files;
use std::{fs, io};

/// The regular files of the current folder as a shelf. A symbolic link is no regular file. It tells nothing but its count of faults.
#[derive(Drop)]
pub struct FolderShelf<'a, R: Files<File = File> + AllocGlobal + Clone + Drop> {
    rt: &'a R,
    faults: u64,
}

impl<'a, R: Files<File = File> + AllocGlobal + Clone + Drop> FolderShelf<'a, R> {
    pub fn new(rt: &'a R) -> Self {
        FolderShelf { rt, faults: 0 }
    }

    fn fault(&mut self) -> LendFault
        ensures later { self.old.faults ≤ self.new.faults }
        ensures rose { Rose self.old.faults self.new.faults }
        ensures value { result ≡ lend_failed }
    {
        self.faults = self.faults.saturating_add(1);
        LendFault::Failed
    }

    /// Takes away a new file whose name the folder couldn't keep. Nothing stands in it, so nothing is lost. Where the name can't be taken
    /// away either, that is a second fault, and an empty file may stay.
    fn remove_new(&mut self, name: &Name) -> LendFault
        ensures later { self.old.faults ≤ self.new.faults }
        ensures rose { Rose self.old.faults self.new.faults }
        ensures value { result ≡ lend_failed }
    {
        if fs::remove_file(self.rt, name.as_str()).is_err() {
            let _ = self.fault();
        }
        self.fault()
    }
}

/// The names of the current folder's regular files, in no order. What is no `Name` is passed over; a name that isn't UTF-8 is a fault.
fn listed<R: Files<File = File> + AllocGlobal + Clone + Drop>(
    rt: &R,
) -> Result<Vec<Name>, LendFault> {
    let mut names = Vec::new(rt.alloc());
    let Ok(entries) = fs::read_dir(rt, ".") else {
        return Err(LendFault::Failed);
    };
    for entry in entries {
        let Ok(entry) = entry else {
            return Err(LendFault::Failed);
        };
        let Ok(metadata) = entry.metadata() else {
            return Err(LendFault::Failed);
        };
        if !metadata.is_file() {
            continue;
        }
        if let Some(name) = Name::of(rt.alloc(), entry.file_name().as_bytes())? {
            names.push(name)?;
        }
    }
    Ok(names)
}

/// Opens a regular file, for writing too where that is asked. There is none where the name isn't there or is another thing.
fn open_regular<R: Files<File = File> + AllocGlobal + Clone + Drop>(
    rt: &R,
    name: &Name,
    writes: bool,
) -> io::Result<Option<File>> {
    match fs::symlink_metadata(rt, name.as_str()) {
        Ok(metadata) if metadata.is_file() => {}
        Ok(_) => return Ok(None),
        Err(error) if error.kind() == ErrorKind::NotFound => return Ok(None),
        Err(error) => return Err(error),
    }
    match OpenOptions::new()
        .read(true)
        .write(writes)
        .open(rt, name.as_str())
    {
        Ok(file) => Ok(Some(file)),
        Err(error) if error.kind() == ErrorKind::NotFound => Ok(None),
        Err(error) => Err(error),
    }
}

/// Takes the whole file for this process to write, without waiting. The lock goes with the file. Where another process holds it this is a
/// failure, since two that wrote would tear each other's records.
fn take_for_writing(file: &File) -> io::Result<()> {
    match file.try_lock() {
        Ok(()) => Ok(()),
        Err(error) => Err(io::Error::from(error)),
    }
}

/// Opens a regular file to be written by this process alone. The folder is synced, so that a name that was just copied in outlives a crash
/// as what is written under it does.
fn open_to_write<R: Files<File = File> + AllocGlobal + Clone + Drop>(
    rt: &R,
    name: &Name,
) -> io::Result<Option<File>> {
    let Some(file) = open_regular(rt, name, true)? else {
        return Ok(None);
    };
    take_for_writing(&file)?;
    sync_folder(rt)?;
    Ok(Some(file))
}

/// Makes a new, empty file to be written by this process alone. There is none where the name is there already, whatever it is.
fn create_to_write<R: Files<File = File> + AllocGlobal + Clone + Drop>(
    rt: &R,
    name: &Name,
) -> io::Result<Option<File>> {
    match File::create_new(rt, name.as_str()) {
        Ok(file) => Ok(Some(file)),
        Err(error) if error.kind() == ErrorKind::AlreadyExists => Ok(None),
        Err(error) => Err(error),
    }
}

fn sync_folder<R: Files<File = File> + AllocGlobal + Clone + Drop>(rt: &R) -> io::Result<()> {
    fs::open(rt, ".")?.sync_all()
}

impl<R: Files<File = File> + AllocGlobal + Clone + Drop> ReadShelf for FolderShelf<'_, R> {
    type File = RealDisk<File>;

    type Kept = ();

    ghost kept = { λ _. tt };

    ghost contents = { λ _. None };

    ghost out = { λ _. None };

    ghost faults = { λ shelf. shelf.faults };

    fn names(&mut self) -> Result<NameList, LendFault> {
        match listed(self.rt) {
            Ok(mut names) => {
                names.sort_by(|name, other| name.as_str().cmp(other.as_str()))?;
                Ok(NameList::from_vec(names))
            }
            Err(LendFault::Failed) => Err(self.fault()),
            Err(LendFault::OutOfMemory) => Err(LendFault::OutOfMemory),
        }
    }

    fn open_read(&mut self, name: &Name) -> Result<Option<RealDisk<File>>, LendFault> {
        match open_regular(self.rt, name, false) {
            Ok(Some(file)) => Ok(Some(RealDisk::of(file))),
            Ok(None) => Ok(None),
            Err(_) => Err(self.fault()),
        }
    }

    fn close_read(&mut self, _name: &Name, file: RealDisk<File>) {
        self.faults = self.faults.saturating_add(file.fault_count());
    }
}

impl<R: Files<File = File> + AllocGlobal + Clone + Drop> Shelf for FolderShelf<'_, R> {
    type Disk = RealDisk<File>;

    ghost log = { λ _. None };

    fn open_disk(&mut self, name: &Name) -> Result<Option<RealDisk<File>>, LendFault> {
        match open_to_write(self.rt, name) {
            Ok(Some(file)) => Ok(Some(RealDisk::of(file))),
            Ok(None) => Ok(None),
            Err(_) => Err(self.fault()),
        }
    }

    fn create_disk(&mut self, name: &Name) -> Result<Option<RealDisk<File>>, LendFault> {
        let file = match create_to_write(self.rt, name) {
            Ok(Some(file)) => file,
            Ok(None) => return Ok(None),
            Err(_) => return Err(self.fault()),
        };
        // Who has locked the new file before us has opened it as it stands, and goes on with it.
        if take_for_writing(&file).is_err() {
            return Err(self.fault());
        }
        match sync_folder(self.rt) {
            Ok(()) => Ok(Some(RealDisk::of(file))),
            Err(_) => Err(self.remove_new(name)),
        }
    }

    fn close_disk(&mut self, _name: &Name, disk: RealDisk<File>) {
        self.faults = self.faults.saturating_add(disk.fault_count());
    }

    ghost contents_now = { λ _. refl };
}
