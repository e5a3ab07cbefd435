// What no event changes of a file, copied so that it is looked at outside the lock.
ghost use Rattle.std.specs.Prelude.{◌≡◌, ◌<◌, ◌^◌, length, IfOk};
ghost use Rattle.inc_entry.specs.Entry.{area_places, entries};
ghost use Rattle.inc_entry.specs.Stored.{is_compressed_class, is_damaged_class};
ghost use Rattle.inc_layout.specs.Backing.{sig_root};
ghost use Rattle.inc_layout.specs.fixed.Fixed.{shape_for};
ghost use Rattle.inc_layout.specs.opening.Opening.{IsSoundOpened};
ghost use Rattle.inc_layout.specs.state.Reopening.{indices_passing};

use crate::OutOfMemory;
use inc_bytes::Id;
use inc_entry::Class;
use inc_layout::Opened;
use inc_tree::{Digest32, Geometry};
use std::alloc::Global;
use std::snapshot::Snapshot;

/// A mounted file's id, root and shape, and which of its indices may never be filled.
#[derive(Drop)]
pub struct KnownFile {
    pub(crate) opened: Snapshot<Opened>,
    pub(crate) id: Id,
    pub(crate) root: Option<Digest32>,
    pub(crate) geometry: Geometry,
    pub(crate) damaged: Vec<u32>,
    pub(crate) compressed: Vec<u32>,
    pub ghost counted: { length opened.value.classes ≡ entries (area_places opened.value.areas) },
    pub ghost id_is: { id ≡ opened.value.header.id },
    pub ghost root_is: { root ≡ sig_root opened.value.sig },
    pub ghost geometry_is: { geometry ≡ opened.value.areas.geometry },
    pub ghost shaped: { geometry ≡ shape_for opened.value.sig opened.value.header.size },
    pub ghost damaged_is: { damaged.items ≡ indices_passing is_damaged_class 0 opened.value.classes },
    pub ghost compressed_is: { compressed.items ≡ indices_passing is_compressed_class 0 opened.value.classes },
}

impl KnownFile {
    /// What is known of a file that was mounted.
    pub(crate) fn of(alloc: Global, opened: &Opened) -> Result<KnownFile, OutOfMemory>
        requires sound { IsSoundOpened opened.now }
        ensures opened { IfOk result (λ known. known.opened.value ≡ opened.now) }
    {
        // An index of it fits in its type.
        let _count = opened.areas.geometry.data_blocks() + opened.areas.geometry.hash_blocks();
        let damaged = damaged_in(alloc, opened.classes.as_slice())?;
        let compressed = compressed_in(alloc, opened.classes.as_slice())?;
        Ok(KnownFile {
            opened: Snapshot::of(opened),
            id: opened.header.id,
            root: opened.root(),
            geometry: opened.areas.geometry,
            damaged,
            compressed,
        })
    }
}

fn is_damaged(class: Class) -> bool
    ensures value { result ≡ is_damaged_class class }
{
    matches!(class, Class::Damaged)
}

fn is_compressed(class: Class) -> bool
    ensures value { result ≡ is_compressed_class class }
{
    matches!(class, Class::Compressed)
}

/// The indices of the classes that are damaged.
#[tactic(auto, using(inc_cell::proofs::steps::BookLemmas::passing_there, inc_cell::proofs::steps::BookLemmas::passing_not))]
fn damaged_in(alloc: Global, classes: &[Class]) -> Result<Vec<u32>, OutOfMemory>
    requires few { length classes.now < 2 ^ 32 }
    ensures value { IfOk result (λ indices. indices.items ≡ indices_passing is_damaged_class 0 classes.now) }
{
    let mut indices = Vec::new(alloc);
    for (index, class) in classes.iter().enumerate() {
        if is_damaged(*class) {
            indices.push(index as u32)?;
        }
    }
    Ok(indices)
}

/// The indices of the classes that are compressed.
#[tactic(auto, using(inc_cell::proofs::steps::BookLemmas::passing_there, inc_cell::proofs::steps::BookLemmas::passing_not))]
fn compressed_in(alloc: Global, classes: &[Class]) -> Result<Vec<u32>, OutOfMemory>
    requires few { length classes.now < 2 ^ 32 }
    ensures value { IfOk result (λ indices. indices.items ≡ indices_passing is_compressed_class 0 classes.now) }
{
    let mut indices = Vec::new(alloc);
    for (index, class) in classes.iter().enumerate() {
        if is_compressed(*class) {
            indices.push(index as u32)?;
        }
    }
    Ok(indices)
}
