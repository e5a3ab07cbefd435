// The files of a volume, whose disks go back to their shelf.
ghost use Rattle.std.specs.Prelude.{◌≡◌, option_map};
ghost use Rattle.std.specs.List.{list_any};
ghost use Rattle.std.specs.Str.{bytes_eq};
ghost use Rattle.inc_io.specs.Causes.{Joins};
ghost use Rattle.inc_io.specs.Outside.{NoneOut};
ghost use Rattle.inc_volume.specs.mounting.Cells.{AreDifferent, AreOut, faults_in, ids_in, names_in, returned};

use inc_bytes::Id;
use inc_disk::Shelf;
use inc_io::Name;
use inc_layout::Mounted;

/// Gives all disks back. The names that are out are theirs, in this order.
pub fn give_back<S: Shelf>(shelf: &mut S, cells: Vec<(Name, Mounted<S::Disk>)>)
    requires distinct { AreDifferent (names_in cells.items) }
    requires out { AreOut (S.out shelf.old) (names_in cells.items) }
    ensures back { NoneOut (S.out shelf.new) }
    ensures logged { S.log (S.kept shelf.new) ≡ option_map (returned (λ disk. S.Disk.states (S.Disk.kept disk)) cells.items) (S.log (S.kept shelf.old)) }
    ensures cause { Joins (S.faults shelf.old) (faults_in S.Disk.faults cells.items) (S.faults shelf.new) }
{
    let mut cells = cells;
    while !cells.is_empty() {
        let (name, mounted) = cells.remove(0);
        let Mounted { disk, opened: _ } = mounted;
        shelf.close_disk(&name, disk);
    }
    cells.destroy_empty();
}

/// Whether a file with this name is among these.
pub fn has_name<D>(cells: &[(Name, Mounted<D>)], name: &Name) -> bool
    ensures value { result ≡ list_any (bytes_eq name.now) (names_in cells.now) }
{
    let mut rest = cells;
    while let [cell, after @ ..] = rest {
        if is_same_name(name.as_str(), cell.0.as_str()) {
            return true;
        }
        rest = after;
    }
    false
}

/// Whether a file with this id is among these.
pub fn has_id<D>(cells: &[(Name, Mounted<D>)], id: &Id) -> bool
    ensures value { result ≡ list_any (bytes_eq id.now) (ids_in cells.now) }
{
    let mut rest = cells;
    while let [cell, after @ ..] = rest {
        if is_same_id(id.as_slice(), cell.1.opened.header.id.as_slice()) {
            return true;
        }
        rest = after;
    }
    false
}

fn is_same_name(name: &str, other: &str) -> bool
    ensures value { result ≡ bytes_eq name.now other.now }
{
    name == other
}

fn is_same_id(id: &[u8], other: &[u8]) -> bool
    ensures value { result ≡ bytes_eq id.now other.now }
{
    id == other
}
