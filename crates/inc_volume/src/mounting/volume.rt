ghost use Rattle.std.specs.Prelude.{◌≡◌};
ghost use Rattle.inc_volume.specs.mounting.Cells.{AreDifferent, ids_in, names_in};

use crate::mounting::target::TargetList;
use inc_io::Name;
use inc_layout::Mounted;

/// Files that are mounted together, with their disks. No two of them have one name or one id.
#[derive(Drop)]
pub struct Volume<D> {
    /// Each file under its name.
    pub files: Vec<(Name, Mounted<D>)>,
    /// Which of the files each of the names asks for.
    pub targets: TargetList,
    ghost names: { AreDifferent (names_in files.items) },
    ghost ids: { AreDifferent (ids_in files.items) },
}
