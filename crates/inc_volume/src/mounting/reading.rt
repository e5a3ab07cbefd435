// What a volume tells of its files.
ghost use Rattle.std.specs.Prelude.{◌≡◌, option_map};
ghost use Rattle.std.specs.Str.{bytes_eq};
ghost use Rattle.inc_volume.specs.mounting.Cells.{AreDifferent, ids_in, names_in};
ghost use Rattle.inc_volume.specs.mounting.Targets.{part_in_file, shown_by};

use crate::mounting::target::Target;
use crate::mounting::volume::Volume;
use inc_io::Name;
use inc_layout::Mounted;
use inc_mapped::MappedFile;

impl<D> Volume<D> {
    /// The files, each with its name. Their disks are the caller's to give back.
    pub fn cells(self) -> Vec<(Name, Mounted<D>)>
        ensures value { result.items ≡ self.files.items }
        ensures names { AreDifferent (names_in result.items) }
        ensures ids { AreDifferent (ids_in result.items) }
    {
        let Volume { files, targets: _ } = self;
        files
    }

    /// The original of a mapped name, and what the name shows of it. There is none exactly where the name isn't one of the mapped names.
    pub fn mapped(&self, name: &Name) -> Option<(&Name, &MappedFile)>
        ensures value { option_map (λ shown. (shown.0.now, shown.1.now)) result ≡ shown_by self.now.targets name.now }
    {
        shown_by(self.targets.as_slice(), name)
    }
}

fn shown_by<'a>(targets: &'a [Target], name: &Name) -> Option<(&'a Name, &'a MappedFile)>
    ensures value { option_map (λ shown. (shown.0.now, shown.1.now)) result ≡ shown_by targets.now name.now }
{
    let mut rest = targets;
    while let [target, after @ ..] = rest {
        if is_same(target.name.as_str(), name.as_str()) {
            return part_in_file(target);
        }
        rest = after;
    }
    None
}

fn part_in_file(target: &Target) -> Option<(&Name, &MappedFile)>
    ensures value { option_map (λ shown. (shown.0.now, shown.1.now)) result ≡ part_in_file target.now.file target.now.part }
{
    match &target.part {
        Some(part) => Some((&target.file, part)),
        None => None,
    }
}

fn is_same(name: &str, other: &str) -> bool
    ensures value { result ≡ bytes_eq name.now other.now }
{
    name == other
}
