use inc_bytes::Rows;
use inc_io::Name;
use inc_mapped::MappedFile;

/// Which file is mounted for a name: that of the name itself, or the original of a mapped one.
#[derive(Drop)]
pub struct Target {
    pub name: Name,
    pub file: Name,
    /// What the name shows of its original, where it is a mapped one.
    pub part: Option<MappedFile>,
}

/// The targets of names, in the order of the names.
pub type TargetList = Rows<Target>;
