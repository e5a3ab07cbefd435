use inc_bytes::Id;
use inc_io::Name;

/// A file of an index.
#[derive(Drop)]
pub struct Indexed {
    pub id: Id,
    pub name: Name,
    /// Whether all of its data blocks are there.
    pub complete: bool,
}
