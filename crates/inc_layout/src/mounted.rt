use crate::Opened;

/// A backing file that is open for reads and fills: its disk, and what was found in it.
#[derive(Drop)]
pub struct Mounted<D> {
    pub disk: D,
    pub opened: Opened,
}
