use inc_model::Entry;
use std::collections::LinkedList;

/// What a seat knows of its lock. No value of it is made: it stands in contracts alone.
pub struct View<F> {
    pub number: u32,
    /// It was joined into another seat.
    pub spent: bool,
    /// How many seats were made, where this is the first one.
    pub made: u32,
    pub ticket: Option<u64>,
    pub in_turn: bool,
    /// The turns that it has seen. A turn without an entry is an empty place.
    pub seen: LinkedList<Option<Entry>>,
    /// The history before all turns.
    pub base: LinkedList<Entry>,
    /// What no turn changes.
    pub footing: Option<F>,
    /// The seats that were joined into this one.
    pub past: LinkedList<PastSeat>,
}

/// A seat that was given back, and what it had seen.
pub struct PastSeat {
    pub number: u32,
    pub base: LinkedList<Entry>,
    pub seen: LinkedList<Option<Entry>>,
}
