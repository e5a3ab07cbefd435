use crate::entry::Entry;
use std::marker::Model;

/// The states of all files of a shelf in memory. It is named in clauses alone: the shelf holds its entries beside the room for those to come,
/// and how much room that is no clause on its files may see.
#[derive(Drop)]
pub struct ShelfLog {
    entries: Vec<Entry>,
}

impl Model for ShelfLog {
    ghost use Rattle.inc_disk.specs.Log.{Log};

    ghost Value = { Log };

    ghost use Rattle.inc_disk.specs.Book.{log_of};

    ghost view = { λ log. log_of log.entries.items };
}
