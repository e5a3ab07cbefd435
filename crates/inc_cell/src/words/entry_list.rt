ghost use Rattle.std.specs.Prelude.{◌≡◌};

use inc_model::Entry;
use std::marker::Model;

/// The history of a file, as its cell kept it: there is no other way to make one.
#[derive(Drop)]
pub struct EntryList {
    items: Vec<Entry>,
}

impl Model for EntryList {
    ghost use Rattle.std.specs.Prelude.{List};
    ghost use Rattle.inc_model.specs.declared.words.reply.Entry.{Entry};

    ghost Value = { List Entry };

    ghost view = { λ entries. entries.items.items };
}

impl EntryList {
    /// The vector's entries. It takes no memory.
    pub(crate) fn from_vec(items: Vec<Entry>) -> EntryList
        ensures value { result ≡ items.items }
    {
        EntryList { items }
    }

    pub fn as_slice(&self) -> &[Entry]
        ensures value { result.now ≡ self.now }
    {
        self.items.as_slice()
    }
}
