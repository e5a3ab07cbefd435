// What stays of a chain while the rest of its file changes, as the contract of a function that does nothing.
ghost use Rattle.inc_md.specs.Staying.{ChainStays};

/// A file that agrees with another on the bytes of its records, but for the status record's two counts, and is no shorter has the same
/// chain. So a fill, which changes these counts and adds bytes, leaves it.
pub fn chain_stays()
    ensures stays { ChainStays }
{}
