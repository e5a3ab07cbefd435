// What stays of a backing file while it is filled, and of its state while it is opened, as contracts of functions that do nothing.
ghost use Rattle.inc_layout.specs.state.Preserves.{KeepsPreserve};
ghost use Rattle.inc_layout.specs.state.Reopening.{HasParts, KindsAgree};
ghost use Rattle.inc_layout.specs.fixed.SameFixed.{FixedStays};

/// A file that agrees with another on header, records and blob, but for the status record's two counts, and is no shorter has the same
/// fixed part. So what a fill writes, and what a crash leaves of it, can't change where anything lies.
pub fn fixed_part_stays()
    ensures stays { FixedStays }
{}

/// Each opened file has the parts of a state, with which the file goes on once it is mounted.
pub fn opened_files_have_parts()
    ensures parts { HasParts }
{}

/// The state of an opened file says of each index what its class and its digest say.
pub fn kinds_agree()
    ensures agree { KindsAgree }
{}

/// Bytes that keep what is known of an opened file, byte by byte, are a file in which everything is kept: its fixed part, its blocks that
/// are there for good, and no block that isn't one.
pub fn kept_images_preserve()
    ensures preserves { KeepsPreserve }
{}
