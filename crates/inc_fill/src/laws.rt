// Laws of fills, as contracts of functions that do nothing.
ghost use Rattle.inc_fill.specs.Laws.{FoundFacts, OpenReads, ReleaseKeeps, WeakerKeeps};

/// A settled file has the facts with which a fill begins: its open blocks are there for good, each at the place that its entry names, and
/// nothing is on its way.
pub fn settled_files_can_be_filled()
    ensures found { FoundFacts }
{}

/// What is there for good, and what stands behind a written gate, reads as open at its spot.
pub fn open_blocks_are_read_at_their_spots()
    ensures reads { OpenReads }
{}

/// Fills may be given up at any stage: nothing is known of them afterwards, and all else is kept.
pub fn a_release_keeps_the_facts()
    ensures released { ReleaseKeeps }
{}

/// The facts may say more of an index than its fill goes by, and what they say of every image holds for less too.
pub fn a_weaker_kind_is_kept_too()
    ensures kept { WeakerKeeps }
{}
