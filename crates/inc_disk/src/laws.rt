// Laws of every disk's images, as contracts of functions that do nothing.
ghost use Rattle.std.specs.Prelude.{◌≡◌, ℕ, Bool, IsTrue, List, ◌∷◌, Result};
ghost use Rattle.inc_io.specs.declared.failed.Failed.{Failed};
ghost use Rattle.inc_disk.specs.Disk.{DiskState, Writes, Syncs};
ghost use Rattle.inc_disk.specs.Log.{Log};
ghost use Rattle.inc_disk.specs.Laws.{EachImage, HoldsSince, GoesOn, LeavesOnly, JoinsImages, KeepsOthers, SplitsAtMoment, SyncLeavesOne, SyncLeavesWhatItReads};

/// Over each call the images since a moment are those before it and those of now.
pub fn images_go_on()
    ensures kept { (old new : List DiskState) → new ≡ old → GoesOn old new }
    ensures written { (at : ℕ) (piece : List ℕ) (old new : List DiskState) (result : Result (Unit {0}) Failed) → Writes at piece old new result → GoesOn old new }
    ensures synced { (old new : List DiskState) (result : Result (Unit {0}) Failed) → Syncs old new result → GoesOn old new }
{}

/// What passes a test now, and since a moment until now, passes it since that moment. What was left since a moment was left before
/// some states or since the first of them.
pub fn images_since()
    ensures all { (moment : ℕ) (disk : DiskState) (past : List DiskState) (test : List ℕ → Bool) → HoldsSince moment past (λ image. IsTrue (test image))
        → EachImage disk (λ image. IsTrue (test image)) → HoldsSince moment (disk ∷ past) (λ image. IsTrue (test image)) }
    ensures split { SplitsAtMoment }
{}

/// Two runs of calls, one after the other, are a run. What passes one test and with it another passes the other at each moment.
pub fn runs_join()
    ensures joined { (old mid new : List DiskState) (test : List ℕ → Bool) → LeavesOnly old mid (λ image. IsTrue (test image))
        → LeavesOnly mid new (λ image. IsTrue (test image)) → LeavesOnly old new (λ image. IsTrue (test image)) }
    ensures weaker { (old new : List DiskState) (test other : List ℕ → Bool) → LeavesOnly old new (λ image. IsTrue (test image))
        → ((image : List ℕ) → IsTrue (test image) → IsTrue (other image)) → LeavesOnly old new (λ image. IsTrue (other image)) }
{}

/// After a sync the one image is what a read gives.
pub fn sync_leaves_one_image()
    ensures one { SyncLeavesOne }
    ensures reads { SyncLeavesWhatItReads }
{}

/// Over a call of a shelf that changes a name, its images are those that it had and those of its disk, and no other name's change.
#[tactic(auto, using(crate::proofs::LogLemmas::joins_images, crate::proofs::LogLemmas::keeps_others))]
pub fn a_returned_disk_joins_its_images()
    ensures joined { (name : List ℕ) (states : List DiskState) (log : Log) → JoinsImages name states log }
    ensures others { (name : List ℕ) (states : List DiskState) (log : Log) → KeepsOthers name states log }
{}
