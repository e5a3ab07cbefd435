//! Many files of one shelf: one verdict for each name, and files that are mounted together.
//!
//! A name's verdict follows from what stands on the shelf alone: a plain file is good where no file with a lower name keeps its id, and a
//! mapped file where a plain file keeps its original's id and is long enough. `survey` judges all names, and `judge` one of them, for
//! which it opens no file of another id beyond its header. Neither reads a block or changes anything. `mount` lends the disks of all files
//! that some names need, or gives all of them back.
#![tactic(auto)]

mod holder;
mod judging;
mod laws;
mod listing;
mod mounting;
mod standing;
mod verdict;

pub use holder::{Holder, find_holder};
pub use judging::judge;
pub use laws::standings_mean;
pub use listing::{VerdictList, survey};
pub use mounting::{MountRefusal, Target, TargetList, Volume, give_back, mount, unmount};
pub use standing::Standing;
pub use verdict::Verdict;

type OutOfMemory = std::alloc::AllocError;
