//! A block as it is read: its path up to the root is checked, or it is marked as one that nothing vouches for.

mod path;
mod shown;
mod unproved;
mod verified;

pub use path::{Broken, check_path, slot_digest};
pub use shown::Shown;
pub use unproved::Unproved;
pub use verified::{Verified, verify, verify_digested};
