//! A block of an opened file: read by its entry and its path, or checked without being given.

mod block;
mod checking;
mod static_error;
mod static_read;
mod stored_error;

pub use block::read_stored;
pub use checking::{KeptPath, check_opened};
pub use static_error::StaticError;
pub use static_read::{read_laid, read_opened, show_laid, show_opened};
pub use stored_error::StoredError;
