use inc_entry::Areas;
use inc_header::Header;
use inc_md::Records;
use inc_signature::SigInfo;

/// What a file begins with: its header, be it plain or mapped. With it the file's length.
#[derive(Drop)]
pub struct Front {
    pub header: Header,
    pub len: u64,
}

/// The part of an opened file that no fill changes.
#[derive(Drop)]
pub struct FixedPart {
    pub header: Header,
    pub records: Records,
    /// There where the file is signed.
    pub sig: Option<SigInfo>,
    pub areas: Areas,
}
