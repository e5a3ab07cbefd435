ghost use Rattle.std.specs.Prelude.{◌≡◌};
ghost use Rattle.inc_layout.specs.Backing.{sig_root};

use inc_bytes::Rows;
use inc_entry::{Areas, Class};
use inc_header::Header;
use inc_md::Records;
use inc_signature::SigInfo;
use inc_tree::Digest32;

/// The classes of a file's entries, first those of its data blocks.
pub type ClassList = Rows<Class>;

/// The digests of a file's stored blocks, by the indices of their entries.
pub type DigestList = Rows<Option<Digest32>>;

/// A backing file whose entries were judged and whose blocks weren't read: where everything lies, and which blocks are there.
#[derive(Drop)]
pub struct Layout {
    pub header: Header,
    pub records: Records,
    /// There where the file is signed.
    pub sig: Option<SigInfo>,
    /// Where everything lies.
    pub areas: Areas,
    /// The class of each entry of the block map.
    pub classes: ClassList,
    /// The file's length in bytes.
    pub len: u64,
}

/// A backing file that was opened: all that its bytes tell.
#[derive(Drop)]
pub struct Opened {
    pub header: Header,
    pub records: Records,
    /// There where the file is signed.
    pub sig: Option<SigInfo>,
    /// Where everything lies.
    pub areas: Areas,
    /// The class of each entry of the block map.
    pub classes: ClassList,
    /// The digest of each stored block, there exactly where the class is `OpenAt`. Zeros after the block's end are hashed with it.
    pub digests: DigestList,
    /// The file's length in bytes.
    pub len: u64,
}

impl Layout {
    /// The root that proves the file's blocks, where it is signed.
    pub fn root(&self) -> Option<Digest32>
        ensures value { result ≡ sig_root self.now.sig }
    {
        sig_root(&self.sig)
    }
}

impl Opened {
    /// The root that proves the file's blocks, where it is signed.
    pub fn root(&self) -> Option<Digest32>
        ensures value { result ≡ sig_root self.now.sig }
    {
        sig_root(&self.sig)
    }
}

/// The root of a signature, where there is one.
pub fn sig_root(sig: &Option<SigInfo>) -> Option<Digest32>
    ensures value { result ≡ sig_root sig.now }
{
    match sig {
        Some(sig) => Some(sig.root),
        None => None,
    }
}
