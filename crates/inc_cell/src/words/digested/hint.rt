// A block that may have been hashed before.
ghost use Rattle.std.specs.Prelude.{◌≡◌, ◌≤◌, IfSome};
ghost use Rattle.sha2.specs.Sha256.{sha256};
ghost use Rattle.inc_cell.specs.device.Digested.{digested};

use crate::Digested;
use crate::words::digested::group::clear_end;
use inc_tree::{Block, Digest32};

impl Digested {
    /// The same as `of`, by one who may have hashed the block before: where the hint has its 4096 bytes they aren't hashed again.
    pub fn hinted(block: Block, len: u32, hint: Option<&Digested>) -> Digested
        requires { len ≤ 4096 }
        ensures value { result ≡ digested block len }
    {
        let mut block = block;
        clear_end(&mut block, len);
        match digest_in(hint, &block) {
            Some(digest) => Digested::hashed(block, len, digest),
            None => Digested::of(block, len),
        }
    }
}

/// The digest of these bytes, where the hint has them too.
#[tactic(auto, using(crate::proofs::handing::GroupLemmas::hint_hashed))]
fn digest_in(hint: Option<&Digested>, block: &Block) -> Option<Digest32>
    ensures value { IfSome result (λ digest. digest ≡ sha256 block.now) }
{
    match hint {
        Some(hint) if hint.bytes() == block.as_slice() => Some(hint.digest()),
        _ => None,
    }
}
