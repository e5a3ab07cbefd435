ghost use Rattle.std.specs.Prelude.{◌≡◌};
ghost use Rattle.inc_header.specs.declared.header.HeaderKind.TheVariants.{Plain};
ghost use Rattle.inc_tree.specs.shape.Geometry.{flat_of, tree_of};

use inc_header::Header;
use inc_tree::Geometry;

/// The front of a plain file that isn't too large.
#[derive(Drop)]
pub struct PlainFront {
    pub header: Header,
    pub len: u64,
    /// The place of the first record.
    pub first: u64,
    /// The shape of the content under a tree.
    pub tree: Geometry,
    /// The shape of the content without one.
    pub flat: Geometry,
    pub ghost plain: { header.kind ≡ Plain first },
    pub ghost tree_is: { tree ≡ tree_of header.size },
    pub ghost flat_is: { flat ≡ flat_of header.size },
}
