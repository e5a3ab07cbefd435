// What a file says of itself, in the words of its layout and its header.
ghost use Rattle.std.specs.Prelude.{◌≡◌, ℕ, List};
ghost use Rattle.inc_header.specs.declared.header.Header.{Header};
ghost use Rattle.inc_header.specs.declared.header.HeaderKind.TheVariants.{Mapped as mapped_kind};
ghost use Rattle.inc_layout.specs.Backing.{IsLaidOut};
ghost use Rattle.inc_layout.specs.fixed.Fixed.{IsHeaderOf};
ghost use Rattle.inc_layout.specs.declared.opened.Layout.{Layout};
ghost use Rattle.inc_volume.specs.Standings.{plain_standing, standing_of};
ghost use Rattle.inc_volume.specs.declared.standing.Standing.TheVariants.{Part as part_standing};

/// A file that stands by a layout says what that layout tells, and one with a mapped header what the header does.
#[tactic(auto, using(crate::proofs::StandingMeaning::plain_stands, crate::proofs::StandingMeaning::part_stands))]
pub fn standings_mean()
    ensures plain { (bytes : List ℕ) (layout : Layout) → IsLaidOut bytes layout → standing_of bytes ≡ plain_standing layout }
    ensures part { (bytes : List ℕ) (header : Header) (offset : ℕ) → IsHeaderOf bytes header → header.kind ≡ mapped_kind offset
        → standing_of bytes ≡ part_standing header.id offset header.size }
{}
