ghost use Rattle.std.specs.Prelude.{◌≡◌, ◌⊎◌, ◌<◌, ℕ, false, length, IfOk, IfErr, IfSome, Err};
ghost use Rattle.inc_io.specs.Causes.{HasCauseAt};
ghost use Rattle.inc_entry.specs.Entry.{area_places, areas_of, entries};
ghost use Rattle.inc_entry.specs.Spans.{AreApart};
ghost use Rattle.inc_entry.specs.Stored.{is_past};
ghost use Rattle.inc_layout.specs.Backing.{IsBackingFile, IsLaidOut, laid_of, layout_in, opened_of, opened_with};
ghost use Rattle.inc_layout.specs.opening.Faults.{GivesOpening, IsOwnFault};
ghost use Rattle.inc_layout.specs.opening.Opening.{Accepts, IsLeastPast, IsSoundLayout, IsSoundOpened, layout_with};
ghost use Rattle.inc_layout.specs.declared.fault.LayoutFault.TheVariants.{OutOfMemory as out_of_memory, ReadFault as read_fault};
ghost use Rattle.inc_layout.specs.declared.opened.Layout.{Layout};
ghost use Rattle.inc_layout.specs.declared.opened.Opened.{Opened};

mod block_map;
mod stored;

use crate::fixed::{FixedPart, open_fixed};
use crate::{ClassList, DigestList, Layout, LayoutFault, Opened};
use block_map::read_classes;
use inc_entry::Class;
use inc_io::Backing;
use inc_tree::Digest32;
use std::alloc::Global;
use stored::read_digests;

/// Opens any backing file without reading a block of it, or answers the first test that it fails.
///
/// It reads the header once, each record at most twice, the signature blob once, and the block map in pieces of at most 64 KiB.
pub fn open_shape<B: Backing>(alloc: Global, file: &mut B) -> Result<Layout, LayoutFault>
    // The answer is computed so.
    ensures answer { IfSome (B.reads (B.kept file.old)) (λ bytes. GivesOpening result (laid_of bytes)) }
    // In words the file stands, and this is what it tells without its digests.
    ensures stands { IfSome (B.reads (B.kept file.old)) (λ bytes. IfOk result (λ layout. IsLaidOut bytes layout)) }
    // Each file that stands is taken.
    ensures accepted { IfSome (B.reads (B.kept file.old)) (λ bytes. (wanted : Layout) → IsLaidOut bytes wanted → Accepts result wanted) }
    // Of the entries that name a block past the end the fault tells the least.
    ensures least { IfSome (B.reads (B.kept file.old)) (λ bytes. (i : ℕ) → result ≡ Err (LayoutFault.PlacePastEnd i) → IsLeastPast bytes i) }
    ensures areas { IfOk result (λ layout. IsSoundLayout layout) }
    ensures kept { B.kept file.new ≡ B.kept file.old }
    ensures cause { HasCauseAt read_fault (B.faults file.old) (B.faults file.new) result }
    ensures own { IfErr result (λ fault. IsOwnFault fault) }
{
    let part = open_fixed(alloc, file)?;
    let classes = read_classes(alloc, file, &part.areas)?;
    Ok(laid_out(part, classes))
}

/// Opens any backing file, or answers the first test that it fails.
///
/// It reads each stored block once behind what `open_shape` reads, and keeps no more of it than its digest.
pub fn open_layout<B: Backing>(alloc: Global, file: &mut B) -> Result<Opened, LayoutFault>
    // The answer is computed so.
    ensures answer { IfSome (B.reads (B.kept file.old)) (λ bytes. GivesOpening result (opened_of bytes)) }
    // In words it is a backing file, and this is what it tells.
    ensures stands { IfSome (B.reads (B.kept file.old)) (λ bytes. IfOk result (λ opened. IsBackingFile bytes opened)) }
    // Each backing file is taken.
    ensures accepted { IfSome (B.reads (B.kept file.old)) (λ bytes. (wanted : Opened) → IsBackingFile bytes wanted → Accepts result wanted) }
    // Of the entries that name a block past the end the fault tells the least.
    ensures least { IfSome (B.reads (B.kept file.old)) (λ bytes. (i : ℕ) → result ≡ Err (LayoutFault.PlacePastEnd i) → IsLeastPast bytes i) }
    // No entry would be open in a longer file.
    ensures none_past { IfSome (B.reads (B.kept file.old)) (λ bytes. IfOk result (λ opened. (i : ℕ) → i < entries (area_places opened.areas) →
        is_past (area_places opened.areas) bytes i ≡ false)) }
    // No byte lies in two areas.
    ensures apart { IfOk result (λ opened. AreApart (areas_of (area_places opened.areas))) }
    ensures areas { IfOk result (λ opened. IsSoundOpened opened) }
    ensures kept { B.kept file.new ≡ B.kept file.old }
    ensures cause { HasCauseAt read_fault (B.faults file.old) (B.faults file.new) result }
    ensures own { IfErr result (λ fault. IsOwnFault fault) }
{
    let layout = open_shape(alloc, file)?;
    open_digests(alloc, file, layout)
}

/// Reads each stored block of a file that was laid out once, and keeps its digest: what `open_layout` does behind `open_shape`. Who may refuse
/// the file by its layout does so before.
#[tactic(auto, using(crate::proofs::fixed_part::OwnFaults::own_outside))]
pub fn open_digests<B: Backing>(
    alloc: Global,
    file: &mut B,
    layout: Layout,
) -> Result<Opened, LayoutFault>
    requires sound { IsSoundLayout layout }
    requires stands { IfSome (B.reads (B.kept file.old)) (λ bytes. IsLaidOut bytes layout) }
    ensures answer { IfSome (B.reads (B.kept file.old)) (λ bytes. GivesOpening result (opened_of bytes)) }
    ensures stands { IfSome (B.reads (B.kept file.old)) (λ bytes. IfOk result (λ opened. IsBackingFile bytes opened)) }
    ensures same { IfOk result (λ opened. layout_in opened ≡ layout) }
    ensures areas { IfOk result (λ opened. IsSoundOpened opened) }
    ensures failed { IfErr result (λ fault. (fault ≡ read_fault) ⊎ (fault ≡ out_of_memory)) }
    ensures own { IfErr result (λ fault. IsOwnFault fault) }
    ensures kept { B.kept file.new ≡ B.kept file.old }
    ensures cause { HasCauseAt read_fault (B.faults file.old) (B.faults file.new) result }
{
    let digests = read_digests(alloc, file, &layout.areas, layout.classes.as_slice())?;
    Ok(opened(layout, digests))
}

/// Puts together what was read.
fn laid_out(part: FixedPart, classes: Vec<Class>) -> Layout
    ensures value { result ≡ layout_with part classes.items }
{
    let FixedPart {
        header,
        records,
        sig,
        areas,
    } = part;
    let len = areas.len;
    Layout {
        header,
        records,
        sig,
        areas,
        classes: ClassList::from_vec(classes),
        len,
    }
}

/// A layout with the digests of its stored blocks.
fn opened(layout: Layout, digests: Vec<Option<Digest32>>) -> Opened
    ensures value { result ≡ opened_with layout digests.items }
{
    let Layout {
        header,
        records,
        sig,
        areas,
        classes,
        len,
    } = layout;
    Opened {
        header,
        records,
        sig,
        areas,
        classes,
        digests: DigestList::from_vec(digests),
        len,
    }
}
