ghost use Rattle.std.specs.Prelude.{◌≡◌, ◌≢◌, Ok, Err, IfOk, IfErr};
ghost use Rattle.inc_bytes.specs.Tests.{first_failing, judge};
ghost use Rattle.inc_entry.specs.Entry.{area_places, areas_of};
ghost use Rattle.inc_entry.specs.Spans.{are_apart, is_inside};
ghost use Rattle.inc_layout.specs.opening.Faults.{IsOwnFault};
ghost use Rattle.inc_layout.specs.fixed.Fixed.{area_tests, blob_span, blob_span_tests, plain_of};
ghost use Rattle.inc_layout.specs.declared.fault.LayoutFault.TheVariants.{ReadFault as read_fault};

use super::{Front, PlainFront};
use crate::LayoutFault;
use inc_bytes::Span;
use inc_entry::{Areas, is_clear};
use inc_header::HeaderKind;
use inc_md::SigRecord;
use inc_signature::{MOST_BLOB, SigFault};
use inc_tree::{BLOCK_SIZE, Geometry};

/// Takes the front of a plain file that isn't too large.
#[tactic(auto, unfolding(crate::specs::fixed::Fixed::plain_of))]
pub fn plain_front(front: Front) -> Result<PlainFront, LayoutFault>
    ensures answer { IfOk result (λ plain. plain_of front.header ≡ Ok plain.header) }
    ensures refused { IfErr result (λ fault. plain_of front.header ≡ Err fault) }
    ensures len { IfOk result (λ plain. plain.len ≡ front.len) }
    ensures judged { result ≢ Err read_fault }
    ensures own { IfErr result (λ fault. IsOwnFault fault) }
{
    let Front { header, len } = front;
    let HeaderKind::Plain { first } = header.kind else {
        return Err(LayoutFault::Mapped);
    };
    let Ok(tree) = Geometry::of(header.size) else {
        return Err(LayoutFault::TooLarge);
    };
    let Ok(flat) = Geometry::flat_of(header.size) else {
        return Err(LayoutFault::TooLarge);
    };
    Ok(PlainFront {
        header,
        len,
        first,
        tree,
        flat,
    })
}

/// Whether a span ends inside a file. An empty one does everywhere.
pub fn is_inside(span: Span, len: u64) -> bool
    ensures value { result ≡ is_inside len span }
{
    span.len == 0 || (span.len <= len && span.at <= len - span.len)
}

/// The bytes of the signature blob.
pub fn blob_span(signature: &SigRecord) -> Span
    ensures value { result ≡ blob_span signature.now }
{
    Span {
        at: signature.sig_at,
        len: signature.sig_size as u64,
    }
}

/// Whether the signature blob is short enough to be read.
#[tactic(auto, unfolding(crate::specs::fixed::Fixed::blob_span_tests))]
pub fn check_blob(signature: &SigRecord, len: u64) -> Result<(), LayoutFault>
    ensures value { result ≡ judge (first_failing (blob_span_tests len signature.now)) tt }
    ensures judged { result ≢ Err read_fault }
    ensures own { IfErr result (λ fault. IsOwnFault fault) }
{
    if signature.sig_size as usize > MOST_BLOB {
        return Err(LayoutFault::Signature(SigFault::TooLong));
    }
    if !is_inside(blob_span(signature), len) {
        return Err(LayoutFault::SignatureOutside);
    }
    Ok(())
}

/// Whether no byte lies in two of these spans.
pub fn are_apart(spans: &[Span]) -> bool
    ensures value { result ≡ are_apart spans.now }
{
    let mut rest = spans;
    while let [span, behind @ ..] = rest {
        if !is_clear(behind, span.at, span.len) {
            return false;
        }
        rest = behind;
    }
    true
}

/// Whether map and tree have their sizes, and everything its own place. `spans` are those of all areas.
#[tactic(auto, unfolding(crate::specs::fixed::Fixed::area_tests))]
pub fn check_areas(
    areas: &Areas,
    spans: &[Span],
    count: u32,
    tree_size: u32,
) -> Result<(), LayoutFault>
    requires { spans.now ≡ areas_of (area_places areas.now) }
    ensures value { result ≡ judge (first_failing (area_tests areas.now.len (area_places areas.now) count tree_size)) tt }
    ensures judged { result ≢ Err read_fault }
    ensures own { IfErr result (λ fault. IsOwnFault fault) }
{
    let blocks = areas.geometry.hash_blocks() as u64;
    let entries = areas.geometry.data_blocks() as u64 + blocks;
    if count as u64 != entries {
        return Err(LayoutFault::MapCount {
            wanted: entries,
            got: count,
        });
    }
    if !is_inside(areas.map_span(), areas.len) {
        return Err(LayoutFault::MapOutside);
    }
    let wanted = BLOCK_SIZE as u64 * blocks;
    if tree_size as u64 != wanted {
        return Err(LayoutFault::TreeSize {
            wanted,
            got: tree_size,
        });
    }
    if !is_inside(areas.tree_span(), areas.len) {
        return Err(LayoutFault::TreeOutside);
    }
    if !are_apart(spans) {
        return Err(LayoutFault::Overlap);
    }
    Ok(())
}
