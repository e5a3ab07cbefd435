ghost use Rattle.std.specs.Prelude.{◌≡◌, ◌≤◌, ◌^◌, length, is_some, IfErr, IfOk, IfSome, Ok};
ghost use Rattle.inc_io.specs.Causes.{HasCauseAt};
ghost use Rattle.inc_header.specs.Header.{IsHeader};
ghost use Rattle.inc_md.specs.Inside.{AreRecordsInside};
ghost use Rattle.inc_signature.specs.Signature.{signature_of};
ghost use Rattle.inc_layout.specs.opening.Faults.{GivesOpening, IsOwnFault};
ghost use Rattle.inc_layout.specs.fixed.Fixed.{IsHeaderOf, blob_in, blob_span, fixed_of, sig_in, with_chain, with_plain};
ghost use Rattle.inc_entry.specs.Spans.{IsInside};
ghost use Rattle.inc_layout.specs.fixed.Told.{GivesBlob, GivesFixed, GivesFront, IsPlaced};
ghost use Rattle.inc_layout.specs.declared.fault.LayoutFault.TheVariants.{ReadFault as read_fault};

use crate::LayoutFault;
use crate::room::{fill, room_of};
use inc_header::{HEADER_LEN, read_header};
use inc_io::Backing;
use inc_md::{Records, SigRecord, walk};
use inc_signature::{SigInfo, parse};
use std::alloc::Global;

mod judging;
mod part;
mod places;
mod plain;

use judging::{check_blob, plain_front};
pub use part::{FixedPart, Front};
use places::with_areas;
use plain::PlainFront;

/// The most bytes of a backing file.
const MOST_LENGTH: u64 = 1 << 47;

/// Reads and judges the part of a file that no fill changes.
pub fn open_fixed<B: Backing>(alloc: Global, file: &mut B) -> Result<FixedPart, LayoutFault>
    ensures answer { IfSome (B.reads (B.kept file.old)) (λ bytes. GivesFixed (length bytes) result (fixed_of bytes)) }
    ensures placed { IfOk result (λ part. IsPlaced part) }
    ensures short { IfOk result (λ part. part.areas.len ≤ 2 ^ 47) }
    ensures kept { B.kept file.new ≡ B.kept file.old }
    ensures cause { HasCauseAt read_fault (B.faults file.old) (B.faults file.new) result }
    ensures own { IfErr result (λ fault. IsOwnFault fault) }
{
    let front = read_front(file)?;
    let plain = plain_front(front)?;
    open_chain(alloc, file, plain)
}

/// Reads a file's length and header, which may be that of a mapped file, and nothing else.
pub fn read_front<B: Backing>(file: &mut B) -> Result<Front, LayoutFault>
    // The answer is computed so.
    ensures answer { IfSome (B.reads (B.kept file.old)) (λ bytes. GivesFront bytes result) }
    // In words it is what the first bytes spell.
    ensures stands { IfSome (B.reads (B.kept file.old)) (λ bytes. IfOk result (λ front. IsHeaderOf bytes front.header)) }
    // Whether the bytes are told or not, it is a header that has a spelling.
    ensures spelled { IfOk result (λ front. IsHeader front.header) }
    ensures short { IfOk result (λ front. front.len ≤ 2 ^ 47) }
    ensures kept { B.kept file.new ≡ B.kept file.old }
    ensures cause { HasCauseAt read_fault (B.faults file.old) (B.faults file.new) result }
    ensures own { IfErr result (λ fault. IsOwnFault fault) }
{
    let len = file.len()?;
    if len > MOST_LENGTH {
        return Err(LayoutFault::TooLong);
    }
    let mut room = [0; HEADER_LEN];
    let count = file.read_at(0, &mut room)?;
    let header = read_header(&room[..count])?;
    Ok(Front { header, len })
}

/// What comes after the header.
#[tactic(auto, using(crate::proofs::fixed_part::OwnFaults::own_chain))]
fn open_chain<B: Backing>(
    alloc: Global,
    file: &mut B,
    plain: PlainFront,
) -> Result<FixedPart, LayoutFault>
    requires { IfSome (B.reads (B.kept file.old)) (λ bytes. plain.len ≡ length bytes) }
    ensures answer { IfSome (B.reads (B.kept file.old)) (λ bytes. GivesFixed plain.len result (with_plain bytes (Ok plain.header))) }
    ensures placed { IfOk result (λ part. IsPlaced part) }
    ensures len { IfOk result (λ part. part.areas.len ≡ plain.len) }
    ensures kept { B.kept file.new ≡ B.kept file.old }
    ensures cause { HasCauseAt read_fault (B.faults file.old) (B.faults file.new) result }
    ensures own { IfErr result (λ fault. IsOwnFault fault) }
{
    let needs_map = plain.flat.data_blocks() > 0;
    let records = walk(alloc, file, plain.len, plain.first, needs_map)?;
    open_signature(alloc, file, plain, records)
}

/// What comes after the chain.
fn open_signature<B: Backing>(
    alloc: Global,
    file: &mut B,
    plain: PlainFront,
    records: Records,
) -> Result<FixedPart, LayoutFault>
    requires len { IfSome (B.reads (B.kept file.old)) (λ bytes. plain.len ≡ length bytes) }
    requires inside { AreRecordsInside plain.len records }
    ensures answer { IfSome (B.reads (B.kept file.old)) (λ bytes. GivesFixed plain.len result (with_chain bytes plain.header (Ok records))) }
    ensures placed { IfOk result (λ part. IsPlaced part) }
    ensures len { IfOk result (λ part. part.areas.len ≡ plain.len) }
    ensures kept { B.kept file.new ≡ B.kept file.old }
    ensures cause { HasCauseAt read_fault (B.faults file.old) (B.faults file.new) result }
    ensures own { IfErr result (λ fault. IsOwnFault fault) }
{
    let sig = read_sig(alloc, file, plain.len, records.signature)?;
    with_areas(alloc, plain, records, sig)
}

/// The signature of a signed file.
fn read_sig<B: Backing>(
    alloc: Global,
    file: &mut B,
    len: u64,
    signature: Option<SigRecord>,
) -> Result<Option<SigInfo>, LayoutFault>
    requires { IfSome (B.reads (B.kept file.old)) (λ bytes. len ≡ length bytes) }
    ensures answer { IfSome (B.reads (B.kept file.old)) (λ bytes. GivesOpening result (sig_in bytes signature)) }
    ensures signed { IfOk result (λ sig. is_some signature ≡ is_some sig) }
    ensures kept { B.kept file.new ≡ B.kept file.old }
    ensures cause { HasCauseAt read_fault (B.faults file.old) (B.faults file.new) result }
    ensures own { IfErr result (λ fault. IsOwnFault fault) }
{
    let Some(signature) = signature else {
        return Ok(None);
    };
    check_blob(&signature, len)?;
    Ok(Some(read_blob(alloc, file, &signature)?))
}

#[tactic(auto, using(crate::proofs::fixed_part::OwnFaults::own_signature))]
fn read_blob<B: Backing>(
    alloc: Global,
    file: &mut B,
    signature: &SigRecord,
) -> Result<SigInfo, LayoutFault>
    ensures answer { IfSome (B.reads (B.kept file.old)) (λ bytes. IsInside (length bytes) (blob_span signature.now) →
        GivesBlob result (signature_of (blob_in bytes signature.now))) }
    ensures kept { B.kept file.new ≡ B.kept file.old }
    ensures cause { HasCauseAt read_fault (B.faults file.old) (B.faults file.new) result }
    ensures own { IfErr result (λ fault. IsOwnFault fault) }
{
    let mut blob = room_of(alloc, signature.sig_size as usize)?;
    if signature.sig_size > 0 {
        fill(file, signature.sig_at, blob.as_mut_slice())?;
    }
    Ok(parse(alloc, blob.as_slice())?)
}
