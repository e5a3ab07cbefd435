// The words by which a name is refused.
ghost use Rattle.std.specs.Prelude.{◌≡◌, ◌≢◌, IfOk, IfErr, Ok, Err};
ghost use Rattle.inc_layout.specs.opening.Faults.{IsOwnFault};
ghost use Rattle.inc_layout.specs.declared.fault.LayoutFault.TheVariants.{ReadFault as layout_read_fault};
ghost use Rattle.inc_words.specs.Refusals.{bad_range, chain_word, exists, header_word, layout_word, missing, no_original, past_original, root_differs, same_id, signature_word, too_large, too_long, unknown_file, unsigned};
ghost use Rattle.inc_words.specs.declared.stop.Stop.TheVariants.{Fault as stop_fault};

use crate::stop::Stop;
use inc_header::HeaderFault;
use inc_layout::LayoutFault;
use inc_md::ChainFault;
use inc_signature::SigFault;

#[tactic(auto, unfolding(crate::specs::Refusals::missing))]
pub fn missing() -> &'static [u8]
    ensures value { result.now ≡ missing }
{
    b"missing"
}

#[tactic(auto, unfolding(crate::specs::Refusals::exists))]
pub fn exists() -> &'static [u8]
    ensures value { result.now ≡ exists }
{
    b"exists"
}

#[tactic(auto, unfolding(crate::specs::Refusals::too_large))]
pub fn too_large() -> &'static [u8]
    ensures value { result.now ≡ too_large }
{
    b"too-large"
}

#[tactic(auto, unfolding(crate::specs::Refusals::root_differs))]
pub fn root_differs() -> &'static [u8]
    ensures value { result.now ≡ root_differs }
{
    b"root-differs"
}

#[tactic(auto, unfolding(crate::specs::Refusals::unsigned))]
pub fn unsigned() -> &'static [u8]
    ensures value { result.now ≡ unsigned }
{
    b"unsigned"
}

#[tactic(auto, unfolding(crate::specs::Refusals::too_long))]
pub fn too_long() -> &'static [u8]
    ensures value { result.now ≡ too_long }
{
    b"too-long"
}

/// Of a stream's piece that is another file's.
#[tactic(auto, unfolding(crate::specs::Refusals::unknown_file))]
pub fn unknown_file() -> &'static [u8]
    ensures value { result.now ≡ unknown_file }
{
    b"unknown-file"
}

#[tactic(auto, unfolding(crate::specs::Refusals::bad_range))]
pub fn bad_range() -> &'static [u8]
    ensures value { result.now ≡ bad_range }
{
    b"bad-range"
}

/// Of a file whose id another one keeps.
#[tactic(auto, unfolding(crate::specs::Refusals::same_id))]
pub fn same_id() -> &'static [u8]
    ensures value { result.now ≡ same_id }
{
    b"same-id"
}

/// Of a mapped file whose original isn't there.
#[tactic(auto, unfolding(crate::specs::Refusals::no_original))]
pub fn no_original() -> &'static [u8]
    ensures value { result.now ≡ no_original }
{
    b"no-original"
}

/// Of a mapped file whose part would end past its original.
#[tactic(auto, unfolding(crate::specs::Refusals::past_original))]
pub fn past_original() -> &'static [u8]
    ensures value { result.now ≡ past_original }
{
    b"past-original"
}

/// The word of a file's refusal. What failed outside of the file stops the command.
#[tactic(auto, unfolding(crate::specs::Refusals::layout_word))]
pub fn layout_word(fault: LayoutFault) -> Result<&'static [u8], Stop>
    requires { IsOwnFault fault }
    ensures word { IfOk result (λ word. layout_word fault ≡ Ok word.now) }
    ensures stop { IfErr result (λ stop. layout_word fault ≡ Err stop) }
    ensures fault { result ≡ Err stop_fault → fault ≡ layout_read_fault }
    ensures failed { fault ≡ layout_read_fault → result ≡ Err stop_fault }
{
    match fault {
        LayoutFault::Header(fault) => Ok(header_word(fault)),
        LayoutFault::Chain(fault) => Ok(chain_word(fault)),
        LayoutFault::Signature(fault) => signature_word(fault),
        LayoutFault::TooLong => Ok(b"too-long"),
        LayoutFault::Mapped => Ok(b"mapped"),
        LayoutFault::TooLarge => Ok(b"too-large"),
        LayoutFault::SignatureOutside => Ok(b"signature-outside"),
        LayoutFault::MapCount { .. } => Ok(b"map-count"),
        LayoutFault::MapOutside => Ok(b"map-outside"),
        LayoutFault::TreeSize { .. } => Ok(b"tree-size"),
        LayoutFault::TreeOutside => Ok(b"tree-outside"),
        LayoutFault::Overlap => Ok(b"overlap"),
        LayoutFault::PlacePastEnd { .. } => Ok(b"place-past-end"),
        LayoutFault::ReadFault => Err(Stop::Fault),
        LayoutFault::OutOfMemory => Err(Stop::OutOfMemory),
    }
}

#[tactic(auto, unfolding(crate::specs::Refusals::header_word))]
fn header_word(fault: HeaderFault) -> &'static [u8]
    ensures value { result.now ≡ header_word fault }
{
    match fault {
        HeaderFault::Short => b"short",
        HeaderFault::BadMagic => b"bad-magic",
        HeaderFault::BadVersion => b"bad-version",
        HeaderFault::BadHeaderSize => b"bad-header-size",
        HeaderFault::BadBlockSize => b"bad-block-size",
        HeaderFault::BadFlags => b"bad-flags",
        HeaderFault::BadMapping => b"bad-mapping",
    }
}

/// A failing device and want of memory are told of the whole file, never of its chain.
#[tactic(auto, unfolding(crate::specs::Refusals::chain_word))]
fn chain_word(fault: ChainFault) -> &'static [u8]
    requires { IsOwnFault (LayoutFault.Chain fault) }
    ensures value { chain_word fault ≡ Ok result.now }
{
    match fault {
        ChainFault::Outside { .. } => b"outside",
        ChainFault::NotRising { .. } => b"not-rising",
        ChainFault::BadSize { .. } => b"bad-size",
        ChainFault::TwoMaps { .. } => b"two-maps",
        ChainFault::NoMap => b"no-map",
        ChainFault::TwoSignatures { .. } => b"two-signatures",
        ChainFault::TooMany => b"too-many",
        ChainFault::ReadFault | ChainFault::OutOfMemory => unreachable!(),
    }
}

/// The word of a signature blob's refusal.
#[tactic(auto, unfolding(crate::specs::Refusals::signature_word))]
pub fn signature_word(fault: SigFault) -> Result<&'static [u8], Stop>
    ensures word { IfOk result (λ word. signature_word fault ≡ Ok word.now) }
    ensures stop { IfErr result (λ stop. signature_word fault ≡ Err stop) }
    ensures judged { result ≢ Err stop_fault }
{
    match fault {
        SigFault::Short => Ok(b"signature-short"),
        SigFault::BadVersion => Ok(b"signature-bad-version"),
        SigFault::BadAlgorithm => Ok(b"signature-bad-algorithm"),
        SigFault::BadBlockSize => Ok(b"signature-bad-block-size"),
        SigFault::Salted => Ok(b"signature-salted"),
        SigFault::BadRootSize => Ok(b"signature-bad-root-size"),
        SigFault::Trailing => Ok(b"signature-trailing"),
        SigFault::TooLong => Ok(b"signature-too-long"),
        SigFault::OutOfMemory => Err(Stop::OutOfMemory),
    }
}
