ghost use Rattle.std.specs.Prelude.{◌≡◌, ◌≢◌, ◌++◌, ◌∷◌, [], is_some, if◌then◌else◌, IfErr, IfOk, Ok, Err};
ghost use Rattle.inc_entry.specs.Entry.{areas_of, area_places};
ghost use Rattle.inc_md.specs.Inside.{AreRecordsInside};
ghost use Rattle.inc_layout.specs.opening.Faults.{IsOwnFault};
ghost use Rattle.inc_layout.specs.fixed.Fixed.{blob_span, blob_spans, hash_base, hash_size, header_span, map_base, map_count, places_in, shape_for, with_sig};
ghost use Rattle.inc_layout.specs.fixed.Told.{GivesFixed, IsPlaced};
ghost use Rattle.inc_layout.specs.declared.fault.LayoutFault.TheVariants.{ReadFault as read_fault};

use super::judging::{blob_span, check_areas};
use super::{FixedPart, PlainFront};
use crate::{LayoutFault, OutOfMemory};
use inc_bytes::{Span, SpanList};
use inc_entry::Areas;
use inc_header::HEADER_LEN;
use inc_md::{MapRecord, Records, SigRecord};
use inc_signature::SigInfo;
use inc_tree::Geometry;
use std::alloc::Global;

/// Judges where everything lies, once all of it is read.
pub fn with_areas(
    alloc: Global,
    plain: PlainFront,
    records: Records,
    sig: Option<SigInfo>,
) -> Result<FixedPart, LayoutFault>
    requires signed { is_some records.signature ≡ is_some sig }
    requires inside { AreRecordsInside plain.len records }
    ensures answer { GivesFixed plain.len result (with_sig plain.len plain.header records (Ok sig)) }
    ensures placed { IfOk result (λ part. IsPlaced part) }
    ensures len { IfOk result (λ part. part.areas.len ≡ plain.len) }
    ensures judged { result ≢ Err read_fault }
    ensures own { IfErr result (λ fault. IsOwnFault fault) }
{
    let signature = records.signature;
    let PlainFront {
        header,
        len,
        tree,
        flat,
        ..
    } = plain;
    let areas = Areas {
        len,
        spans: fixed_spans(alloc, records.spans.as_slice(), signature)?,
        map_at: map_base(records.map),
        hash_at: hash_base(signature),
        geometry: shape_for(signature, tree, flat),
    };
    let spans = area_spans(alloc, &areas)?;
    check_areas(
        &areas,
        spans.as_slice(),
        map_count(records.map),
        hash_size(signature),
    )?;
    Ok(FixedPart {
        header,
        records,
        sig,
        areas,
    })
}

/// The shape of a signed file or of an unsigned one.
fn shape_for(signature: Option<SigRecord>, tree: Geometry, flat: Geometry) -> Geometry
    ensures value { result ≡ (if is_some signature then tree else flat) }
{
    match signature {
        Some(_) => tree,
        None => flat,
    }
}

/// The spans of header, records and blob.
fn fixed_spans(
    alloc: Global,
    records: &[Span],
    signature: Option<SigRecord>,
) -> Result<SpanList, OutOfMemory>
    ensures value { IfOk result (λ spans. spans ≡ header_span ∷ records.now ++ blob_spans signature) }
{
    let header = Span {
        at: 0,
        len: HEADER_LEN as u64,
    };
    let mut spans = Vec::new(alloc);
    spans.push(header)?;
    spans.extend_from_slice(records)?;
    if let Some(signature) = signature {
        spans.push(blob_span(&signature))?;
    }
    Ok(SpanList::from_vec(spans))
}

/// The spans of header, records, blob, map and tree.
fn area_spans(alloc: Global, areas: &Areas) -> Result<SpanList, OutOfMemory>
    ensures value { IfOk result (λ spans. spans ≡ areas_of (area_places areas.now)) }
{
    let mut spans = SpanList::of(alloc, areas.spans.as_slice())?;
    spans.push(areas.map_span())?;
    spans.push(areas.tree_span())?;
    Ok(spans)
}

fn map_count(map: Option<MapRecord>) -> u32
    ensures value { result ≡ map_count map }
{
    match map {
        Some(map) => map.count,
        None => 0,
    }
}

fn map_base(map: Option<MapRecord>) -> u64
    ensures value { result ≡ map_base map }
{
    match map {
        Some(map) => map.base,
        None => 0,
    }
}

fn hash_base(signature: Option<SigRecord>) -> u64
    ensures value { result ≡ hash_base signature }
{
    match signature {
        Some(signature) => signature.tree_at,
        None => 0,
    }
}

fn hash_size(signature: Option<SigRecord>) -> u32
    ensures value { result ≡ hash_size signature }
{
    match signature {
        Some(signature) => signature.tree_size,
        None => 0,
    }
}
