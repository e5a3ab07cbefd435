// What a file says of itself.
ghost use Rattle.std.specs.Prelude.{◌≡◌, ◌≢◌, ◌++◌, ◌<◌, ◌≤◌, length, count_by, IfSome, IfOk};
ghost use Rattle.inc_io.specs.Causes.{HasCauseAt};
ghost use Rattle.inc_tree.specs.shape.Geometry.{data_blocks};
ghost use Rattle.inc_entry.specs.Stored.{is_compressed_class, is_damaged_class, is_open_class};
ghost use Rattle.inc_layout.specs.fixed.Fixed.{map_base, map_count};
ghost use Rattle.inc_layout.specs.opening.Opening.{IsSoundLayout};
ghost use Rattle.inc_cmd.specs.Commands.Inspect.{blob_line, classes_line, damaged_line, filled_line, inspect_ending, inspect_text, map_line, no_root_line, no_signature_line, place_and_size, root_line, sig_line, signature_line, size_line, tree_line};
ghost use Rattle.inc_words.specs.Endings.{EndsAs};
ghost use Rattle.inc_words.specs.declared.stop.Stop.TheVariants.{Fault as stop_fault};

use crate::OutOfMemory;
use inc_entry::Class;
use inc_io::{Backing, Name};
use inc_layout::{Layout, open_shape};
use inc_md::{MapRecord, SigRecord};
use inc_signature::SigInfo;
use inc_tree::{Digest32, Geometry};
use inc_words::{CommandOutcome, Status, Stop, part_of, refuse_layout};
use std::alloc::Global;

/// Says what a file's layout tells. It reads no block.
pub fn inspect_file<B: Backing>(
    alloc: Global,
    name: &Name,
    file: &mut B,
) -> Result<CommandOutcome, Stop>
    ensures answer { IfSome (B.reads (B.kept file.old)) (λ bytes. IfOk result (EndsAs (inspect_ending name.now bytes))) }
    ensures words { IfOk result (λ outcome. outcome.status.0 ≢ 1) }
    ensures statuses { IfOk result (λ outcome. outcome.status.0 < 5) }
    ensures kept { B.kept file.new ≡ B.kept file.old }
    ensures cause { HasCauseAt stop_fault (B.faults file.old) (B.faults file.new) result }
{
    match open_shape(alloc, file) {
        Ok(layout) => Ok(CommandOutcome {
            status: Status::DONE,
            text: inspect_text(alloc, &layout)?,
        }),
        Err(fault) => refuse_layout(alloc, name, fault),
    }
}

fn inspect_text(alloc: Global, layout: &Layout) -> Result<Vec<u8>, OutOfMemory>
    requires { IsSoundLayout layout.now }
    ensures value { IfOk result (λ text. text.items ≡ inspect_text layout.now) }
{
    let tree = &layout.areas.geometry;
    let mut text = size_line(alloc, layout.header.size, &layout.header.id)?;
    text.extend_from_slice(map_line(alloc, layout.records.map)?.as_slice())?;
    text.extend_from_slice(blob_line(alloc, layout.records.signature)?.as_slice())?;
    text.extend_from_slice(sig_line(alloc, &layout.sig)?.as_slice())?;
    let tree_text = tree_line(alloc, layout.areas.hash_at, tree.hash_blocks())?;
    text.extend_from_slice(tree_text.as_slice())?;
    let classes = classes_lines(alloc, tree, layout.classes.as_slice())?;
    text.extend_from_slice(classes.as_slice())?;
    Ok(text)
}

#[tactic(auto, unfolding(crate::specs::Commands::Inspect::size_line))]
fn size_line(alloc: Global, size: u64, id: &[u8; 16]) -> Result<Vec<u8>, OutOfMemory>
    ensures value { IfOk result (λ line. line.items ≡ size_line size id.now) }
{
    let id = hex::encode(alloc, id.as_slice())?;
    let mut line = format!(in alloc; "plain size {size} id ")?.into_bytes();
    line.extend_from_slice(id.as_bytes())?;
    line.extend_from_slice(b"\n")?;
    Ok(line)
}

fn map_line(alloc: Global, map: Option<MapRecord>) -> Result<Vec<u8>, OutOfMemory>
    ensures value { IfOk result (λ line. line.items ≡ map_line (map_base map) (map_count map)) }
{
    match map {
        Some(map) => place_line(alloc, map.base, map.count),
        None => place_line(alloc, 0, 0),
    }
}

#[tactic(auto, unfolding(crate::specs::Commands::Inspect::map_line))]
fn place_line(alloc: Global, base: u64, count: u32) -> Result<Vec<u8>, OutOfMemory>
    ensures value { IfOk result (λ line. line.items ≡ map_line base count) }
{
    Ok(format!(in alloc; "map at {base} count {count}\n")?.into_bytes())
}

fn blob_line(alloc: Global, signature: Option<SigRecord>) -> Result<Vec<u8>, OutOfMemory>
    ensures value { IfOk result (λ line. line.items ≡ blob_line signature) }
{
    match signature {
        Some(signature) => signature_line(alloc, signature.sig_at, signature.sig_size),
        None => no_signature_line(alloc),
    }
}

#[tactic(auto, unfolding(crate::specs::Commands::Inspect::no_signature_line))]
fn no_signature_line(alloc: Global) -> Result<Vec<u8>, OutOfMemory>
    ensures value { IfOk result (λ line. line.items ≡ no_signature_line) }
{
    b"signature none\n".to_vec(alloc)
}

#[tactic(auto, unfolding(crate::specs::Commands::Inspect::signature_line))]
fn signature_line(alloc: Global, at: u64, size: u32) -> Result<Vec<u8>, OutOfMemory>
    ensures value { IfOk result (λ line. line.items ≡ signature_line at size) }
{
    let mut line = b"signature at ".to_vec(alloc)?;
    line.extend_from_slice(place_and_size(alloc, at, size)?.as_slice())?;
    line.extend_from_slice(b"\n")?;
    Ok(line)
}

#[tactic(auto, unfolding(crate::specs::Commands::Inspect::place_and_size))]
fn place_and_size(alloc: Global, at: u64, size: u32) -> Result<Vec<u8>, OutOfMemory>
    ensures value { IfOk result (λ part. part.items ≡ place_and_size at size) }
{
    Ok(format!(in alloc; "{at} size {size}")?.into_bytes())
}

fn sig_line(alloc: Global, sig: &Option<SigInfo>) -> Result<Vec<u8>, OutOfMemory>
    ensures value { IfOk result (λ line. line.items ≡ sig_line sig.now) }
{
    match sig {
        Some(sig) => root_line(alloc, &sig.root),
        None => no_root_line(alloc),
    }
}

#[tactic(auto, unfolding(crate::specs::Commands::Inspect::no_root_line))]
fn no_root_line(alloc: Global) -> Result<Vec<u8>, OutOfMemory>
    ensures value { IfOk result (λ line. line.items ≡ no_root_line) }
{
    b"root none\n".to_vec(alloc)
}

/// `root R`
#[tactic(auto, unfolding(crate::specs::Commands::Inspect::root_line))]
pub fn root_line(alloc: Global, root: &Digest32) -> Result<Vec<u8>, OutOfMemory>
    ensures value { IfOk result (λ line. line.items ≡ root_line root.now) }
{
    let root = hex::encode(alloc, root.as_slice())?;
    let mut line = b"root ".to_vec(alloc)?;
    line.extend_from_slice(root.as_bytes())?;
    line.extend_from_slice(b"\n")?;
    Ok(line)
}

#[tactic(auto, unfolding(crate::specs::Commands::Inspect::tree_line))]
fn tree_line(alloc: Global, at: u64, blocks: u32) -> Result<Vec<u8>, OutOfMemory>
    ensures value { IfOk result (λ line. line.items ≡ tree_line at blocks) }
{
    Ok(format!(in alloc; "tree at {at} blocks {blocks}\n")?.into_bytes())
}

/// How many blocks are there, and how many entries are damaged or compressed.
fn classes_lines(alloc: Global, tree: &Geometry, classes: &[Class]) -> Result<Vec<u8>, OutOfMemory>
    requires { data_blocks tree.now ≤ length classes.now }
    ensures value { IfOk result (λ lines. lines.items ≡ classes_line tree.now classes.now) }
{
    let count = tree.data_blocks();
    let (first, rest) = classes.split_at(count as usize);
    let mut lines = filled_line(
        alloc,
        open_count(first),
        count,
        open_count(rest),
        tree.hash_blocks(),
    )?;
    let damaged = damaged_line(alloc, damaged_count(classes), compressed_count(classes))?;
    lines.extend_from_slice(damaged.as_slice())?;
    Ok(lines)
}

#[tactic(auto, unfolding(crate::specs::Commands::Inspect::filled_line))]
fn filled_line(
    alloc: Global,
    filled_data: usize,
    data_count: u32,
    filled_hash: usize,
    hash_count: u32,
) -> Result<Vec<u8>, OutOfMemory>
    ensures value { IfOk result (λ line. line.items ≡ filled_line filled_data data_count filled_hash hash_count) }
{
    let mut line = b"filled data ".to_vec(alloc)?;
    line.extend_from_slice(part_of(alloc, filled_data, data_count)?.as_slice())?;
    line.extend_from_slice(b" hash ")?;
    line.extend_from_slice(part_of(alloc, filled_hash, hash_count)?.as_slice())?;
    line.extend_from_slice(b"\n")?;
    Ok(line)
}

#[tactic(auto, unfolding(crate::specs::Commands::Inspect::damaged_line))]
fn damaged_line(alloc: Global, damaged: usize, compressed: usize) -> Result<Vec<u8>, OutOfMemory>
    ensures value { IfOk result (λ line. line.items ≡ damaged_line damaged compressed) }
{
    Ok(format!(in alloc; "damaged {damaged} compressed {compressed}\n")?.into_bytes())
}

fn open_count(classes: &[Class]) -> usize
    ensures value { result ≡ count_by is_open_class classes.now }
{
    classes.iter().filter(|class| is_open(**class)).count()
}

fn damaged_count(classes: &[Class]) -> usize
    ensures value { result ≡ count_by is_damaged_class classes.now }
{
    classes.iter().filter(|class| is_damaged(**class)).count()
}

fn compressed_count(classes: &[Class]) -> usize
    ensures value { result ≡ count_by is_compressed_class classes.now }
{
    classes
        .iter()
        .filter(|class| is_compressed(**class))
        .count()
}

fn is_open(class: Class) -> bool
    ensures value { result ≡ is_open_class class }
{
    matches!(class, Class::OpenAt { .. })
}

fn is_damaged(class: Class) -> bool
    ensures value { result ≡ is_damaged_class class }
{
    matches!(class, Class::Damaged)
}

fn is_compressed(class: Class) -> bool
    ensures value { result ≡ is_compressed_class class }
{
    matches!(class, Class::Compressed)
}
