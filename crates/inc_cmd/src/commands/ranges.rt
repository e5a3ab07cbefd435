// Which blocks of a file are there.
ghost use Rattle.std.specs.Prelude.{◌≡◌, ◌≢◌, ◌<◌, List, ℕ, IfSome, IfOk};
ghost use Rattle.inc_io.specs.Causes.{HasCauseAt};
ghost use Rattle.inc_entry.specs.Stored.{is_open_class};
ghost use Rattle.inc_cmd.specs.Commands.Ranges.{ShowsRanges, TellsRanges, left_word, next_line, present_in, range_line, range_lines, ranges_ending, ranges_of};
ghost use Rattle.inc_words.specs.Endings.{EndsAs};
ghost use Rattle.inc_words.specs.declared.stop.Stop.TheVariants.{Fault as stop_fault};

use crate::OutOfMemory;
use inc_entry::Class;
use inc_io::{Backing, Name};
use inc_layout::open_shape;
use inc_ranges::{Presence, RangeFault, Ranges, filled};
use inc_words::{CommandOutcome, Status, Stop, bad_range, refuse, refuse_layout};
use std::alloc::Global;

/// A file's blocks by the classes of their entries: those are there that are open.
#[derive(Drop)]
struct Blocks<'a> {
    classes: &'a [Class],
}

impl Presence for Blocks<'_> {
    ghost use Rattle.inc_cmd.specs.Commands.Ranges.{present_in};

    ghost present = { λ blocks. present_in blocks.classes.now };

    fn count(&self) -> usize {
        self.classes.len()
    }

    fn is_filled(&self, index: u32) -> bool {
        is_open(self.classes[index as usize])
    }
}

fn is_open(class: Class) -> bool
    ensures value { result ≡ is_open_class class }
{
    matches!(class, Class::OpenAt { .. })
}

/// Says which blocks of a file are there between two indices, by its layout alone. It reads no block.
pub fn list_ranges<B: Backing>(
    alloc: Global,
    name: &Name,
    file: &mut B,
    start: u32,
    end: u32,
    room: u32,
) -> Result<CommandOutcome, Stop>
    ensures answer { IfSome (B.reads (B.kept file.old)) (λ bytes. IfOk result (EndsAs (ranges_ending name.now start end room bytes))) }
    ensures shows { IfSome (B.reads (B.kept file.old)) (λ bytes. IfOk result (λ outcome. outcome.status.0 ≡ 0 →
        ShowsRanges bytes start end room outcome.text.items)) }
    ensures words { IfOk result (λ outcome. outcome.status.0 ≢ 1) }
    ensures statuses { IfOk result (λ outcome. outcome.status.0 < 5) }
    ensures kept { B.kept file.new ≡ B.kept file.old }
    ensures cause { HasCauseAt stop_fault (B.faults file.old) (B.faults file.new) result }
{
    match open_shape(alloc, file) {
        Ok(layout) => tell_ranges(alloc, name, layout.classes.as_slice(), start, end, room),
        Err(fault) => refuse_layout(alloc, name, fault),
    }
}

fn tell_ranges(
    alloc: Global,
    name: &Name,
    classes: &[Class],
    start: u32,
    end: u32,
    room: u32,
) -> Result<CommandOutcome, Stop>
    ensures answer { IfOk result (EndsAs (ranges_of name.now start end room classes.now)) }
    ensures tells { IfOk result (λ outcome. outcome.status.0 ≡ 0 → TellsRanges (present_in classes.now) start end room outcome.text.items) }
    ensures words { IfOk result (λ outcome. outcome.status.0 ≢ 1) }
    ensures statuses { IfOk result (λ outcome. outcome.status.0 < 5) }
    ensures memory { result ≢ Err stop_fault }
{
    match filled(alloc, Blocks { classes }, start, end, room) {
        Ok(ranges) => Ok(CommandOutcome {
            status: Status::DONE,
            text: lines_of(alloc, &ranges)?,
        }),
        Err(RangeFault::BadRange) => refuse(alloc, name, bad_range()),
        Err(RangeFault::OutOfMemory) => Err(Stop::OutOfMemory),
    }
}

fn lines_of(alloc: Global, ranges: &Ranges) -> Result<Vec<u8>, OutOfMemory>
    ensures value { IfOk result (λ text. text.items ≡ range_lines ranges.now.list ranges.now.next ranges.now.more) }
{
    let mut text = Vec::new(alloc);
    for range in ranges.list.as_slice() {
        text.extend_from_slice(range_line(alloc, *range)?.as_slice())?;
    }
    text.extend_from_slice(next_line(alloc, ranges.next, ranges.more)?.as_slice())?;
    Ok(text)
}

#[tactic(auto, unfolding(crate::specs::Commands::Ranges::range_line))]
fn range_line(alloc: Global, range: (u32, u32)) -> Result<Vec<u8>, OutOfMemory>
    ensures value { IfOk result (λ line. line.items ≡ range_line range) }
{
    let (start, end) = range;
    Ok(format!(in alloc; "{start} {end}\n")?.into_bytes())
}

#[tactic(auto, unfolding(crate::specs::Commands::Ranges::next_line))]
fn next_line(alloc: Global, next: u32, more: bool) -> Result<Vec<u8>, OutOfMemory>
    ensures value { IfOk result (λ line. line.items ≡ next_line next more) }
{
    let mut line = format!(in alloc; "next {next} ")?.into_bytes();
    line.extend_from_slice(left_word(more))?;
    line.extend_from_slice(b"\n")?;
    Ok(line)
}

#[tactic(auto, unfolding(crate::specs::Commands::Ranges::more_word, crate::specs::Commands::Ranges::no_more_word))]
fn left_word(more: bool) -> &'static [u8]
    ensures value { result.now ≡ left_word more }
{
    if more { b"more" } else { b"end" }
}
