// A stream's pieces go into a file, group by group.
mod filled;
mod gathering;
pub mod rounds;
pub mod waiting;

ghost use Rattle.std.specs.Prelude.{◌≡◌, ℕ, List, Some};
ghost use Rattle.inc_frame.specs.Fronts.{stream_front};
ghost use Rattle.inc_filling.specs.Fillable.{IsFillable};
ghost use Rattle.inc_filling.specs.Filled.{FillsFrom, FillsTold, HasSourceCause};

pub use filled::{FillEnd, FillFailure, Filled};
use inc_cell::FileCell;
use inc_disk::Disk;
use inc_io::Source;
use inc_loader::PieceReader;
use inc_model::Window;
use rounds::{FillTotals, fill_round};
use std::alloc::Global;
use waiting::Waiting;

/// Fills in the pieces of a stream, up to its end, its fault, or the first piece that the file doesn't take.
///
/// They go in as groups. A group ends before an index that is in it already and once it has 64 pieces; and whatever ends the fill,
/// the pieces before that go in first. Memory doesn't grow with the stream.
pub fn fill_from<D: Disk, I: Source>(
    alloc: Global,
    cell: &mut FileCell<D>,
    window: Window,
    input: &mut I,
) -> Result<Filled, FillFailure>
    requires fillable { IsFillable cell.old }
    ensures fills { FillsFrom cell.old window (I.left input.old) (I.left input.new) (I.ended input.new) result cell.new }
    // Where the source tells the whole input, it is by the pieces of all of it.
    ensures told { (all : List ℕ) → I.left input.old ≡ Some all → FillsTold cell.old window (stream_front all) result cell.new }
    ensures source { HasSourceCause (I.faults input.old) (I.faults input.new) result }
{
    fill_groups(alloc, cell, window, input)
}

/// Fills in the stream's pieces, round after round.
fn fill_groups<D: Disk, I: Source>(
    alloc: Global,
    cell: &mut FileCell<D>,
    window: Window,
    input: &mut I,
) -> Result<Filled, FillFailure>
    requires fillable { IsFillable cell.old }
    ensures fills { FillsFrom cell.old window (I.left input.old) (I.left input.new) (I.ended input.new) result cell.new }
    ensures source { HasSourceCause (I.faults input.old) (I.faults input.new) result }
{
    let mut pieces = PieceReader::new(alloc)?;
    let mut waiting = Waiting::new(alloc)?;
    let mut totals = FillTotals {
        written: 0,
        present: 0,
    };
    'filling: loop {
        let end = fill_round(
            alloc,
            cell,
            window,
            input,
            &mut pieces,
            &mut waiting,
            &mut totals,
        )?;
        if let Some(end) = end {
            return Ok(Filled {
                written: totals.written,
                present: totals.present,
                end,
            });
        }
    }
}
