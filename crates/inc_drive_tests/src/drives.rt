ghost use Rattle.std.specs.Prelude.{◌≤◌, length};

use crate::driven::drive_both;
use crate::sample::{
    Block, Cell, FIRST_BLOCK, LAST_BLOCK, ONLY_BLOCK, SHORT_BLOCK, STRAY_BLOCK, first_cell,
    loader_of, second_cell, torn_cell,
};
use crate::torn::{Call, TornLoader};
use inc_cell::{Answer, CellReply};
use inc_model::{FillError, Reply};
use inc_script::{DriveEnd, LoaderLine};
use std::alloc::Global;
use std::sync::Wait;
use std::test::*;

fn line(end: DriveEnd, told: u64, written: u64) -> LoaderLine {
    LoaderLine {
        end,
        told,
        written,
        present: 0,
        busy: 0,
    }
}

/// The line of a loader that gives these blocks in one call, over these files.
fn line_over<R: Wait>(
    rt: &R,
    alloc: Global,
    blocks: &[Block],
    first: Cell,
    second: Cell,
) -> Result<LoaderLine, Fail>
    requires some { 1 ≤ length blocks.now }
    requires most { length blocks.now ≤ 64 }
{
    let mut loader = loader_of(alloc, blocks)?;
    drive_both(rt, alloc, &mut loader, first, second)
}

/// The same over two whole files, each with a reader.
fn line_of<R: Wait>(rt: &R, alloc: Global, blocks: &[Block]) -> Result<LoaderLine, Fail>
    requires some { 1 ≤ length blocks.now }
    requires most { length blocks.now ≤ 64 }
{
    let first = first_cell(alloc, 1)?;
    let second = second_cell(alloc, 1)?;
    line_over(rt, alloc, blocks, first, second)
}

/// The second file with a read that waits for its block.
fn asked_cell(alloc: Global) -> Result<Cell, Fail> {
    let mut cell = second_cell(alloc, 1)?;
    let Answer { reply, .. } = cell.ask(1, 0, 0, 0);
    match reply {
        CellReply::Done(Reply::Asked { .. }) => Ok(cell),
        _ => Err("a read that waits".into()),
    }
}

/// The line of a loader that fails at its calls of one kind, where a read waits.
fn torn_line<R: Wait>(rt: &R, alloc: Global, torn: Call) -> Result<LoaderLine, Fail> {
    let inner = loader_of(alloc, &[ONLY_BLOCK])?;
    let mut loader = TornLoader {
        inner,
        torn,
        faults: 0,
    };
    let first = first_cell(alloc, 1)?;
    let second = asked_cell(alloc)?;
    drive_both(rt, alloc, &mut loader, first, second)
}

#[test]
fn pieces_of_two_files_go_in_by_turns(rt: HostRuntime) -> Result<(), Fail> {
    let blocks = [FIRST_BLOCK, ONLY_BLOCK, LAST_BLOCK];
    let came = line_of(&rt, rt.alloc(), &blocks)?;
    assert!(rt; came == line(DriveEnd::Done, 0, 3));
    Ok(())
}

#[test]
fn a_waiting_read_is_told_once(rt: HostRuntime) -> Result<(), Fail> {
    let alloc = rt.alloc();
    let first = first_cell(alloc, 1)?;
    let second = asked_cell(alloc)?;
    let came = line_over(&rt, alloc, &[FIRST_BLOCK], first, second)?;
    assert!(rt; came == line(DriveEnd::Done, 1, 1));
    Ok(())
}

#[test]
fn a_piece_of_no_file_ends_it_after_the_pieces_before(rt: HostRuntime) -> Result<(), Fail> {
    let blocks = [FIRST_BLOCK, STRAY_BLOCK, LAST_BLOCK];
    let came = line_of(&rt, rt.alloc(), &blocks)?;
    assert!(rt; came == line(DriveEnd::UnknownFile, 0, 1));
    Ok(())
}

#[test]
fn a_refused_piece_ends_it_after_the_pieces_before(rt: HostRuntime) -> Result<(), Fail> {
    let blocks = [FIRST_BLOCK, SHORT_BLOCK, ONLY_BLOCK];
    let came = line_of(&rt, rt.alloc(), &blocks)?;
    let end = DriveEnd::Refused(FillError::BadLength { piece: 0 });
    assert!(rt; came == line(end, 0, 1));
    Ok(())
}

#[test]
fn a_loader_that_fails_ends_it(rt: HostRuntime) -> Result<(), Fail> {
    let alloc = rt.alloc();
    assert!(rt; torn_line(&rt, alloc, Call::Prepare)? == line(DriveEnd::Fault, 0, 0));
    assert!(rt; torn_line(&rt, alloc, Call::Tell)? == line(DriveEnd::Fault, 0, 0));
    assert!(rt; torn_line(&rt, alloc, Call::Give)? == line(DriveEnd::Fault, 1, 0));
    assert!(rt; torn_line(&rt, alloc, Call::Stop)? == line(DriveEnd::Fault, 1, 1));
    Ok(())
}

#[test]
fn nothing_is_given_once_all_readers_have_left(rt: HostRuntime) -> Result<(), Fail> {
    let alloc = rt.alloc();
    let first = first_cell(alloc, 0)?;
    let second = second_cell(alloc, 0)?;
    let came = line_over(&rt, alloc, &[FIRST_BLOCK], first, second)?;
    assert!(rt; came == line(DriveEnd::Stopped, 0, 0));
    Ok(())
}

#[test]
fn a_disk_that_fails_ends_it(rt: HostRuntime) -> Result<(), Fail> {
    let alloc = rt.alloc();
    let first = torn_cell(alloc)?;
    let second = second_cell(alloc, 1)?;
    let came = line_over(&rt, alloc, &[ONLY_BLOCK, FIRST_BLOCK], first, second)?;
    assert!(rt; came == line(DriveEnd::Fault, 0, 1));
    Ok(())
}
