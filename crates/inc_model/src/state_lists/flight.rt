// The indices that windows are filling, by rising index.
ghost use Rattle.std.specs.Prelude.{◌≡◌, ◌+◌, ◌<◌, ◌≤◌, not, map, filter, count_by, length, [], ◌∷◌, All, vec_len, vec_capacity};
ghost use Rattle.inc_model.specs.relation.State.{flight_row, fly, land};
ghost use Rattle.inc_model.specs.relation.Stages.{is_gated, synced_row, synced_flight, acknowledge};
ghost use Rattle.inc_model.specs.executed.Places.{IsFlightSlot, staged};

use crate::indices::Indices;
use crate::state_lists::claims::is_same_window;
use crate::{FlightRow, Stage, Window};

/// The row of an index.
pub fn find_row(flight: &[FlightRow], index: u32) -> Option<FlightRow>
    ensures value { result ≡ flight_row index flight.now }
{
    for row in flight {
        if row.index == index {
            return Some(*row);
        }
    }
    None
}

/// The place that a row of this index would have.
fn slot_of(flight: &[FlightRow], row: FlightRow) -> usize
    ensures slot { IsFlightSlot flight.now row result }
{
    for (i, other) in flight.iter().enumerate() {
        if row.index < other.index {
            return i;
        }
    }
    flight.len()
}

/// Adds a row. There is room for one more, so it takes no memory.
pub fn fly_in_room(flight: &mut Vec<FlightRow>, row: FlightRow)
    requires room { vec_len flight.old < vec_capacity flight.old }
    ensures rows { flight.new.items ≡ fly row flight.old.items }
    ensures count { vec_len flight.new ≡ vec_len flight.old + 1 }
    ensures capacity { vec_capacity flight.old ≤ vec_capacity flight.new }
{
    let at = slot_of(flight.as_slice(), row);
    flight.insert(at, row).unwrap();
}

fn stage_row(row: &mut FlightRow, index: u32, stage: Stage)
    ensures row { row.new ≡ staged stage index row.old }
{
    if row.index == index {
        row.stage = stage;
    }
}

/// Brings an index to a stage.
pub fn stage_to(flight: &mut Vec<FlightRow>, index: u32, stage: Stage)
    ensures rows { flight.new.items ≡ map (staged stage index) flight.old.items }
    ensures count { vec_len flight.new ≡ vec_len flight.old }
    ensures capacity { vec_capacity flight.new ≡ vec_capacity flight.old }
{
    for row in flight.iter_mut() {
        stage_row(row, index, stage);
    }
}

/// Takes a window's rows away.
pub fn land_window(flight: &mut Vec<FlightRow>, window: Window)
    ensures rows { flight.new.items ≡ land window flight.old.items }
    ensures count { vec_len flight.new ≤ vec_len flight.old }
    ensures capacity { vec_capacity flight.new ≡ vec_capacity flight.old }
{
    flight.retain(|row| !is_same_window(window, row.window));
}

fn is_row_gated(row: &FlightRow) -> bool
    ensures value { result ≡ is_gated row.now.stage }
{
    matches!(row.stage, Stage::Gated)
}

fn settle_row(row: &mut FlightRow)
    ensures row { row.new ≡ synced_row row.old }
{
    if matches!(row.stage, Stage::Placed) {
        row.stage = Stage::Settled;
    }
}

fn settle_each(flight: &mut Vec<FlightRow>)
    ensures rows { flight.new.items ≡ map synced_row flight.old.items }
    ensures count { vec_len flight.new ≡ vec_len flight.old }
    ensures capacity { vec_capacity flight.new ≡ vec_capacity flight.old }
{
    for row in flight.iter_mut() {
        settle_row(row);
    }
}

fn land_gated(flight: &mut Vec<FlightRow>)
    ensures rows { flight.new.items ≡ filter (λ row. not (is_gated row.stage)) flight.old.items }
    ensures count { vec_len flight.new + count_by (λ row. is_gated row.stage) flight.old.items ≡ vec_len flight.old }
    ensures capacity { vec_capacity flight.new ≡ vec_capacity flight.old }
{
    flight.retain(|row| !is_row_gated(row));
}

/// After a sync what is gated leaves, and what is placed is settled.
pub fn settle_rows(flight: &mut Vec<FlightRow>)
    ensures rows { flight.new.items ≡ synced_flight flight.old.items }
    ensures count { vec_len flight.new + count_by (λ row. is_gated row.stage) flight.old.items ≡ vec_len flight.old }
    ensures capacity { vec_capacity flight.new ≡ vec_capacity flight.old }
{
    land_gated(flight);
    settle_each(flight);
}

/// Acknowledges a row that is gated.
fn acknowledge_row<I: Indices>(row: &FlightRow, indices: &mut I)
    requires room { 0 < I.room indices.old }
    requires within { row.now.index < (I.lists indices.old).n + (I.lists indices.old).m }
    ensures lists { I.lists indices.new ≡ record (I.lists indices.old) { acknowledged = acknowledge (row.now ∷ []) (I.lists indices.old).acknowledged } }
    ensures room { I.room indices.old ≤ I.room indices.new + count_by (λ r. is_gated r.stage) (row.now ∷ []) }
{
    if is_row_gated(row) {
        indices.acknowledge(row.index);
    }
}

/// Acknowledges what is gated. There is room for each row's index, so it takes no memory.
pub fn acknowledge_rows<I: Indices>(flight: &[FlightRow], indices: &mut I)
    requires room { length flight.now ≤ I.room indices.old }
    requires within { All (λ row. row.index < (I.lists indices.old).n + (I.lists indices.old).m) flight.now }
    ensures lists { I.lists indices.new ≡ record (I.lists indices.old) { acknowledged = acknowledge flight.now (I.lists indices.old).acknowledged } }
    ensures room { I.room indices.old ≤ I.room indices.new + count_by (λ row. is_gated row.stage) flight.now }
{
    for row in flight {
        acknowledge_row(row, indices);
    }
}
