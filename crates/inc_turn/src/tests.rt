ghost use Rattle.std.specs.Prelude.{◌≡◌, ℕ, ◌<◌, length, slice_index_or};
ghost use Rattle.inc_turn.specs.Locks.{IsSameSeat, lock_of, table_of};

use super::*;
use inc_model::{Entry, Event, Machine, Reply};
use std::sync::Wait;
use std::test::*;
use std::thread::{Threads, for_each_mut};

const TURNS: u32 = 10_000;

/// Keeps an entry of each step, and answers whether there was memory for it.
#[derive(Drop)]
struct Tally {
    entries: Vec<Entry>,
}

impl Machine for Tally {
    type Event = u32;

    type Answer = bool;

    type Footing = ();

    ghost use Rattle.std.proofs.Common.{refl};
    ghost use Rattle.inc_model.specs.histories.Machines.{Grows};

    ghost history = { λ t. t.entries.items };

    ghost footing = { λ _. tt };

    ghost takes = { λ _ _. Unit {0} };

    ghost steps = { λ old who event answer new. Grows who old.entries.items new.entries.items };

    fn step(&mut self, who: u32, event: u32) -> bool {
        if self.entries.reserve(1).is_err() {
            return false;
        }
        self.entries.push_reserved(Entry {
            who,
            event: Event::Cancel { serial: event },
            reply: Reply::Cancelled,
        });
        true
    }

    ghost grows = { λ old who event answer new step. step };

    ghost stays = { λ old who event answer new step. refl };
}

/// Takes a turn for each number from 0 on.
fn count_up<R: Wait>(rt: &R, lock: &TurnLock<Tally>, seat: &mut Seat<()>)
    requires { lock_of seat.old ≡ table_of lock.now }
    ensures { IsSameSeat seat.old seat.new }
{
    for serial in 0..TURNS {
        lock.turn(rt, seat, serial);
    }
}

fn count_in_threads<R: Threads + Wait + Sync>(
    rt: &R,
    lock: &TurnLock<Tally>,
    seats: &mut [Seat<()>],
)
    requires { (k : ℕ) (d : _) → k < length seats.old → lock_of (slice_index_or seats.old k d) ≡ table_of lock.now }
    ensures { (k : ℕ) (d : _) → k < length seats.old → IsSameSeat (slice_index_or seats.old k d) (slice_index_or seats.new k d) }
{
    for_each_mut(rt, seats, 64, &|_, seat| count_up(rt, lock, seat));
}

/// Whether each seat's entries have the numbers from 0 on, and how many they are.
fn counts_of(entries: &[Entry]) -> Option<[u32; 2]> {
    let mut next = [0u32; 2];
    for entry in entries {
        let seat = entry.who as usize;
        if seat >= 2 || entry.event != (Event::Cancel { serial: next[seat] }) {
            return None;
        }
        next[seat] = next[seat].wrapping_add(1);
    }
    Some(next)
}

#[test]
fn two_threads_leave_one_history(rt: HostRuntime) -> Result<(), Fail> {
    let tally = Tally {
        entries: Vec::new(rt.alloc()),
    };
    let Ok((lock, mut seats)) = TurnLock::new(rt.alloc(), tally, 2) else {
        return Err(Fail::from("no memory"));
    };
    count_in_threads(&rt, &lock, &mut seats);
    let tally = lock.close(seats);
    assert_eq!(rt; tally.entries.len(), 20_000);
    assert_eq!(rt; counts_of(&tally.entries), Some([TURNS; 2]));
    Ok(())
}

#[test]
fn seats_are_numbered_in_their_order(rt: HostRuntime) -> Result<(), Fail> {
    let tally = Tally {
        entries: Vec::new(rt.alloc()),
    };
    let Ok((lock, seats)) = TurnLock::new(rt.alloc(), tally, 3) else {
        return Err(Fail::from("no memory"));
    };
    for (place, seat) in seats.iter().enumerate() {
        assert_eq!(rt; seat.number() as usize, place);
    }
    let tally = lock.close(seats);
    assert_eq!(rt; tally.entries.len(), 0);
    Ok(())
}
