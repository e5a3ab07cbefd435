// Runs of one file, from a fresh one on.
ghost use Rattle.std.specs.Prelude.{◌≡◌, ℕ, true, take, IfOk};
ghost use Rattle.inc_history.specs.Runs.{RunsTo, fresh_state, all_entries, HaveNoCrash};
ghost use Rattle.inc_model.specs.relation.Facts.{IsStart};
ghost use Rattle.inc_model.specs.relation.State.{IsOpening};
ghost use Rattle.inc_model.specs.histories.Worlds.{beginning, IsWorld, moves_of, world_after};

use crate::history_run::run_entries;
use inc_model::{Entry, FileCore, FileState, OutOfMemory, Rows};
use inc_tree::Geometry;
use std::alloc::Global;

/// A part of a run, which a crash ends or not.
#[derive(Drop)]
pub struct Round {
    pub entries: Rows<Entry>,
    pub crash: bool,
}

/// Where a run ended.
#[derive(Drop)]
pub struct WorldEnd {
    pub state: FileState,
    /// How many entries are legal, from the first on.
    pub done: u64,
}

/// The bytes of a fresh file.
pub const FRESH_SIZE: u64 = 1 << 30;

/// The readers of a fresh file.
pub const FRESH_READERS: u32 = 64;

/// A fresh file of `FRESH_SIZE` bytes, with an id and a root of zeros. It takes no memory.
#[tactic(auto, using(crate::proofs::FreshFile::fresh_start, crate::proofs::FreshFile::fresh_opening), unfolding(crate::specs::Runs::fresh_state))]
pub fn fresh_file(alloc: Global) -> FileState
    ensures value { result ≡ fresh_state }
    ensures start { IsStart result }
    ensures opening { IsOpening result }
{
    let tree = Geometry::of(FRESH_SIZE).unwrap();
    FileState {
        id: [0; 16],
        n: tree.data_blocks(),
        m: tree.hash_blocks(),
        root: Some([0; 32]),
        map: Rows::from_vec(Vec::new(alloc)),
        damaged: Rows::from_vec(Vec::new(alloc)),
        compressed: Rows::from_vec(Vec::new(alloc)),
        reads: Rows::from_vec(Vec::new(alloc)),
        next: 1,
        times: Rows::from_vec(Vec::new(alloc)),
        flight: Rows::from_vec(Vec::new(alloc)),
        claimed: Rows::from_vec(Vec::new(alloc)),
        begun: Rows::from_vec(Vec::new(alloc)),
        acknowledged: Rows::from_vec(Vec::new(alloc)),
        faults: 0,
        failed: None,
        readers: FRESH_READERS,
    }
}

/// Runs of one file, over devices that tell what they hold.
pub struct World;

impl World {
    /// Runs the rounds from a fresh file. It ends before the first entry that isn't legal, or after the
    /// last round.
    #[tactic(auto, using(crate::proofs::Rounds::rounds_end))]
    pub fn run(alloc: Global, rounds: &[Round]) -> Result<WorldEnd, OutOfMemory>
        requires no_crash { HaveNoCrash rounds.now }
        ensures runs { IfOk result (λ end. RunsTo 0 fresh_state (all_entries rounds.now) end.done end.state) }
        ensures world { IfOk result (λ end. IsWorld true (beginning fresh_state) (moves_of (take end.done (all_entries rounds.now)))) }
        ensures end { IfOk result (λ end. (world_after (beginning fresh_state) (moves_of (take end.done (all_entries rounds.now)))).state ≡ end.state) }
    {
        let mut core = FileCore::new(fresh_file(alloc));
        let mut done = 0;
        for round in rounds {
            let entries = round.entries.as_slice();
            let taken = run_entries(&mut core, alloc, done, entries)?;
            done += taken as u64;
            if taken < entries.len() {
                return Ok(WorldEnd {
                    state: core.into_state(),
                    done,
                });
            }
        }
        Ok(WorldEnd {
            state: core.into_state(),
            done,
        })
    }
}
