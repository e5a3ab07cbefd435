// Why a fill stops before its stream's end, for another cause than the stream's own.
ghost use Rattle.std.specs.Prelude.{◌≡◌};
ghost use Rattle.inc_filling.specs.Stops.{goes_on, was_put};

use inc_cell::{Answer, CellReply};
use inc_model::Reply;
use std::alloc::AllocError;

/// Why a group of blocks doesn't come to its end.
#[derive(Clone, Copy, Debug, PartialEq, Eq)]
pub enum FillStop {
    /// The history has no room for the group beside so many entries and claimed places.
    HistoryFull { entries: u64, claimed: u64 },
    /// The file takes no more fills since the entry at this position.
    Failed { at: u64 },
    /// A write or sync of this fill has failed.
    DiskFault,
    OutOfMemory,
}

impl From<AllocError> for FillStop {
    ghost use Rattle.std.specs.Prelude.{◌≡◌};
    ghost use Rattle.inc_filling.specs.declared.stop.FillStop.TheVariants.{OutOfMemory};

    ghost from_gives = { λ _ stop. stop ≡ OutOfMemory };

    fn from(_: AllocError) -> Self {
        FillStop::OutOfMemory
    }
}

/// The reply with which a fill goes on.
pub(crate) fn go_on(answer: Answer) -> Result<Reply, FillStop>
    ensures value { result ≡ goes_on answer.reply }
{
    let Answer { reply, .. } = answer;
    match reply {
        CellReply::Done(Reply::Fault { .. }) => Err(FillStop::DiskFault),
        CellReply::Done(Reply::Failed { at }) => Err(FillStop::Failed { at }),
        CellReply::Done(reply) => Ok(reply),
        CellReply::HistoryFull { entries, claimed } => {
            Err(FillStop::HistoryFull { entries, claimed })
        }
        CellReply::OutOfMemory => Err(FillStop::OutOfMemory),
    }
}

/// Whether a fill that goes on has stored the block that it put.
pub(crate) fn go_on_from_put(answer: Answer) -> Result<bool, FillStop>
    ensures value { result ≡ was_put (goes_on answer.reply) }
{
    match go_on(answer) {
        Ok(Reply::Put { .. }) => Ok(true),
        Ok(_) => Ok(false),
        Err(stop) => Err(stop),
    }
}
