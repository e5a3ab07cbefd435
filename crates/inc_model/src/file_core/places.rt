// The places of a history that an event takes.
ghost use Rattle.std.specs.Prelude.{◌≡◌, ◌↔◌, ◌^◌, ◌≤◌, IsTrue};
ghost use Rattle.inc_model.specs.relation.State.{all_places};
ghost use Rattle.inc_model.specs.relation.Changes.{window_of};
ghost use Rattle.inc_model.specs.relation.Step.{needs, HasRoom};

use crate::file_core::FileCore;
use crate::state_lists::claims::{places_left, sum_of_places};
use crate::{Event, Indices, MOST_ENTRIES, Window};

/// The window of an event of a fill.
pub fn window_of(event: Event) -> Option<Window>
    ensures value { result ≡ window_of event }
{
    match event {
        Event::Claim { window, .. }
        | Event::PutData { window, .. }
        | Event::PutPlace { window, .. }
        | Event::Settle { window }
        | Event::Gate { window, .. }
        | Event::Release { window } => Some(window),
        Event::Ask { .. }
        | Event::Poll { .. }
        | Event::Cancel { .. }
        | Event::TakePending { .. }
        | Event::SetTimes { .. }
        | Event::Ranges { .. }
        | Event::Count
        | Event::Leave => None,
    }
}

impl<I: Indices> FileCore<I> {
    /// The places of the history that an event takes.
    pub fn needs(&self, event: Event) -> u64
        ensures value { result ≡ needs self.now.state.claimed event }
        ensures small { result ≤ 2 ^ 32 }
    {
        if let Event::Claim { places, .. } = event {
            return 1 + u64::from(places);
        }
        match window_of(event) {
            Some(window) => {
                if places_left(self.claimed.as_slice(), window) == 0 {
                    1
                } else {
                    0
                }
            }
            None => 1,
        }
    }

    /// The places that all windows have left.
    pub fn claimed_places(&self) -> u64
        requires places { all_places self.now.state.claimed ≤ MOST_ENTRIES }
        ensures value { result ≡ all_places self.now.state.claimed }
    {
        sum_of_places(self.claimed.as_slice())
    }

    /// Whether the history has room for an event, where so many entries stand before it.
    pub fn has_room(&self, at: u64, event: Event) -> bool
        requires early { at ≤ MOST_ENTRIES }
        requires places { all_places self.now.state.claimed ≤ MOST_ENTRIES }
        ensures exact { IsTrue result ↔ HasRoom at self.now.state event }
    {
        at + self.claimed_places() + self.needs(event) <= MOST_ENTRIES
    }
}
