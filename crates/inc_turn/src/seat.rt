ghost use Rattle.std.specs.Prelude.{◌≡◌, ◌∷◌, []};
ghost use Rattle.inc_turn.specs.Views.{IsIdle, the_view};

use crate::view::View;
use atomic_table::Badge;

/// One user's place at a lock. It holds the machine only inside a turn.
pub struct Seat<F> {
    pub(crate) number: u32,
    pub(crate) badge: Badge<View<F>>,
    pub ghost whole: { badge.views ≡ the_view badge.views ∷ [] },
    pub ghost numbered: { (the_view badge.views).number ≡ number },
    pub ghost idle: { IsIdle (the_view badge.views) },
    pub ghost alone: { (the_view badge.views).past ≡ [] },
}

impl<F> Seat<F> {
    /// The seat's number, from 0 in the order in which the lock gave its seats.
    pub fn number(&self) -> u32
        ensures value { result ≡ self.now.number }
    {
        self.number
    }

    pub(crate) fn into_badge(self) -> Badge<View<F>>
        ensures { result ≡ self.badge }
    {
        let Self { number: _, badge } = self;
        badge
    }
}

impl<F> Drop for Seat<F> {
    fn drop(self) {
        let Self {
            number: _,
            badge: _,
        } = self;
    }
}
