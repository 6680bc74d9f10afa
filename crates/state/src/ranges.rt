// The minima: their ranges, and what an action that names them leaves in force.
ghost use Rattle.std.specs.Prelude.{◌≡◌};
ghost use Rattle.state.specs.Minima.{is_in_range, is_in_force, or_kept, set_over};

use crate::limits::{MOST_LEAST, MOST_MARGIN, MOST_NOTICE, MOST_SILENCE};
use crate::{Minima, Notices};

// A notice that is named, or the one in force where zero is.
fn or_kept(named: u8, now: u8) -> u8
    ensures { result ≡ or_kept named now }
{
    if named == 0 { now } else { named }
}

impl Minima {
    // The ranges of minima that are named: a notice may be zero.
    #[tactic(auto, unfolding(crate::specs::Minima::is_in_range))]
    pub fn is_in_range(self) -> bool
        ensures { result ≡ is_in_range self }
    {
        (self.margin <= MOST_MARGIN)
            & (1..=MOST_LEAST).contains(&self.least)
            & (1..=MOST_SILENCE).contains(&self.silence)
            & (self.notices.ordinary <= MOST_NOTICE)
            & (self.notices.restart <= MOST_NOTICE)
    }

    // The ranges of a state's minima.
    #[tactic(auto, unfolding(crate::specs::Minima::is_in_force))]
    pub fn is_in_force(self) -> bool
        ensures { result ≡ is_in_force self }
    {
        self.is_in_range() & (1 <= self.notices.ordinary) & (1 <= self.notices.restart)
    }

    // What is in force once these are named, where `now` are.
    pub fn set_over(self, now: Minima) -> Minima
        ensures { result ≡ set_over now self }
    {
        let notices = Notices {
            ordinary: or_kept(self.notices.ordinary, now.notices.ordinary),
            restart: or_kept(self.notices.restart, now.notices.restart),
        };
        Minima { notices, ..self }
    }
}
