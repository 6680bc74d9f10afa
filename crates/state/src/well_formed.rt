// Which rows of a state are well formed.
ghost use Rattle.std.specs.Prelude.{◌≡◌};
ghost use Rattle.lists.specs.Code.{is_filled};
ghost use Rattle.state.specs.Rows.{is_proposal, is_login};
ghost use Rattle.state.specs.WellFormed.{is_well_formed_seat, is_intended, has_rights};

use crate::seats::{FREE, RETIRED};
use crate::{Cycle, Day, Login, Proposal, Seat};

impl Seat {
    // The life is 0 exactly at a free seat.
    pub fn is_well_formed(self) -> bool
        ensures { result ≡ is_well_formed_seat self }
    {
        if self.standing == FREE {
            self.life == 0
        } else {
            (self.standing <= RETIRED) & (1 <= self.life)
        }
    }
}

impl Proposal {
    // A used row that fits a state of this cycle and agreed day.
    pub fn is_pending(self, c: Cycle, d: Day) -> bool
        ensures { result ≡ is_filled is_proposal (is_intended c d) self }
    {
        self.is_used() & (self.cycle < c) & (self.day <= d) & self.subject.is_well_formed()
    }
}

impl Login {
    // A used row with rights.
    pub fn is_granted(self) -> bool
        ensures { result ≡ is_filled is_login has_rights self }
    {
        self.is_used() & (1 <= self.rights)
    }
}
