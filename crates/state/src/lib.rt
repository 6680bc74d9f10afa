// The replicated state of a park (01: the synchronised state), and the helpers of days and cycles.
#![tactic(auto)]

pub mod kinds;
pub mod limits;
mod ranges;
pub mod seats;
pub mod subjects;
pub mod trustees;
pub mod well_formed;

ghost use Rattle.std.specs.Prelude.{◌≡◌};
ghost use Rattle.state.specs.Time.{days_since, cycles_since, next_cycle};
ghost use Rattle.state.specs.WellFormed.{blank_state};
ghost use Rattle.state.specs.Rows.{is_proposal, is_login, is_ended, is_held, holds_right, is_silent};

use crate::limits::{LOGIN_ROWS, PROPOSAL_ROWS, RIGHTS, SEATS};

// A count of days from 1970-01-01.
#[derive(Clone, Copy, Debug, PartialEq, Eq, PartialOrd, Ord)]
pub struct Day(pub u32);

// The number of performed actions plus 1.
#[derive(Clone, Copy, Debug, PartialEq, Eq, PartialOrd, Ord)]
pub struct Cycle(pub u32);

// The least numbers of days from a proposal to its action: the restart notice is that of a rejoin, the ordinary one that of the other kinds.
#[derive(Clone, Copy)]
pub struct Notices {
    pub ordinary: u8,
    pub restart: u8,
}

// What the park asks of its quorums, of the age of what a node has heard and of its notices (01: the minima).
#[derive(Clone, Copy)]
pub struct Minima {
    // The margin m, the least quorum k and the silence limit S in days.
    pub margin: u8,
    pub least: u8,
    pub silence: u16,
    pub notices: Notices,
}

// A node's place in the park. A free seat is all zero.
#[derive(Clone, Copy)]
pub struct Seat {
    pub standing: u8,
    // Which of the vaults that held this seat in turn is the listed one.
    pub life: u32,
}

// An action that needs a notice: its kind, and its first 8 argument bytes as one little-endian number.
#[derive(Clone, Copy, Debug, PartialEq, Eq)]
pub struct Subject {
    pub kind: u16,
    pub arguments: u64,
}

// A notice that its subject is intended, and in which cycle and on which day it was announced. An unused row is all zero.
#[derive(Clone, Copy)]
pub struct Proposal {
    pub cycle: Cycle,
    pub day: Day,
    pub subject: Subject,
}

// A login, its last day and a bit for each right that it holds. An unused row is all zero.
#[derive(Clone, Copy)]
pub struct Login {
    pub login: u32,
    pub end: Day,
    pub rights: u16,
}

// What all nodes of a park agree on.
#[derive(Clone, Copy)]
pub struct State {
    pub cycle: Cycle,
    // The agreed day: that of the last performed announcement.
    pub day: Day,
    // The numbers of trustees of level 1 and of level 2.
    pub trustees1: u8,
    pub trustees2: u8,
    pub minima: Minima,
    pub seats: [Seat; SEATS],
    pub proposals: [Proposal; PROPOSAL_ROWS],
    pub logins: [Login; LOGIN_ROWS],
}

// The unused rows.
pub const NO_SEAT: Seat = Seat {
    standing: 0,
    life: 0,
};

pub const NO_PROPOSAL: Proposal = Proposal {
    cycle: Cycle(0),
    day: Day(0),
    subject: Subject {
        kind: 0,
        arguments: 0,
    },
};

pub const NO_LOGIN: Login = Login {
    login: 0,
    end: Day(0),
    rights: 0,
};

// Day and Cycle have the same helper each, and no trait in common: the paper has each with its own, and never compares the one with the other.
impl Day {
    // The days from the earlier day up to this one, 0 where that day is later.
    pub fn since(self, earlier: Day) -> u32
        ensures { result ≡ days_since self earlier }
    {
        self.0.saturating_sub(earlier.0)
    }
}

impl Cycle {
    // The cycles from the earlier one up to this one, 0 where that one is later.
    pub fn since(self, earlier: Cycle) -> u32
        ensures { result ≡ cycles_since self earlier }
    {
        self.0.saturating_sub(earlier.0)
    }

    // The last cycle has none after it.
    pub fn next(self) -> Cycle
        ensures { result ≡ next_cycle self }
    {
        Cycle(self.0.saturating_add(1))
    }
}

impl Proposal {
    pub fn is_used(self) -> bool
        ensures { result ≡ is_proposal self }
    {
        self.subject.kind != 0
    }
}

impl Login {
    pub fn is_used(self) -> bool
        ensures { result ≡ is_login self }
    {
        self.login != 0
    }

    pub fn is_ended(self, t: Day) -> bool
        ensures { result ≡ is_ended t self }
    {
        self.end < t
    }

    pub fn holds_right(self, right: u8) -> bool
        ensures { result ≡ holds_right right self }
    {
        is_held(self.rights, right)
    }
}

// Bit `right` of the rights. No login has a right beyond the last.
pub fn is_held(rights: u16, right: u8) -> bool
    ensures { result ≡ is_held right rights }
{
    if RIGHTS <= right {
        return false;
    }
    (rights >> (right as u16)) % 2 == 1
}

// Whether a state of this agreed day and silence limit is silent on day t.
pub fn is_silent(agreed: Day, silence: u16, t: Day) -> bool
    ensures { result ≡ is_silent agreed silence t }
{
    (silence as u32) < t.since(agreed)
}

// The blank state, all zero: it stands for none.
const BLANK: State = State {
    cycle: Cycle(0),
    day: Day(0),
    trustees1: 0,
    trustees2: 0,
    minima: Minima {
        margin: 0,
        least: 0,
        silence: 0,
        notices: Notices {
            ordinary: 0,
            restart: 0,
        },
    },
    seats: [NO_SEAT; SEATS],
    proposals: [NO_PROPOSAL; PROPOSAL_ROWS],
    logins: [NO_LOGIN; LOGIN_ROWS],
};

#[tactic(auto, unfolding(crate::specs::WellFormed::blank_state))]
pub fn blank_state() -> State
    ensures { result ≡ blank_state }
{
    BLANK
}
