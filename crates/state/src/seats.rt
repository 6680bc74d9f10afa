// The seats and the quorum.
ghost use Rattle.std.specs.Prelude.{◌≡◌, ◌≤◌};
ghost use Rattle.state.specs.Seats.{seat_at, is_present, is_active, present_seats, quorum};

use crate::limits::SEATS;
use crate::{NO_SEAT, Seat};

// The standings of a seat. Numbers, and no enum: Node::deliver, query, checkpoint and page promise their answers in every state, also in one that holds
// another number.
pub const FREE: u8 = 0;

pub const CERTIFIED: u8 = 1;

pub const PRESENT: u8 = 2;

pub const RETIRED: u8 = 3;

impl Seat {
    pub fn is_present(self) -> bool
        ensures { result ≡ is_present self }
    {
        self.standing == PRESENT
    }

    // Certified or present.
    pub fn is_active(self) -> bool
        ensures { result ≡ is_active self }
    {
        (self.standing == CERTIFIED) | (self.standing == PRESENT)
    }
}

// The number of present seats. A sum, and no count of a filter: that has a branch for each seat, and a delivery takes longer by it.
pub fn present_seats(seats: [Seat; SEATS]) -> u8
    ensures { (result ≡ present_seats seats) × (result ≤ 32) }
{
    let mut n: u8 = 0;
    for seat in &seats {
        n += u8::from(seat.is_present());
    }
    n
}

// The larger of p/2 + 1 + m and k.
#[tactic(auto, unfolding(crate::specs::Seats::quorum))]
pub fn quorum(p: u8, m: u8, k: u8) -> u32
    ensures { result ≡ quorum p m k }
{
    let majority = (p as u32) / 2 + 1 + (m as u32);
    let least = k as u32;
    if majority <= least { least } else { majority }
}

// Seat number i, and a free seat where there is none.
pub fn seat_at(seats: [Seat; SEATS], i: u8) -> Seat
    ensures { result ≡ seat_at i seats }
{
    let at = i as usize;
    if SEATS <= at {
        return NO_SEAT;
    }
    seats[at]
}
