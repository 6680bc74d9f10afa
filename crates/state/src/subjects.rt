// The subjects of proposals: a kind, 4 certify, 5 minima, 6 remove or 7 rejoin, and its argument bytes as one little-endian number.
ghost use Rattle.std.specs.Prelude.{◌≡◌};
ghost use Rattle.state.specs.Minima.{notice_days};
ghost use Rattle.state.specs.Subjects.{minima_in, is_seat_and_life, is_certify, is_minima, is_remove, is_subject};
ghost use Rattle.state.specs.Subjects.{seat_and_life, certifies, sets_minima, removes, rejoins};

use crate::kinds::{CERTIFY, MINIMA, REJOIN, REMOVE};
use crate::{Minima, Notices, Subject};

// The minima in a subject's argument bytes.
fn minima_in(a: u64) -> Minima
    ensures { result ≡ minima_in a }
{
    Minima {
        margin: (a % 256) as u8,
        least: (a / 256 % 256) as u8,
        silence: (a / 65536 % 65536) as u16,
        notices: Notices {
            ordinary: (a / 4294967296 % 256) as u8,
            restart: (a / 1099511627776 % 256) as u8,
        },
    }
}

// A seat below 32, any life, and zero bytes after them.
#[tactic(auto, unfolding(crate::specs::Subjects::is_seat_and_life))]
fn is_seat_and_life(a: u64) -> bool
    ensures { result ≡ is_seat_and_life a }
{
    (a % 256 < 32) & (a < 1099511627776)
}

// Of these, a life of at least 1.
#[tactic(auto, unfolding(crate::specs::Subjects::is_certify))]
fn is_certify(a: u64) -> bool
    ensures { result ≡ is_certify a }
{
    is_seat_and_life(a) & (1 <= a / 256)
}

// Minima within their ranges, and zero bytes after them.
#[tactic(auto, unfolding(crate::specs::Subjects::is_minima))]
fn is_minima(a: u64) -> bool
    ensures { result ≡ is_minima a }
{
    minima_in(a).is_in_range() & (a < 281474976710656)
}

// A seat below 32, and zero bytes after it.
#[tactic(auto, unfolding(crate::specs::Subjects::is_remove))]
fn is_remove(a: u64) -> bool
    ensures { result ≡ is_remove a }
{
    a < 32
}

impl Subject {
    // Whether the kind may be proposed and its arguments obey its ranges.
    #[tactic(auto, unfolding(crate::specs::Subjects::is_subject))]
    pub fn is_well_formed(self) -> bool
        ensures { result ≡ is_subject self }
    {
        match self.kind {
            CERTIFY => is_certify(self.arguments),
            MINIMA => is_minima(self.arguments),
            REMOVE => is_remove(self.arguments),
            REJOIN => is_seat_and_life(self.arguments),
            _ => false,
        }
    }

    // The least number of days from a proposal of it to the action, where these notices are in force.
    pub fn notice_days(self, x: Notices) -> u32
        ensures { result ≡ notice_days x self.kind }
    {
        if self.kind == REJOIN {
            x.restart as u32
        } else {
            x.ordinary as u32
        }
    }
}

// The argument bytes of a seat and a life.
fn seat_and_life(seat: u8, life: u32) -> u64
    ensures { result ≡ seat_and_life seat life }
{
    (seat as u64) + 256 * (life as u64)
}

// The subject of each action that needs a notice, and that of any other: one function for each, as the definitions have it, though the first and the
// last differ in the kind alone.
pub fn certifies(seat: u8, life: u32) -> Subject
    ensures { result ≡ certifies seat life }
{
    Subject {
        kind: CERTIFY,
        arguments: seat_and_life(seat, life),
    }
}

pub fn sets_minima(x: Minima) -> Subject
    ensures { result ≡ sets_minima x }
{
    Subject {
        kind: MINIMA,
        arguments: (x.margin as u64)
            + 256 * (x.least as u64)
            + 65536 * (x.silence as u64)
            + 4294967296 * (x.notices.ordinary as u64)
            + 1099511627776 * (x.notices.restart as u64),
    }
}

pub fn removes(seat: u8) -> Subject
    ensures { result ≡ removes seat }
{
    Subject {
        kind: REMOVE,
        arguments: seat as u64,
    }
}

pub fn rejoins(seat: u8, life: u32) -> Subject
    ensures { result ≡ rejoins seat life }
{
    Subject {
        kind: REJOIN,
        arguments: seat_and_life(seat, life),
    }
}

pub const NO_SUBJECT: Subject = Subject {
    kind: 0,
    arguments: 0,
};
