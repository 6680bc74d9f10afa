// The misses at the doors.
ghost use Rattle.std.specs.Prelude.{◌≡◌};
ghost use Rattle.verdicts.specs.Attempts.{misses_at, with_misses, no_misses, are_in_range};

use crate::{AttemptCounts, MOST_MISSES};
use records::layout::DOORS;

// The misses at a door, and 0 where there is no such door.
pub fn misses_at(counts: AttemptCounts, door: u8) -> u8
    ensures { result ≡ misses_at door counts }
{
    counts.misses.get(usize::from(door)).copied().unwrap_or(0)
}

// The counts with so many misses at a door.
pub fn with_misses(counts: AttemptCounts, door: u8, misses: u8) -> AttemptCounts
    ensures { result ≡ with_misses door misses counts }
{
    let at = door as usize;
    let mut out = counts;
    if at < DOORS {
        out.misses[at] = misses;
    }
    out
}

pub fn no_misses() -> AttemptCounts
    ensures { result ≡ no_misses }
{
    AttemptCounts { misses: [0; DOORS] }
}

// Whether no count is above the most.
pub fn are_in_range(counts: AttemptCounts) -> bool
    ensures { result ≡ are_in_range counts }
{
    counts.misses.iter().all(|x| *x <= MOST_MISSES)
}
