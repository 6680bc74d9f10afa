// How many shares there are, and how many of them give the key.
ghost use Rattle.std.specs.Prelude.{◌≡◌, ◌≤◌, true, false, IfOk, IfErr};
ghost use Rattle.shares.specs.Shares.{in_range, most_shares};

use crate::MOST_SHARES;
use refusals::Refusal;

#[derive(Clone, Copy)]
pub struct Scheme {
    pub needed: usize,
    pub count: usize,
    ghost needed_above: { 2 ≤ needed },
    ghost needed_below: { needed ≤ count },
    ghost count_below: { count ≤ most_shares },
}

impl Scheme {
    // Refused unless k and n are from 2 to 16, and k is at most n.
    pub fn new(k: u32, n: u32) -> Result<Self, Refusal>
        ensures ok { IfOk result (λ s. (in_range k n ≡ true) × ((s.needed ≡ k) × (s.count ≡ n))) }
        ensures err { IfErr result (λ e. (in_range k n ≡ false) × (e ≡ Refusal.OutOfRange)) }
    {
        if 2 <= k && k <= n && n <= MOST_SHARES as u32 {
            Ok(Scheme {
                needed: k as usize,
                count: n as usize,
            })
        } else {
            Err(Refusal::OutOfRange)
        }
    }
}
