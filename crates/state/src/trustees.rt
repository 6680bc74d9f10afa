// Majorities of trustees.
ghost use Rattle.std.specs.Prelude.{◌≡◌};
ghost use Rattle.state.specs.Trustees.{ones_below, is_majority};

// The number of ones among the lowest n bits of the mask.
fn ones_below(n: u8, mask: u8) -> u8
    ensures { result ≡ ones_below n mask }
{
    let mut rest = mask;
    let mut ones: u8 = 0;
    for _ in 0..n {
        ones += rest % 2;
        rest /= 2;
    }
    ones
}

// Whether more than half of n trustees are on the mask.
#[tactic(auto, unfolding(crate::specs::Trustees::is_majority))]
pub fn is_majority(n: u8, mask: u8) -> bool
    ensures { result ≡ is_majority n mask }
{
    (n as u16) < 2 * (ones_below(n, mask) as u16)
}
