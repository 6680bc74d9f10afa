// The field of 256 elements with polynomial 0x11B. Products go by tables, which are read at places that depend on the operands: timing is not covered.
#![tactic(auto)]

ghost use Rattle.std.specs.Prelude.{◌≡◌, ◌≢◌, ◌<◌};
ghost use Rattle.gf256.specs.Field.{add, mul as mul_of, power as power_of, divide as divide_of};

mod logarithm_table;
mod power_table;

pub use logarithm_table::logarithms;
pub use power_table::powers;

#[tactic(auto, unfolding(crate::specs::Field::add))]
pub fn sum(a: u8, b: u8) -> u8
    ensures { result ≡ add a b }
{
    a ^ b
}

// The logarithm of a byte that is not 0.
fn log(a: u8) -> usize
    ensures { (result < 255) × (a ≢ 0 → power_of result 3 ≡ a) }
{
    usize::from(logarithms()[usize::from(a)])
}

// 3 to the power i: its powers repeat after 255.
#[tactic(auto, using(crate::proofs::Laws::by_logarithms))]
fn power(i: usize) -> u8
    requires { i < 510 }
    ensures { result ≡ power_of i 3 }
{
    if i < 255 {
        powers()[i]
    } else {
        powers()[i - 255]
    }
}

// A factor of many products, whose logarithm is read once.
#[derive(Clone, Copy, Debug, PartialEq, Eq)]
pub struct Factor {
    pub byte: u8,
    log: usize,
    ghost log_below: { log < 255 },
    ghost log_is: { byte ≢ 0 → power_of log 3 ≡ byte },
}

impl Factor {
    pub fn new(byte: u8) -> Self
        ensures { result.byte ≡ byte }
    {
        Factor {
            byte,
            log: log(byte),
        }
    }

    #[tactic(auto, using(crate::proofs::Laws::by_logarithms))]
    pub fn times(self, b: u8) -> u8
        ensures { result ≡ mul_of self.byte b }
    {
        if self.byte == 0 || b == 0 {
            0
        } else {
            power(self.log + log(b))
        }
    }
}

pub fn mul(a: u8, b: u8) -> u8
    ensures { result ≡ mul_of a b }
{
    Factor::new(a).times(b)
}

#[tactic(auto, using(crate::proofs::Laws::by_logarithms))]
pub fn divide(a: u8, b: u8) -> u8
    ensures { result ≡ divide_of a b }
{
    if a == 0 || b == 0 {
        0
    } else {
        power(log(a) + (255 - log(b)))
    }
}
