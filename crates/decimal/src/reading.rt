// Numbers read from decimal digits.
ghost use Rattle.std.specs.Prelude.{◌≡◌, ◌+◌, ◌-◌, ◌*◌, ◌^◌, ◌≤◌, ◌<◌, length, drop};
ghost use Rattle.decimal.specs.Code.{digits_in, most_read};

// A number that was read, and where its digits end.
#[derive(Clone, Copy, Debug, PartialEq, Eq)]
pub struct Number {
    pub value: u64,
    pub end: usize,
}

// The number that goes on with a digit.
fn with_digit(value: u64, c: u8) -> u64
    requires { (48 ≤ c) × ((c ≤ 57) × (value < 10 ^ most_read)) }
    ensures { result ≡ 10 * value + (c - 48) }
{
    10 * value + ((c - b'0') as u64)
}

// Reads the digits at a position, up to as many as told. The position may lie past the end, so it is no part of the text that a caller would cut.
pub fn number_at(text: &[u8], at: usize, most: usize) -> Number
    requires { most ≤ most_read }
    ensures value { (result.value, drop result.end text.now) ≡ digits_in most 0 (drop at text.now) }
    ensures bound { result.end ≤ length text.now }
{
    let mut value: u64 = 0;
    let most_end = at.saturating_add(most).min(text.len());
    for end in at..most_end {
        if !text[end].is_ascii_digit() {
            return Number { value, end };
        }
        value = with_digit(value, text[end]);
    }
    Number {
        value,
        end: most_end,
    }
}
