// The table of no (01, and the rows that 02 adds): why a call is refused, and what several rules come to.
#![tactic(auto)]

ghost use Rattle.std.specs.Prelude.{◌≡◌};
ghost use Rattle.refusals.specs.Refusals.{number_of, number_in, refuse_if, lowest};

// A row of the table, under its name in the header for C.
#[derive(Clone, Copy, Debug, PartialEq, Eq)]
pub enum Refusal {
    Malformed = 1,
    BadSheet,
    Halted,
    CyclePassed,
    CycleAhead,
    LastCycle,
    DayBack,
    NotSigned,
    SeatUnfit,
    NotNoticed,
    TableFull,
    QuorumLost,
    NotFound,
    TooLow,
    CannotVote,
    VotedOther,
    Locked,
    Silent,
    NotListed,
    Ended,
    RightNotHeld,
    NoRoom,
    NoPageRoom,
    BadRoster,
    NoRosterRoom,
    OutOfRange,
    BadShareNumber,
    TooShort,
}

impl Refusal {
    pub fn number(self) -> u8
        ensures { result ≡ number_of self }
    {
        self as u8
    }
}

// Refused where the rule applies.
pub fn refuse_if(applies: bool, refusal: Refusal) -> Result<(), Refusal>
    ensures { number_in result ≡ refuse_if applies (number_of refusal) }
{
    if applies { Err(refusal) } else { Ok(()) }
}

// The lower of two refusal numbers, or the other one where one is 0: for callers that have numbers. lowest_refusal does not call it: a delivery then
// took 30 to 190 instructions more.
pub fn lowest(a: u8, b: u8) -> u8
    ensures { result ≡ lowest a b }
{
    if a == 0 {
        return b;
    }
    if b == 0 {
        return a;
    }
    if a < b { a } else { b }
}

// The lower of two refusals, where either or both refuse.
pub fn lowest_refusal(a: Result<(), Refusal>, b: Result<(), Refusal>) -> Result<(), Refusal>
    ensures { number_in result ≡ lowest (number_in a) (number_in b) }
{
    match (a, b) {
        (Ok(_), verdict) => verdict,
        (Err(_), Ok(_)) => a,
        (Err(x), Err(y)) => if x.number() < y.number() { a } else { b },
    }
}
