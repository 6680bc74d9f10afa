// What each kind asks of the state: rules 9 and 11 to 14.
ghost use Rattle.std.specs.Prelude.{◌≡◌, cond, ◌+◌, ◌-◌, ◌≤◌};
ghost use Rattle.state.specs.Kinds.{kind_propose, kind_cancel, kind_presents, kind_certify, kind_minima, kind_remove, kind_rejoin, kind_grant, kind_end};
ghost use Rattle.state.specs.Limits.{seat_count};
ghost use Rattle.state.specs.Seats.{certified, present};
ghost use Rattle.state.specs.declared.Day.{Day};
ghost use Rattle.state.specs.declared.State.{State};
ghost use Rattle.records.specs.Actions.{kind_of};
ghost use Rattle.refusals.specs.Refusals.{number_in};
ghost use Rattle.rules.specs.Code.{FindsSeats, FindsEviction};
ghost use Rattle.rules.specs.Rules.{quorum_refusal, present_without, check_refusal};

use crate::Found;
use records::Action;
use refusals::{Refusal, refuse_if};
use state::seats::{CERTIFIED, FREE, PRESENT, quorum};
use state::{Day, Seat, State};
use tables::is_full;
use tables::logins::is_listed;
use tables::proposals::has_proposal;

// Rule 12, with p, m and k after the action.
#[tactic(auto, unfolding(crate::specs::Rules::quorum_refusal))]
fn quorum_refusal(p: u8, m: u8, k: u8) -> Result<(), Refusal>
    ensures { number_in result ≡ quorum_refusal p m k }
{
    refuse_if((p as u32) < quorum(p, m, k), Refusal::QuorumLost)
}

// p after a remove of this seat.
#[tactic(auto, unfolding(crate::specs::Rules::present_without))]
fn present_without(seat: Seat, p: u8) -> u8
    ensures { result ≡ present_without seat p }
{
    p.saturating_sub(u8::from(seat.is_present()))
}

// The standing that kind 3 asks for: the other one than it gives (`given_standing` in actions). Each is a line, in the crate whose definition says it.
fn fit_standing(flag: bool) -> u8
    ensures { result ≡ cond flag certified present }
{
    if flag { CERTIFIED } else { PRESENT }
}

// p after kind 3.
fn present_after(p: u8, flag: bool) -> u8
    requires { p ≤ seat_count }
    ensures { result ≡ cond flag (p + 1) (p - 1) }
{
    if flag { p + 1 } else { p.saturating_sub(1) }
}

// For each kind: its arguments, of which an action of that kind has some, and their rules. Each promises of its kind what the definition says of all.
#[tactic(auto, unfolding(crate::specs::Rules::check_refusal))]
pub fn propose_check(s: State, action: Action) -> Result<(), Refusal>
    requires { kind_of action ≡ kind_propose }
    ensures { (d : Day) → number_in result ≡ check_refusal s d action }
{
    let Action::Propose { subject } = action else {
        return Err(Refusal::Malformed);
    };
    refuse_if(is_full(s.proposals), Refusal::TableFull)
}

#[tactic(auto, unfolding(crate::specs::Rules::check_refusal))]
pub fn cancel_check(s: State, action: Action) -> Result<(), Refusal>
    requires { kind_of action ≡ kind_cancel }
    ensures { (d : Day) → number_in result ≡ check_refusal s d action }
{
    let Action::Cancel { cycle } = action else {
        return Err(Refusal::Malformed);
    };
    refuse_if(!has_proposal(s.proposals, cycle), Refusal::NotFound)
}

#[tactic(auto, unfolding(crate::specs::Rules::check_refusal))]
pub fn presents_check(s: State, found: Found, action: Action) -> Result<(), Refusal>
    requires { (kind_of action ≡ kind_presents) × FindsSeats s action found }
    ensures { (d : Day) → number_in result ≡ check_refusal s d action }
{
    let Action::Presents { seat: i, flag } = action else {
        return Err(Refusal::Malformed);
    };
    if found.seat.standing != fit_standing(flag) {
        return Err(Refusal::SeatUnfit);
    }
    let p = present_after(found.present, flag);
    quorum_refusal(p, s.minima.margin, s.minima.least)
}

#[tactic(auto, unfolding(crate::specs::Rules::check_refusal))]
pub fn certify_check(s: State, found: Found, action: Action) -> Result<(), Refusal>
    requires { (kind_of action ≡ kind_certify) × FindsSeats s action found }
    ensures { (d : Day) → number_in result ≡ check_refusal s d action }
{
    let Action::Certify { seat: i, life } = action else {
        return Err(Refusal::Malformed);
    };
    refuse_if(found.seat.standing != FREE, Refusal::SeatUnfit)
}

#[tactic(auto, unfolding(crate::specs::Rules::check_refusal))]
pub fn minima_check(s: State, found: Found, action: Action) -> Result<(), Refusal>
    requires { (kind_of action ≡ kind_minima) × FindsSeats s action found }
    ensures { (d : Day) → number_in result ≡ check_refusal s d action }
{
    let Action::Minima { minima } = action else {
        return Err(Refusal::Malformed);
    };
    quorum_refusal(found.present, minima.margin, minima.least)
}

#[tactic(auto, unfolding(crate::specs::Rules::check_refusal))]
pub fn remove_check(s: State, found: Found, action: Action) -> Result<(), Refusal>
    requires { (kind_of action ≡ kind_remove) × FindsSeats s action found }
    ensures { (d : Day) → number_in result ≡ check_refusal s d action }
{
    let Action::Remove { seat: i } = action else {
        return Err(Refusal::Malformed);
    };
    refuse_if(!found.seat.is_active(), Refusal::SeatUnfit)?;
    let p = present_without(found.seat, found.present);
    quorum_refusal(p, s.minima.margin, s.minima.least)
}

#[tactic(auto, unfolding(crate::specs::Rules::check_refusal))]
pub fn rejoin_check(s: State, found: Found, action: Action) -> Result<(), Refusal>
    requires { (kind_of action ≡ kind_rejoin) × FindsSeats s action found }
    ensures { (d : Day) → number_in result ≡ check_refusal s d action }
{
    let Action::Rejoin { seat: i, life } = action else {
        return Err(Refusal::Malformed);
    };
    refuse_if(!found.seat.is_active(), Refusal::SeatUnfit)?;
    refuse_if(life <= found.seat.life, Refusal::TooLow)
}

#[tactic(auto, unfolding(crate::specs::Rules::check_refusal))]
pub fn grant_check(found: Found, d: Day, action: Action) -> Result<(), Refusal>
    requires { kind_of action ≡ kind_grant }
    ensures { (s : State) → FindsEviction s action found → number_in result ≡ check_refusal s d action }
{
    let Action::Grant { row } = action else {
        return Err(Refusal::Malformed);
    };
    let kept = found.eviction.is_some_and(|evicted| !evicted.is_ended(d));
    refuse_if(kept, Refusal::TableFull)?;
    refuse_if(row.end < d, Refusal::TooLow)
}

#[tactic(auto, unfolding(crate::specs::Rules::check_refusal))]
pub fn end_check(s: State, action: Action) -> Result<(), Refusal>
    requires { kind_of action ≡ kind_end }
    ensures { (d : Day) → number_in result ≡ check_refusal s d action }
{
    let Action::End { login } = action else {
        return Err(Refusal::Malformed);
    };
    refuse_if(!is_listed(s.logins, login), Refusal::NotFound)
}
