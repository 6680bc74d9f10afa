// Rules 4 to 14: the lowest refusal that applies to an announcement.
#![tactic(auto)]

mod checks;

ghost use Rattle.std.specs.Prelude.{◌≡◌};
ghost use Rattle.records.specs.Actions.{subject_of};
ghost use Rattle.records.specs.declared.Action.TheVariants.{Grant};
ghost use Rattle.refusals.specs.Refusals.{number_in, lowest, ◌or_else◌};
ghost use Rattle.rules.specs.Code.{FindsNotice, Finds};
ghost use Rattle.rules.specs.Rules.{time_refusal, trustee_refusal, notice_refusal, action_refusal};
ghost use Rattle.state.specs.Trustees.{is_majority};
ghost use Rattle.state.specs.declared.Day.{Day};
ghost use Rattle.state.specs.declared.Login.{Login};
ghost use Rattle.state.specs.declared.State.{State};
ghost use Rattle.tables.specs.Code.{eviction_for};

use crate::checks::{
    cancel_check, certify_check, end_check, grant_check, minima_check, presents_check,
    propose_check, rejoin_check, remove_check,
};
use records::{Action, Announcement};
use refusals::{Refusal, lowest_refusal, refuse_if};
use state::kinds::{CANCEL, CERTIFY, END, GRANT, MINIMA, PRESENTS, PROPOSE, REJOIN, REMOVE};
use state::limits::LAST_CYCLE;
use state::seats::{present_seats, seat_at};
use state::trustees::is_majority;
use state::{Cycle, Day, Login, Proposal, Seat, State};
use tables::logins::eviction_for;
use tables::proposals::mature_proposal;

// What the rules ask of the tables and the action uses.
#[derive(Clone, Copy)]
pub struct Found {
    // The number of present seats.
    pub present: u8,
    // The seat that the action names, free where it names none.
    pub seat: Seat,
    // The mature proposal that the action needs, unused where there is none.
    pub notice: Proposal,
    // What a grant evicts.
    pub eviction: Option<Login>,
}

// What a grant evicts; no other action does.
fn eviction_of(s: State, action: Action) -> Option<Login>
    ensures { (y : Login) → action ≡ Grant y → result ≡ eviction_for y.login s.logins }
{
    let Action::Grant { row } = action else {
        return None;
    };
    eviction_for(s.logins, row.login)
}

// Looks it up, once for a delivery.
pub fn find(s: State, d: Day, action: Action) -> Found
    ensures { Finds s d action result }
{
    Found {
        present: present_seats(s.seats),
        seat: seat_at(s.seats, action.seat()),
        notice: mature_proposal(s.proposals, s.minima.notices, action.subject(), d),
        eviction: eviction_of(s, action),
    }
}

// Rules 4 to 7, in this cycle and with this agreed day.
#[tactic(auto, unfolding(crate::specs::Rules::time_refusal))]
pub fn time_refusal(now: Cycle, agreed: Day, a: Announcement) -> Result<(), Refusal>
    ensures { number_in result ≡ time_refusal now agreed a }
{
    if a.cycle < now {
        return Err(Refusal::CyclePassed);
    }
    if now < a.cycle {
        return Err(Refusal::CycleAhead);
    }
    if now == Cycle(LAST_CYCLE) {
        return Err(Refusal::LastCycle);
    }
    refuse_if(a.day < agreed, Refusal::DayBack)
}

// Rule 8.
fn trustee_refusal(trustees: u8, mask: u8) -> Result<(), Refusal>
    ensures { number_in result ≡ trustee_refusal (is_majority trustees mask) }
{
    refuse_if(!is_majority(trustees, mask), Refusal::NotSigned)
}

// Rule 10, where the action has a subject.
#[tactic(auto, unfolding(crate::specs::Rules::notice_refusal))]
fn notice_refusal(found: Found, action: Action) -> Result<(), Refusal>
    ensures { (s : State) (d : Day) → FindsNotice s d action found → number_in result ≡ notice_refusal s d (subject_of action) }
{
    let needed = action.subject().kind != 0;
    refuse_if(needed & !found.notice.is_used(), Refusal::NotNoticed)
}

// The lowest of the refusals of the trustees, of the notice and of the check.
fn refusal(
    unsigned: Result<(), Refusal>,
    unnoticed: Result<(), Refusal>,
    unfit: Result<(), Refusal>,
) -> Result<(), Refusal>
    ensures { number_in result ≡ (number_in unsigned or_else lowest (number_in unnoticed) (number_in unfit)) }
{
    unsigned?;
    lowest_refusal(unnoticed, unfit)
}

// Rules 8 to 14. One decision on the kind number: each kind names the level of its trustees and its check; others are malformed. Whether
// it needs a notice is told by its subject.
#[tactic(auto, unfolding(crate::specs::Rules::action_refusal))]
pub fn action_refusal(
    s: State,
    found: Found,
    d: Day,
    mask1: u8,
    mask2: u8,
    action: Action,
) -> Result<(), Refusal>
    requires { Finds s d action found }
    ensures { number_in result ≡ action_refusal s d mask1 mask2 action }
{
    let kind = action.kind();
    let level1 = trustee_refusal(s.trustees1, mask1);
    let level2 = trustee_refusal(s.trustees2, mask2);
    let notice = notice_refusal(found, action);
    match kind {
        PROPOSE => refusal(level1, notice, propose_check(s, action)),
        CANCEL => refusal(level1, notice, cancel_check(s, action)),
        PRESENTS => refusal(level1, notice, presents_check(s, found, action)),
        CERTIFY => refusal(level2, notice, certify_check(s, found, action)),
        MINIMA => refusal(level2, notice, minima_check(s, found, action)),
        REMOVE => refusal(level2, notice, remove_check(s, found, action)),
        REJOIN => refusal(level1, notice, rejoin_check(s, found, action)),
        GRANT => refusal(level1, notice, grant_check(found, d, action)),
        END => refusal(level1, notice, end_check(s, action)),
        _ => Err(Refusal::Malformed),
    }
}
