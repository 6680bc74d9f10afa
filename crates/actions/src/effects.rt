// The nine actions: what each leaves of the parts of a state.
ghost use Rattle.std.specs.Prelude.{◌≡◌, cond};
ghost use Rattle.actions.specs.Code.{seat_after, minima_after, proposals_after};
ghost use Rattle.actions.specs.Perform.{advance};
ghost use Rattle.rules.specs.Code.{Finds};
ghost use Rattle.state.specs.Seats.{certified, present};

use records::{Action, Announcement};
use rules::Found;
use state::limits::{PROPOSAL_ROWS, SEATS};
use state::seats::{CERTIFIED, PRESENT, RETIRED};
use state::{Cycle, Day, Minima, Proposal, Seat, State};
use tables::logins::{end_login, grant_login};
use tables::proposals::{add_proposal, drop_proposal};

// The standing that kind 3 gives.
fn given_standing(flag: bool) -> u8
    ensures { result ≡ cond flag present certified }
{
    if flag { PRESENT } else { CERTIFIED }
}

// The seat that the action names, as it leaves it.
fn seat_after(seat: Seat, action: Action) -> Seat
    ensures { result ≡ seat_after seat action }
{
    match action {
        Action::Presents { flag, .. } => Seat {
            standing: given_standing(flag),
            ..seat
        },
        Action::Certify { life, .. } => Seat {
            standing: CERTIFIED,
            life,
        },
        Action::Remove { .. } => Seat {
            standing: RETIRED,
            ..seat
        },
        Action::Rejoin { life, .. } => Seat { life, ..seat },
        _ => seat,
    }
}

fn minima_after(minima: Minima, action: Action) -> Minima
    ensures { result ≡ minima_after minima action }
{
    if let Action::Minima { minima: named } = action {
        return named.set_over(minima);
    }
    minima
}

// The proposals, in this cycle and for an action that is announced on day d. One that has a subject uses up its notice, of that cycle: a
// `match` of all cases, since with early returns and a test of the subject a delivery takes a tenth longer.
fn proposals_after(
    rows: [Proposal; PROPOSAL_ROWS],
    notice: Cycle,
    cycle: Cycle,
    d: Day,
    action: Action,
) -> [Proposal; PROPOSAL_ROWS]
    ensures { result ≡ proposals_after rows notice cycle d action }
{
    match action {
        Action::Propose { subject } => add_proposal(
            rows,
            Proposal {
                cycle,
                day: d,
                subject,
            },
        ),
        Action::Cancel { cycle: c } => drop_proposal(rows, c),
        Action::Certify { .. } => drop_proposal(rows, notice),
        Action::Minima { .. } => drop_proposal(rows, notice),
        Action::Remove { .. } => drop_proposal(rows, notice),
        Action::Rejoin { .. } => drop_proposal(rows, notice),
        _ => rows,
    }
}

// The state after an announcement is performed, from the one that it sees. One copy, changed in place: a function for each action that hands
// back a state would copy it at each return.
pub fn advance(s: State, found: Found, a: Announcement) -> State
    requires { Finds s a.day a.action found }
    ensures { result ≡ advance s a }
{
    let mut out = s;
    let action = a.action;
    out.cycle = s.cycle.next();
    out.day = a.day;
    out.minima = minima_after(s.minima, action);
    let at = action.seat() as usize;
    if at < SEATS {
        out.seats[at] = seat_after(found.seat, action);
    }
    if let Action::Grant { row } = action {
        out.logins = grant_login(s.logins, row, found.eviction);
        return out;
    }
    if let Action::End { login } = action {
        out.logins = end_login(s.logins, login);
        return out;
    }
    out.proposals = proposals_after(s.proposals, found.notice.cycle, s.cycle, a.day, action);
    out
}
