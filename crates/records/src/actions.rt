// What is chosen by the case of an action: its kind number, the subject of the notice that it needs, and the seat that it names.
ghost use Rattle.std.specs.Prelude.{◌≡◌};
ghost use Rattle.records.specs.Actions.{kind_of, subject_of, seat_of};

use super::Action;
use state::Subject;
use state::kinds::{CANCEL, CERTIFY, END, GRANT, MINIMA, PRESENTS, PROPOSE, REJOIN, REMOVE};
use state::limits::SEAT_NUMBERS;
use state::subjects::{NO_SUBJECT, certifies, rejoins, removes, sets_minima};

impl Action {
    pub fn kind(self) -> u16
        ensures { result ≡ kind_of self }
    {
        match self {
            Action::Propose { .. } => PROPOSE,
            Action::Cancel { .. } => CANCEL,
            Action::Presents { .. } => PRESENTS,
            Action::Certify { .. } => CERTIFY,
            Action::Minima { .. } => MINIMA,
            Action::Remove { .. } => REMOVE,
            Action::Rejoin { .. } => REJOIN,
            Action::Grant { .. } => GRANT,
            Action::End { .. } => END,
        }
    }

    // That of kind 0 where the action needs no notice. No Option: an unused row has this subject, so what is found for it is no proposal, and a
    // caller asks once whether the row is used.
    pub fn subject(self) -> Subject
        ensures { result ≡ subject_of self }
    {
        match self {
            Action::Certify { seat, life } => certifies(seat, life),
            Action::Minima { minima } => sets_minima(minima),
            Action::Remove { seat } => removes(seat),
            Action::Rejoin { seat, life } => rejoins(seat, life),
            _ => NO_SUBJECT,
        }
    }

    // One above the last seat where the action names none. No Option: an action may name any number, so a caller asks whether it is a seat in either
    // case.
    pub fn seat(self) -> u8
        ensures { result ≡ seat_of self }
    {
        match self {
            Action::Presents { seat, .. } => seat,
            Action::Certify { seat, .. } => seat,
            Action::Remove { seat } => seat,
            Action::Rejoin { seat, .. } => seat,
            _ => SEAT_NUMBERS,
        }
    }
}
