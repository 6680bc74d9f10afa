// The rows of a roster.
ghost use Rattle.std.specs.Prelude.{◌≡◌, ◌≤◌, List, [], ◌∷◌, ◌++◌, length, take, OnSome, IfNone};
ghost use Rattle.state.specs.declared.Login.{Login};
ghost use Rattle.roster.specs.Roster.{most_lines};

use crate::MOST_LINES;
use state::{Login, NO_LOGIN};
use std::marker::Model;

// Up to 64 rows. A table with a count beside it: memory is fixed, and there is no heap.
#[derive(Drop)]
pub struct Rows {
    table: [Login; MOST_LINES],
    count: usize,
}

impl Model for Rows {
    ghost Value = { List Login };

    ghost view = { λ r. take r.count r.table };

    ghost invariant = { λ r. r.count ≤ most_lines };
}

impl Rows {
    pub fn new() -> Self
        ensures { result ≡ [] }
    {
        Rows {
            table: [NO_LOGIN; MOST_LINES],
            count: 0,
        }
    }

    pub fn all(&self) -> &[Login]
        ensures value { result.now ≡ self.now }
        ensures few { length result.now ≤ most_lines }
    {
        &self.table[..self.count]
    }

    // One row more, where there is room.
    pub fn push(&mut self, row: Login) -> Option<()>
        ensures room { OnSome result (self.new ≡ self.old ++ (row ∷ [])) }
        ensures few { OnSome result (length self.new ≤ most_lines) }
        ensures full { IfNone result (length self.old ≡ most_lines) }
    {
        if self.count == MOST_LINES {
            return None;
        }
        self.table[self.count] = row;
        self.count += 1;
        Some(())
    }
}
