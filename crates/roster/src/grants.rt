// Grant announcements written.
ghost use Rattle.std.specs.Prelude.{◌≡◌, ◌++◌, ◌+◌, ◌*◌, ◌≤◌, length};
ghost use Rattle.lists.specs.Table.{fill};
ghost use Rattle.binary.specs.Number.{to_bytes, overwrite};
ghost use Rattle.binary.specs.Splice.{splice};
ghost use Rattle.state.specs.Kinds.{kind_grant};
ghost use Rattle.records.specs.declared.Action.TheVariants.{Grant};
ghost use Rattle.records.specs.Layout.{announcement_length, announcement_size, arguments_size};
ghost use Rattle.records.specs.Announcement.{argument_bytes, announcement_bytes};
ghost use Rattle.roster.specs.Calls.{grant_of, grants_of, bytes_of};

use binary::{put_u16, put_u32};
use records::layout::{ANNOUNCEMENT_LENGTH, ANNOUNCEMENT_SIZE};
use state::kinds::GRANT;
use state::{Cycle, Day, Login};

// What stands before the arguments: length, kind, cycle and day.
fn put_head(out: &mut [u8], at: usize, cycle: Cycle, day: Day)
    requires { at + 12 ≤ length out.old }
    ensures { out.new ≡ splice out.old at
        (to_bytes 2 announcement_length ++ (to_bytes 2 kind_grant ++ (to_bytes 4 cycle.0 ++ to_bytes 4 day.0))) }
{
    put_u16(out, at, ANNOUNCEMENT_LENGTH);
    put_u16(out, at + 2, GRANT);
    put_u32(out, at + 4, cycle.0);
    put_u32(out, at + 8, day.0);
}

// The arguments of a grant: login, end day and rights, and two bytes that are not used.
fn put_arguments(out: &mut [u8], at: usize, row: Login)
    requires { at + arguments_size ≤ length out.old }
    ensures { out.new ≡ splice out.old at (fill arguments_size 0 (argument_bytes (Grant row))) }
{
    put_u32(out, at, row.login);
    put_u32(out, at + 4, row.end.0);
    put_u16(out, at + 8, row.rights);
    put_u16(out, at + 10, 0);
}

// The announcement that grants a row in a cycle, on a day.
pub fn put_grant(out: &mut [u8], at: usize, cycle: Cycle, day: Day, row: Login)
    requires { at + announcement_size ≤ length out.old }
    ensures { out.new ≡ splice out.old at (announcement_bytes (grant_of cycle day row)) }
{
    put_head(out, at, cycle, day);
    put_arguments(out, at + 12, row);
}

// The grants of rows, one behind the other, in cycles that rise by one.
#[tactic(auto, using(crate::proofs::GrantBytes::grants_written))]
pub fn put_grants(out: &mut [u8], cycle: Cycle, day: Day, rows: &[Login])
    requires { announcement_size * length rows.now ≤ length out.old }
    ensures { out.new ≡ overwrite (bytes_of (grants_of cycle day rows.now)) out.old }
{
    let mut next = cycle;
    for (i, row) in rows.iter().enumerate() {
        put_grant(out, ANNOUNCEMENT_SIZE * i, next, day, *row);
        next = next.next();
    }
}
