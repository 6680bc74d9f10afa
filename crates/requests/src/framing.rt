// The records at the front of the input.
ghost use Rattle.std.specs.Prelude.{◌≡◌, ◌≤◌, length};
ghost use Rattle.requests.specs.Framing.{record_head, size_of, is_announcement, is_query, is_checkpoint_kind, least_size, holds_record, frame_of, has_second, holds_request};

use crate::Frame;
use binary::u16_at;
use checkpoint::layout::{CHECKPOINT, CHECKPOINT_SIZE, EARLIER, EARLIER_SIZE};
use records::layout::{
    ANNOUNCEMENT_SIZE, DOOR_QUERY, DOOR_QUERY_SIZE, QUERY, QUERY_SIZE, SHEET, SHEET_HEAD, START,
    START_SIZE,
};
use state::kinds::{END, PROPOSE};

// The length field and the kind.
const RECORD_HEAD: usize = 4;

// Whether a record of this kind is an announcement.
pub fn is_announcement(kind: u16) -> bool
    ensures { result ≡ is_announcement kind }
{
    (PROPOSE..=END).contains(&kind)
}

// Whether a record of this kind is a query, at door 0 or at a door that it names.
pub fn is_query(kind: u16) -> bool
    ensures { result ≡ is_query kind }
{
    (kind == QUERY) | (kind == DOOR_QUERY)
}

// Whether a record of this kind is a checkpoint, of the kind that is written or of the earlier one.
pub fn is_checkpoint_kind(kind: u16) -> bool
    ensures { result ≡ is_checkpoint_kind kind }
{
    (kind == CHECKPOINT) | (kind == EARLIER)
}

// The fewest bytes of a record of this kind.
#[tactic(auto, unfolding(crate::specs::Framing::least_size))]
fn least_size(kind: u16) -> usize
    ensures { result ≡ least_size kind }
{
    if is_announcement(kind) {
        return ANNOUNCEMENT_SIZE;
    }
    match kind {
        CHECKPOINT => CHECKPOINT_SIZE,
        EARLIER => EARLIER_SIZE,
        SHEET => SHEET_HEAD,
        START => START_SIZE,
        QUERY => QUERY_SIZE,
        DOOR_QUERY => DOOR_QUERY_SIZE,
        _ => RECORD_HEAD,
    }
}

// The bytes of the record at the front, by its length field.
fn size_of(b: &[u8]) -> usize
    requires { record_head ≤ length b.now }
    ensures { result ≡ size_of b.now }
{
    (u16_at(b, 0) as usize) + 2
}

// Whether the bytes hold all of the record at their front.
#[tactic(auto, unfolding(crate::specs::Framing::holds_record))]
fn holds_record(b: &[u8]) -> bool
    ensures { result ≡ holds_record b.now }
{
    RECORD_HEAD <= b.len() && size_of(b) <= b.len()
}

// Frames the record at the front of the input: none where it is too short for its kind, or the input ends within it.
#[tactic(auto, unfolding(crate::specs::Framing::frame_of))]
pub fn frame(b: &[u8]) -> Option<Frame>
    ensures { result ≡ frame_of b.now }
{
    if !holds_record(b) {
        return None;
    }
    let size = size_of(b);
    let kind = u16_at(b, 2);
    if size < least_size(kind) {
        return None;
    }
    Some(Frame { size, kind })
}

// Whether a request whose first record has this kind has a second one.
fn has_second(kind: u16) -> bool
    ensures { result ≡ has_second kind }
{
    is_announcement(kind) | (kind == START)
}

// Whether the bytes hold all records of the request at their front, so that more input changes nothing in its answer.
#[tactic(auto, unfolding(crate::specs::Framing::holds_request))]
pub fn holds_request(b: &[u8]) -> bool
    ensures { result ≡ holds_request b.now }
{
    if !holds_record(b) {
        return false;
    }
    !has_second(u16_at(b, 2)) || holds_record(&b[size_of(b)..])
}
