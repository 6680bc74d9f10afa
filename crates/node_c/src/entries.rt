// The calls for C: each is the call by value on the node of an image, with its answer as a number.
ghost use Rattle.std.specs.Prelude.{◌≡◌, true, cond, leb, length};
ghost use Rattle.binary.specs.Number.{overwrite};
ghost use Rattle.checkpoint.specs.Layout.{checkpoint_size};
ghost use Rattle.image.specs.Layout.{image_size};
ghost use Rattle.image.specs.Image.{with_own};
ghost use Rattle.node_c.specs.Calls.{try_room, writes_image, return, node_start, node_deliver, node_query, node_checkpoint};
ghost use Rattle.node_c.specs.Calls.{node_page, node_roster_import, node_roster_export};

use crate::numbers::{deliver_number, number_in, value_returned};
use checkpoint::layout::CHECKPOINT_SIZE;
use image::layout::IMAGE_SIZE;
use image::{is_image, node_in, put_image, write_image};
use node::Node;
use roster::{export_grant, import_roster};
use state::{Cycle, Day, State};
use verdicts::{AttemptCounts, Own};

// What an export returns of itself: that a node is handed out which started or performed, and its refusals.
const DONE: u32 = 0;

const MALFORMED: u32 = 1;

const BAD_SHEET: u32 = 2;

const NO_ROOM: u32 = 22;

// Whether an image is written with this number: started, performed or open; voted; a miss.
fn writes_image(k: u32) -> bool
    ensures { result ≡ writes_image k }
{
    (k == 0) | (k == 128) | (19..=21).contains(&k)
}

// Rule 22 is tried straight after 1 and 2.
fn try_room(room: bool, k: u32) -> u32
    ensures { result ≡ try_room room k }
{
    if (k == MALFORMED) | (k == BAD_SHEET) {
        return k;
    }
    if room { k } else { NO_ROOM }
}

// For C, what a call handed back that kept the state: the image's state is the checkpoint's bytes that came with the call.
fn hand_on(state: &[u8], own: Own, counts: AttemptCounts, k: u32, out: &mut [u8]) -> u32
    requires { writes_image k ≡ true → length state.now ≡ checkpoint_size }
    ensures value { result ≡ try_room (leb image_size (length out.old)) k }
    ensures out_after { out.new ≡ cond (writes_image result) (overwrite (with_own state.now own counts) out.old) out.old }
{
    let number = try_room(IMAGE_SIZE <= out.len(), k);
    if writes_image(number) {
        put_image(state, own, counts, out);
        return number;
    }
    number
}

// For C, what a call handed back that started or performed: the image is of the whole node, which comes in its parts, so that none is copied.
fn hand_out(state: State, own: Own, counts: AttemptCounts, out: &mut [u8]) -> u32
    ensures value { result ≡ (return (record { node = record { state = state; own = own; counts = counts }; number = 0 }) out.old).number }
    ensures out_after { out.new ≡ (return (record { node = record { state = state; own = own; counts = counts }; number = 0 }) out.old).slice }
{
    if out.len() < IMAGE_SIZE {
        return NO_ROOM;
    }
    write_image(state, own, counts, out);
    DONE
}

pub fn node_start(checkpoint: &[u8], start: &[u8], out: &mut [u8]) -> u32
    ensures value { result ≡ (node_start checkpoint.now start.now out.old).number }
    ensures out_after { out.new ≡ (node_start checkpoint.now start.now out.old).slice }
{
    let reply = Node::start(checkpoint, start);
    let number = number_in(reply.answer);
    if number == 0 {
        let node = reply.node;
        return hand_out(node.state, node.own, node.counts, out);
    }
    try_room(IMAGE_SIZE <= out.len(), number)
}

pub fn node_deliver(image: &[u8], announcement: &[u8], sheet: &[u8], out: &mut [u8]) -> u32
    ensures value { result ≡ (node_deliver image.now announcement.now sheet.now out.old).number }
    ensures out_after { out.new ≡ (node_deliver image.now announcement.now sheet.now out.old).slice }
{
    if !is_image(image) {
        return MALFORMED;
    }
    let reply = node_in(image).deliver(announcement, sheet);
    let k = deliver_number(reply.answer);
    if k == 0 {
        return hand_out(reply.node.state, reply.node.own, reply.node.counts, out);
    }
    hand_on(
        &image[0..CHECKPOINT_SIZE],
        reply.node.own,
        reply.node.counts,
        k,
        out,
    )
}

pub fn node_query(image: &[u8], query: &[u8], out: &mut [u8]) -> u32
    ensures value { result ≡ (node_query image.now query.now out.old).number }
    ensures out_after { out.new ≡ (node_query image.now query.now out.old).slice }
{
    if !is_image(image) {
        return MALFORMED;
    }
    let held = node_in(image);
    let reply = held.query(query);
    let k = number_in(reply.answer);
    let node = reply.node;
    hand_on(&image[0..CHECKPOINT_SIZE], node.own, node.counts, k, out)
}

pub fn node_checkpoint(image: &[u8], out: &mut [u8]) -> u32
    ensures value { result ≡ (node_checkpoint image.now out.old).number }
    ensures out_after { out.new ≡ (node_checkpoint image.now out.old).slice }
{
    if !is_image(image) {
        return MALFORMED;
    }
    number_in(node_in(image).checkpoint(out).answer)
}

// The lines in the bits above the answer.
pub fn node_page(image: &[u8], day: u32, out: &mut [u8]) -> u32
    ensures value { result ≡ (node_page image.now day out.old).number }
    ensures out_after { out.new ≡ (node_page image.now day out.old).slice }
{
    if !is_image(image) {
        return MALFORMED;
    }
    value_returned(node_in(image).page(Day(day), out).answer)
}

// The number of announcements in the bits above the answer.
#[tactic(auto, unfolding(crate::specs::Calls::node_roster_import))]
pub fn node_roster_import(roster: &[u8], cycle: u32, day: u32, out: &mut [u8]) -> u32
    ensures value { result ≡ (node_roster_import roster.now cycle day out.old).number }
    ensures out_after { out.new ≡ (node_roster_import roster.now cycle day out.old).slice }
{
    value_returned(import_roster(roster, Cycle(cycle), Day(day), out))
}

// The length of the line in the bits above the answer.
#[tactic(auto, unfolding(crate::specs::Calls::node_roster_export))]
pub fn node_roster_export(announcement: &[u8], out: &mut [u8]) -> u32
    ensures value { result ≡ (node_roster_export announcement.now out.old).number }
    ensures out_after { out.new ≡ (node_roster_export announcement.now out.old).slice }
{
    value_returned(export_grant(announcement, out))
}
