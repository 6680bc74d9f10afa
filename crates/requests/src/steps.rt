// The request at the front of the input, answered.
ghost use Rattle.std.specs.Prelude.{◌≡◌, ◌≤◌, length};
ghost use Rattle.node.specs.Replies as by_value;
ghost use Rattle.requests.specs.Requests.{is_none, cuts, answers, deliver_answer, query_answer, after_start, step_start, step_deliver, step_query, step_of};

use crate::framing::{frame, is_announcement, is_checkpoint_kind, is_query};
use crate::{Answer, Step};
use node::{Delivered, Node, Reply};
use records::layout::{SHEET, START};
use refusals::Refusal;
use state::Cycle;

// Whether there is no node: the blank one, of cycle 0, stands for none.
fn is_none(n: Node) -> bool
    ensures { result ≡ is_none n }
{
    n.state.cycle == Cycle(0)
}

// A record is cut or out of its place.
fn cut(n: Node) -> Step
    ensures { result ≡ cuts n }
{
    Step {
        node: n,
        answer: Answer::No(Refusal::Malformed.number()),
        used: 0,
        ends: true,
    }
}

fn deliver_answer(answer: Result<Delivered, Refusal>) -> Answer
    ensures { result ≡ deliver_answer (by_value.deliver_answer answer) }
{
    match answer {
        Ok(Delivered::Done) => Answer::Done,
        Ok(Delivered::Voted) => Answer::Voted,
        Err(refusal) => Answer::No(refusal.number()),
    }
}

fn query_answer(answer: Result<(), Refusal>) -> Answer
    ensures { result ≡ query_answer (by_value.query_answer answer) }
{
    match answer {
        Ok(_) => Answer::Open,
        Err(refusal) => Answer::No(refusal.number()),
    }
}

// What a request of that many bytes came to.
fn answered(node: Node, answer: Answer, used: usize) -> Step
    ensures { result ≡ answers node answer used }
{
    Step {
        node,
        answer,
        used,
        ends: false,
    }
}

// An accepted start replaces the node, a refused one leaves it.
fn after_start(n: Node, used: usize, reply: Reply<()>) -> Step
    ensures { result ≡ after_start n used (by_value.reply by_value.start_answer reply) }
{
    match reply.answer {
        Ok(_) => answered(reply.node, Answer::Started, used),
        Err(refusal) => answered(n, Answer::No(refusal.number()), used),
    }
}

// A start record of that many bytes, then a checkpoint.
#[tactic(auto, unfolding(crate::specs::Requests::step_start))]
fn step_start(n: Node, first: usize, b: &[u8]) -> Step
    requires { first ≤ length b.now }
    ensures { result ≡ step_start n first b.now }
{
    let rest = &b[first..];
    let Some(second) = frame(rest) else {
        return cut(n);
    };
    if !is_checkpoint_kind(second.kind) {
        return cut(n);
    }
    let reply = Node::start(&rest[0..second.size], &b[0..first]);
    after_start(n, first + second.size, reply)
}

// An announcement of that many bytes, then a sheet.
#[tactic(auto, unfolding(crate::specs::Requests::step_deliver))]
fn step_deliver(n: Node, first: usize, b: &[u8]) -> Step
    requires { first ≤ length b.now }
    ensures { result ≡ step_deliver n first b.now }
{
    let rest = &b[first..];
    let Some(second) = frame(rest) else {
        return cut(n);
    };
    if second.kind != SHEET {
        return cut(n);
    }
    let reply = n.deliver(&b[0..first], &rest[0..second.size]);
    answered(
        reply.node,
        deliver_answer(reply.answer),
        first + second.size,
    )
}

// A query of that many bytes.
#[tactic(auto, unfolding(crate::specs::Requests::step_query))]
fn step_query(n: Node, size: usize, b: &[u8]) -> Step
    requires { size ≤ length b.now }
    ensures { result ≡ step_query n size b.now }
{
    let reply = n.query(&b[0..size]);
    answered(reply.node, query_answer(reply.answer), size)
}

// Answers the request at the front of the input. The bytes hold it whole, or are all that is left of the input.
#[tactic(auto, unfolding(crate::specs::Requests::step_of))]
pub fn take_step(n: Node, b: &[u8]) -> Step
    ensures { result ≡ step_of n b.now }
{
    let Some(front) = frame(b) else {
        return cut(n);
    };
    if front.kind == START {
        return step_start(n, front.size, b);
    }
    if is_none(n) {
        return cut(n);
    }
    if is_query(front.kind) {
        return step_query(n, front.size, b);
    }
    if is_announcement(front.kind) {
        return step_deliver(n, front.size, b);
    }
    cut(n)
}
