// The calls, by value: each consumes the node and hands back the next one with its answer.
ghost use Rattle.std.specs.Prelude.{◌≡◌};
ghost use Rattle.node.specs.Replies.{reply, start_answer, deliver_answer, query_answer, checkpoint_answer, page_answer};
ghost use Rattle.node.specs.Deliver.{leaves, votes, deliver_of};
ghost use Rattle.node.specs.Query.{query_of};
ghost use Rattle.node.specs.Start.{blank_node, refuses_start, start_read, start_of};
ghost use Rattle.node.specs.Checkpoint.{checkpoint_of, checkpoint_slice};
ghost use Rattle.node.specs.Page.{page_of, page_slice};
ghost use Rattle.refusals.specs.Refusals.{number_of};

use crate::queries::ask;
use crate::{Delivered, Node, Reply};
use actions::advance;
use checkpoint::layout::CHECKPOINT_SIZE;
use checkpoint::{is_checkpoint, state_in, write_checkpoint};
use page::layout::LINE_SIZE;
use page::write_page;
use records::layout::ANNOUNCEMENT_SIZE;
use records::{Start, is_sheet, read_announcement, read_start};
use refusals::Refusal;
use rules::find;
use state::limits::SEATS;
use state::{Day, NO_SEAT, State, blank_state};
use tables::count_used;
use tables::proposals::{drop_lapsed, has_lapsed};
use verdicts::{
    Own, deliver_refusal, no_misses, own_afresh, shows_quorum, start_refusal, vote_refusal,
    with_vote,
};

// Done, with this state.
fn leave(state: State, own: Own) -> Reply<Delivered>
    ensures { reply deliver_answer result ≡ leaves state own }
{
    Reply {
        node: Node {
            state,
            own: own_afresh(own.seat, own.life),
            counts: no_misses(),
        },
        answer: Ok(Delivered::Done),
    }
}

fn vote_for(n: Node, announcement: &[u8; ANNOUNCEMENT_SIZE]) -> Reply<Delivered>
    ensures { reply deliver_answer result ≡ votes n announcement.now }
{
    let own = with_vote(n.own, announcement);
    Reply {
        node: Node { own, ..n },
        answer: Ok(Delivered::Voted),
    }
}

// The blank node, all zero: it stands for none.
#[tactic(auto, unfolding(crate::specs::Start::blank_node))]
pub fn blank_node() -> Node
    ensures { result ≡ blank_node }
{
    Node {
        state: blank_state(),
        own: own_afresh(0, 0),
        counts: no_misses(),
    }
}

fn refuse_start(refusal: Refusal) -> Reply<()>
    ensures { reply start_answer result ≡ refuses_start (number_of refusal) }
{
    Reply {
        node: blank_node(),
        answer: Err(refusal),
    }
}

// A well-formed start record with the state of a well-formed checkpoint.
#[tactic(auto, unfolding(crate::specs::Start::start_read))]
fn start_read(s: State, x: Start) -> Reply<()>
    ensures { reply start_answer result ≡ start_read s x }
{
    if let Err(refusal) = start_refusal(s, x) {
        return refuse_start(refusal);
    }
    Reply {
        node: Node {
            state: s,
            own: own_afresh(x.seat, x.life),
            counts: no_misses(),
        },
        answer: Ok(()),
    }
}

impl Node {
    // From a checkpoint, at the seat and under the life of the start record. A refused start hands back the blank node.
    #[tactic(auto, using(checkpoint::proofs::Fields::read_ok), unfolding(crate::specs::Start::start_of))]
    pub fn start(checkpoint: &[u8], start: &[u8]) -> Reply<()>
        ensures { reply start_answer result ≡ start_of checkpoint.now start.now }
    {
        let Some(x) = read_start(start) else {
            return refuse_start(Refusal::Malformed);
        };
        if !is_checkpoint(checkpoint) {
            return refuse_start(Refusal::Malformed);
        }
        start_read(state_in(checkpoint), x)
    }

    fn given<T>(self, answer: T) -> Reply<T>
        ensures { result ≡ record { node = self; answer = Ok answer } }
    {
        Reply {
            node: self,
            answer: Ok(answer),
        }
    }

    fn refused<T>(self, refusal: Refusal) -> Reply<T>
        ensures { result ≡ record { node = self; answer = Err refusal } }
    {
        Reply {
            node: self,
            answer: Err(refusal),
        }
    }

    // Performs the announcement where the sheet shows a quorum, else votes for it. The rules and the action see the state without the proposals
    // that have lapsed by the announced day; a refusal and a vote hand back the node as it was. The own seat is read off the state itself: behind
    // a function that takes the state or the seats, the compiler splits the state and copies it part by part.
    #[tactic(auto, unfolding(crate::specs::Deliver::deliver_of, crate::specs::Deliver::deliver_read))]
    pub fn deliver(self, announcement: &[u8], sheet: &[u8]) -> Reply<Delivered>
        ensures { reply deliver_answer result ≡ deliver_of self announcement.now sheet.now }
    {
        let Some(bytes) = announcement.as_array::<ANNOUNCEMENT_SIZE>() else {
            return self.refused(Refusal::Malformed);
        };
        let Some(a) = read_announcement(bytes) else {
            return self.refused(Refusal::Malformed);
        };
        if !is_sheet(sheet) {
            return self.refused(Refusal::BadSheet);
        }
        let mut seen = self.state;
        if has_lapsed(seen.proposals, a.day) {
            seen.proposals = drop_lapsed(seen.proposals, a.day);
        }
        let at = self.own.seat as usize;
        let held = if at < SEATS { seen.seats[at] } else { NO_SEAT };
        let found = find(seen, a.day, a.action);
        if let Err(refusal) = deliver_refusal(seen, found, held, a, sheet) {
            return self.refused(refusal);
        }
        if shows_quorum(seen, found.present, sheet) {
            let next = advance(seen, found, a);
            return leave(next, self.own);
        }
        if let Err(refusal) = vote_refusal(held, self.own, bytes) {
            return self.refused(refusal);
        }
        vote_for(self, bytes)
    }

    // May the login use the right on the day, at the door?
    #[tactic(auto, unfolding(crate::specs::Query::query_of))]
    pub fn query(self, query: &[u8]) -> Reply<()>
        ensures { reply query_answer result ≡ query_of self query.now }
    {
        let asked = ask(self.state, self.own, self.counts, query);
        Reply {
            node: Node {
                counts: asked.counts,
                ..self
            },
            answer: asked.answer,
        }
    }

    // Writes the checkpoint to the front of the slice, where it has room.
    #[tactic(auto, unfolding(crate::specs::Checkpoint::checkpoint_of, crate::specs::Checkpoint::checkpoint_slice))]
    pub fn checkpoint(self, out: &mut [u8]) -> Reply<()>
        ensures value { reply checkpoint_answer result ≡ checkpoint_of self out.old }
        ensures out_after { out.new ≡ checkpoint_slice self out.old }
    {
        if out.len() < CHECKPOINT_SIZE {
            return self.refused(Refusal::NoRoom);
        }
        write_checkpoint(self.state, out);
        self.given(())
    }

    // Writes the access page of the day to the front of the slice, where it has room.
    #[tactic(auto, unfolding(crate::specs::Page::page_of, crate::specs::Page::page_slice))]
    pub fn page(self, day: Day, out: &mut [u8]) -> Reply<u8>
        ensures value { reply page_answer result ≡ page_of self out.old }
        ensures out_after { out.new ≡ page_slice self day out.old }
    {
        let lines = count_used(self.state.logins);
        if out.len() < LINE_SIZE * usize::from(lines) {
            return self.refused(Refusal::NoPageRoom);
        }
        write_page(self.state, day, out);
        self.given(lines)
    }
}
