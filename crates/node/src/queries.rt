// The query, over the parts of a node that it needs.
ghost use Rattle.std.specs.Prelude.{◌≡◌, true, ◌<◌};
ghost use Rattle.refusals.specs.Refusals.{number_of, number_in};
ghost use Rattle.verdicts.specs.Attempts.{most_misses, misses_at};
ghost use Rattle.node.specs.Query.{adds_miss, answered, ask_of};
ghost use Rattle.node.specs.Replies.{query_answer, counted_answer};

use crate::CountedAnswer;
use records::read_query;
use refusals::Refusal;
use state::State;
use verdicts::{AttemptCounts, Own, are_in_range, misses_at, query_refusal, with_misses};

// Whether a query that is refused with this adds a miss.
fn adds_miss(refusal: Refusal) -> bool
    ensures { result ≡ adds_miss (number_of refusal) }
{
    matches!(
        refusal,
        Refusal::NotListed | Refusal::Ended | Refusal::RightNotHeld
    )
}

// The answer at a door to a query of this verdict, and the counts after it.
#[tactic(auto, unfolding(crate::specs::Query::answered))]
fn answered(counts: AttemptCounts, door: u8, verdict: Result<(), Refusal>) -> CountedAnswer
    requires { adds_miss (number_in verdict) ≡ true → misses_at door counts < most_misses }
    ensures { counted_answer result ≡ answered counts door (number_in verdict) }
{
    let counts = match verdict {
        Ok(_) => with_misses(counts, door, 0),
        Err(refusal) => {
            if adds_miss(refusal) {
                with_misses(counts, door, misses_at(counts, door) + 1)
            } else {
                counts
            }
        }
    };
    CountedAnswer {
        counts,
        answer: verdict,
    }
}

// May the login use the right on the day, at the door?
#[tactic(auto, unfolding(crate::specs::Query::ask_of))]
pub fn ask(state: State, own: Own, counts: AttemptCounts, query: &[u8]) -> CountedAnswer
    ensures { counted_answer result ≡ ask_of state own counts query.now }
{
    let Some(q) = read_query(query) else {
        return CountedAnswer {
            counts,
            answer: Err(Refusal::Malformed),
        };
    };
    if !are_in_range(counts) {
        return CountedAnswer {
            counts,
            answer: Err(Refusal::Malformed),
        };
    }
    answered(counts, q.door, query_refusal(state, own, counts, q))
}

// The same on counts that the caller lends: the query updates them where they lie.
pub fn ask_lent(
    state: State,
    own: Own,
    counts: &mut AttemptCounts,
    query: &[u8],
) -> Result<(), Refusal>
    ensures value { query_answer result ≡ (ask_of state own counts.old query.now).answer }
    ensures counts_after { counts.new ≡ (ask_of state own counts.old query.now).counts }
{
    let asked = ask(state, own, *counts, query);
    *counts = asked.counts;
    asked.answer
}
