// The answers of the calls by value as numbers: 0, or the number of the refusal.
ghost use Rattle.std.specs.Prelude.{◌≡◌};
ghost use Rattle.refusals.specs.Refusals.{number_in};
ghost use Rattle.node.specs.Answers.{deliver_number};
ghost use Rattle.node.specs.Replies.{deliver_answer};
ghost use Rattle.node_c.specs.Calls.{value_returned};

use node::Delivered;
use refusals::Refusal;

pub fn number_in(answer: Result<(), Refusal>) -> u32
    ensures { result ≡ number_in answer }
{
    match answer {
        Ok(_) => 0,
        Err(refusal) => u32::from(refusal.number()),
    }
}

// 128 where the node voted.
pub fn deliver_number(answer: Result<Delivered, Refusal>) -> u32
    ensures { result ≡ deliver_number (deliver_answer answer) }
{
    match answer {
        Ok(Delivered::Done) => 0,
        Ok(Delivered::Voted) => 128,
        Err(refusal) => u32::from(refusal.number()),
    }
}

// What is given stands in the bits above the answer.
pub fn value_returned(answer: Result<u8, Refusal>) -> u32
    ensures { result ≡ value_returned answer }
{
    match answer {
        Ok(given) => 256 * u32::from(given),
        Err(refusal) => u32::from(refusal.number()),
    }
}
