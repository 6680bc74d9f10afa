// The line of an answer, written to a slice at a position. No Display: a contract knows what a format writes to a String alone, and memory is fixed.
ghost use Rattle.std.specs.Prelude.{◌≡◌, ◌+◌, ◌≤◌, length};
ghost use Rattle.binary.specs.Splice.{splice};
ghost use Rattle.requests.specs.declared.Answer.TheVariants.{No};
ghost use Rattle.requests.specs.Lines.{word_room, word_of, line_room, line_of};

use crate::Answer;
use binary::put_bytes;
use decimal::{MOST_DIGITS, put_decimal};

// Room for the longest line: three numbers, "no " with a space behind its number, a space and a line feed.
pub const LINE_ROOM: usize = 3 * MOST_DIGITS + 6;

// Writes an answer's word, its number and a space at a position, and answers where they end.
fn put_answer(out: &mut [u8], at: usize, answer: Answer) -> usize
    requires { at + word_room ≤ length out.old }
    ensures value { result ≡ at + length (word_of answer) }
    ensures out_after { out.new ≡ splice out.old at (word_of answer) }
{
    match answer {
        Answer::Started => put_bytes(out, at, b"started "),
        Answer::Voted => put_bytes(out, at, b"voted "),
        Answer::Done => put_bytes(out, at, b"done "),
        Answer::Open => put_bytes(out, at, b"open "),
        Answer::No(k) => put_refusal(out, at, k),
    }
}

fn put_refusal(out: &mut [u8], at: usize, number: u8) -> usize
    requires { at + word_room ≤ length out.old }
    ensures value { result ≡ at + length (word_of (No number)) }
    ensures out_after { out.new ≡ splice out.old at (word_of (No number)) }
{
    let digits = put_bytes(out, at, b"no ");
    let end = put_decimal(out, digits, number as u64);
    put_bytes(out, end, b" ")
}

// Writes a line at a position, and answers where it ends.
pub fn put_line(out: &mut [u8], at: usize, ordinal: u64, answer: Answer, cycle: u32) -> usize
    requires { at + line_room ≤ length out.old }
    ensures value { result ≡ at + length (line_of ordinal answer cycle) }
    ensures out_after { out.new ≡ splice out.old at (line_of ordinal answer cycle) }
{
    let space = put_decimal(out, at, ordinal);
    let word = put_bytes(out, space, b" ");
    let number = put_answer(out, word, answer);
    let end = put_decimal(out, number, cycle as u64);
    put_bytes(out, end, b"\n")
}
