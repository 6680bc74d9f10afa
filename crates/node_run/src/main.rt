// node-run: answers the requests on standard input, each with a line on standard output. What a request comes to and what its line says is
// requests::take_step and requests::put_line; here is what reads and writes.
#![tactic(auto)]

ghost use Rattle.std.specs.Prelude.{◌≡◌, true, ◌≤◌, ◌<◌, length, take};
ghost use Rattle.requests.specs.Framing.{request_room};
ghost use Rattle.requests.specs.Lines.{line_room};
ghost use Rattle.node_run.specs.Buffers.{Fits, last_ordinal, flushed};
ghost use Rattle.node_run.specs.Turns.{Filling, Ready, Answered, Turned, Finished};

use node::{Node, blank_node};
use requests::{LINE_ROOM, holds_request, put_line, shift, take_step};
use std::io::{Read, Stdin, Stdout, Write};

// Two records of the greatest length, and more to read few times.
const INPUT: usize = 262144;

const OUTPUT: usize = 65536;

// The greatest number of 64 bits.
const LAST_ORDINAL: u64 = 18446744073709551615;

// What is kept from request to request. The three flags are no types of a state: any may be set beside any other, and Turned speaks of each.
#[derive(Clone, Copy)]
struct Run {
    node: Node,
    // Of the next request.
    ordinal: u64,
    // What is read of the input and not yet used: the bytes of the buffer from one index up to another.
    from: usize,
    to: usize,
    // A read gave nothing, so there is no more input.
    exhausted: bool,
    // The bytes of the lines that are not yet written.
    pending: usize,
    // The last answer ends the run, or the input ended before a request.
    ends: bool,
    // A write failed.
    failed: bool,
}

// Up to where a buffer holds input, and whether a read gave nothing: both are told in either case.
#[derive(Clone, Copy)]
struct Filled {
    to: usize,
    exhausted: bool,
}

// Reads once into the buffer, from an index on, and answers up to where it now holds input. A read that fails ends the input.
fn read_more(mut stdin: Stdin, input: &mut [u8], to: usize) -> usize
    requires { to ≤ length input.old }
    ensures { (to ≤ result) × ((result ≤ length input.new) × (take to input.new ≡ take to input.old)) }
{
    match stdin.read(&mut input[to..]) {
        Ok(got) => to + got,
        Err(_) => to,
    }
}

// Reads until the buffer, which holds input from its start, holds a request or a read gives nothing.
fn read_request(stdin: Stdin, input: &mut [u8], start: usize) -> Filled
    requires { (start ≤ length input.old) × (request_room ≤ length input.old) }
    ensures { Filling start input.old result.to result.exhausted input.new }
{
    let mut to = start;
    while !holds_request(&input[0..to]) {
        let more = read_more(stdin, input, to);
        if more == to {
            return Filled {
                to: to,
                exhausted: true,
            };
        }
        to = more;
    }
    Filled {
        to: to,
        exhausted: false,
    }
}

// Writes the pending lines.
fn flush(run: Run, mut stdout: Stdout, output: &[u8]) -> Run
    requires { run.pending ≤ length output.now }
    ensures { (result ≡ flushed run result.failed) × (run.failed ≡ true → result.failed ≡ true) }
{
    let pending = run.pending;
    let written = stdout.write_all(&output[0..pending]).is_ok();
    let mut next = run;
    next.pending = 0;
    next.failed = run.failed | !written;
    next
}

// Sees to it that the buffers hold the next request whole, or all that is left of the input, and have room for its line. Pending lines are
// written before a read, which may wait.
fn next_request(run: Run, stdin: Stdin, input: &mut [u8], stdout: Stdout, output: &[u8]) -> Run
    requires fits { Fits 0 run (length input.old) (length output.now) }
    requires request_room_in_bounds { (request_room ≤ length input.old) × (line_room ≤ length output.now) }
    ensures { Ready run input.old output.now result input.new }
{
    let from = run.from;
    let to = run.to;
    if run.exhausted | holds_request(&input[from..to]) {
        if run.pending <= output.len() - LINE_ROOM {
            return run;
        }
        return flush(run, stdout, output);
    }
    let mut ready = flush(run, stdout, output);
    shift(input, from, to);
    let filled = read_request(stdin, input, to - from);
    ready.from = 0;
    ready.to = filled.to;
    ready.exhausted = filled.exhausted;
    ready
}

// Answers the request at the front of what is held.
fn answer(run: Run, input: &[u8], output: &mut [u8]) -> Run
    requires fits { Fits line_room run (length input.now) (length output.old) }
    requires ordinal_lt_last_ordinal { run.ordinal < last_ordinal }
    ensures { Answered run input.now output.old result output.new }
{
    let step = take_step(run.node, &input[run.from..run.to]);
    let cycle = step.node.state.cycle;
    let pending = put_line(output, run.pending, run.ordinal, step.answer, cycle.0);
    let next = run.from + step.used;
    Run {
        node: step.node,
        ordinal: run.ordinal + 1,
        from: next,
        pending,
        ends: step.ends,
        ..run
    }
}

// Answers the next request, unless the input ended or a write failed.
fn turn(run: Run, stdin: Stdin, input: &mut [u8], stdout: Stdout, output: &mut [u8]) -> Run
    requires fits { Fits 0 run (length input.old) (length output.old) }
    requires request_room_in_bounds { (request_room ≤ length input.old) × (line_room ≤ length output.old) }
    requires ordinal_lt_last_ordinal { run.ordinal < last_ordinal }
    ensures { Turned run input.old output.old result input.new output.new }
{
    let mut ready = next_request(run, stdin, input, stdout, output);
    if ready.failed {
        return ready;
    }
    if ready.from == ready.to {
        ready.ends = true;
        return ready;
    }
    answer(ready, input, output)
}

// Answers request after request, from none on, and writes their lines.
fn answer_all(stdin: Stdin, input: &mut [u8], stdout: Stdout, output: &mut [u8]) -> Run
    requires request_room_in_bounds { request_room ≤ length input.old }
    requires line_room_in_bounds { line_room ≤ length output.old }
    ensures { Finished result input.new }
{
    let mut run = Run {
        node: blank_node(),
        ordinal: 1,
        from: 0,
        to: 0,
        exhausted: false,
        pending: 0,
        ends: false,
        failed: false,
    };
    while !(run.ends | run.failed) & (run.ordinal < LAST_ORDINAL) {
        run = turn(run, stdin, input, stdout, output);
    }
    flush(run, stdout, output)
}

fn main(rt: HostRuntime) {
    let mut input = [0u8; INPUT];
    let mut output = [0u8; OUTPUT];
    answer_all(rt.stdin(), &mut input, rt.stdout(), &mut output);
}
