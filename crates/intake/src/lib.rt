// Input from a reader into lent slices: parts of a known length, and the records of a cache in blocks. A read that fails is told apart from the input's end.
#![tactic(auto)]

ghost use Rattle.std.specs.Prelude.{◌≡◌, ◌+◌, ◌-◌, ◌≤◌, ◌<◌, length, IfOk, MatchResult};
ghost use Rattle.intake.specs.Counts.{IsPrefixLen};
ghost use Rattle.octets.specs.Octets.{part, splice};

use records::announced_by;
use std::io;
use std::io::Read;

// One read to the start of `part`, which is not empty: an empty one would look like the input's end. How many octets came; none where the input ended.
fn read_some<R: Read>(input: &mut R, part: &mut [u8]) -> io::Result<usize>
    requires { 0 < length part.old }
    ensures { IfOk result (λ count. IsPrefixLen count part.new) }
{
    input.read(part)
}

// A read that failed, and how many octets had come before.
#[derive(Drop)]
pub struct Stopped {
    pub count: usize,
    pub error: io::Error,
}

// Reads until `part` is full: fewer octets came if the input ended.
pub fn fill_from<R: Read>(input: &mut R, part: &mut [u8]) -> Result<usize, Stopped>
    ensures { MatchResult result (λ count. count ≤ length part.old) (λ stopped. stopped.count ≤ length part.old) }
{
    let room = part.len();
    let mut done: usize = 0;
    while done < room {
        match read_some(input, &mut part[done..]) {
            Ok(0) => break,
            Ok(count) => done += count,
            Err(error) => return Err(Stopped { count: done, error }),
        }
    }
    Ok(done)
}

// The n octets from `from` on, moved to the front. Where they stand there already nothing is moved, so that a pipe that brings an octet at a time costs no
// more than its octets.
fn to_front(room: &mut [u8], from: usize, n: usize)
    requires { from + n ≤ length room.old }
    ensures { room.new ≡ splice room.old 0 (part room.old from n) }
{
    if from == 0 {
        return;
    }
    room.copy_within(from..from + n, 0);
}

// One read behind what stands in `room` from `from` to before `to`, which is moved to the front first: how many octets came behind it.
fn refill<R: Read>(input: &mut R, room: &mut [u8], from: usize, to: usize) -> io::Result<usize>
    requires { (from ≤ to) × (to ≤ length room.old) × (to - from < length room.old) }
    ensures count_in_bounds { IfOk result (λ count. (to - from) + count ≤ length room.new) }
    ensures from_after { part room.new 0 (to - from) ≡ part room.old from (to - from) }
{
    let kept = to - from;
    to_front(room, from, kept);
    read_some(input, &mut room[kept..])
}

// More octets behind those from `from` to before `to`, which are no whole record and are moved to the front: how many came. None come behind a wrong
// mark, which no octet can mend (`broken_there`).
pub fn fetch<R: Read>(input: &mut R, room: &mut [u8], from: usize, to: usize) -> io::Result<usize>
    requires { (from ≤ to) × (to ≤ length room.old) × (65539 ≤ length room.old) }
    ensures count_bound { IfOk result (λ count. to + count ≤ from + length room.old) }
    ensures from_after { MatchResult result (λ count. 0 < count → part room.new 0 (to - from) ≡ part room.old from (to - from)) (λ _. part room.new 0 (to - from) ≡ part room.old from (to - from)) }
{
    if 4 + announced_by(&room[from..to]) as usize <= to - from {
        return Ok(0);
    }
    refill(input, room, from, to)
}
