// The name component with lengths of one octet, both ways (document 01, "The 8-bit name"). Each contract says what the answer is, and what the output
// then holds, in the terms of reference's specs/Names.
#![tactic(auto)]

ghost use Rattle.std.specs.Prelude.{◌≡◌, ◌++◌, ◌+◌, ◌<◌, ◌≤◌, length};
ghost use Rattle.octets.specs.Octets.{octets};
ghost use Rattle.octets.specs.Put.{Put};
ghost use Rattle.reference.specs.Steps.{answer_of, seen};
ghost use Rattle.reference.specs.Contents.{shown};
ghost use Rattle.reference.specs.Writer.{view_check, short_check};
ghost use Rattle.reference.specs.Names.{read_short_name, short_at, short_name_check, short_size};
ghost use Rattle.names.specs.Writes.{Writes};

use octets::{copy, put8};
use read_parts::read_named;
use reference::{
    Answer, Check, MOST, NameComponent, PLACE_SHORT_ID_LENGTH, PLACE_SHORT_KIND_LENGTH, Refusal,
    View, no_room, outside, too_large, too_long,
};

// The most octets that a length of one octet can say.
const LONGEST: usize = 255;

// Where a view ends; in 64 bits the sum cannot wrap.
fn end_of(v: View) -> usize
    ensures { result ≡ v.at + v.len }
{
    v.at as usize + v.len as usize
}

// The views of the name at the start of `s` and the position behind it: 6 first, then its id, then its kind.
pub fn read_short_name(s: &[u8]) -> Result<(NameComponent, usize), Refusal>
    ensures { answer_of result ≡ seen short_at (read_short_name s.now) }
{
    let n = s.len();
    if MOST < n {
        return Err(too_large(6, n));
    }
    read_named::<1>(s, 0, 0, n, PLACE_SHORT_ID_LENGTH, PLACE_SHORT_KIND_LENGTH)
}

fn size_of(name: NameComponent) -> usize
    ensures { result ≡ short_size name }
{
    1 + name.id.len as usize + 1 + name.kind.len as usize
}

// A view lies within a source of n octets.
fn check_view(v: View, n: usize) -> Check
    ensures { result ≡ view_check n 0 v }
{
    if n < end_of(v) {
        return Err(outside(0, v));
    }
    Ok(())
}

// A run of n octets has a length that one octet can say.
fn check_length(n: u32) -> Check
    ensures { result ≡ short_check n }
{
    let len = n as usize;
    if LONGEST < len {
        return Err(too_long(0, len, LONGEST));
    }
    Ok(())
}

// The checks of writing a name over a source of n octets into an output of m: 6, 9, 5, then 2, the id before the kind.
fn check_short_name(name: NameComponent, n: usize, m: usize) -> Check
    ensures { result ≡ short_name_check name n m }
{
    if MOST < n {
        return Err(too_large(6, n));
    }
    let id = name.id;
    let kind = name.kind;
    check_view(id, n)?;
    check_view(kind, n)?;
    let size = size_of(name);
    if m < size {
        return Err(no_room(size, m));
    }
    check_length(id.len)?;
    check_length(kind.len)
}

// Puts a view's length in one octet and its octets behind it, and answers the position after them.
fn write_run(v: View, src: &[u8], out: &mut [u8], at: usize) -> usize
    requires inside { v.at + v.len ≤ length src.now }
    requires short { v.len ≤ 255 }
    requires room { at + (1 + v.len) ≤ length out.old }
    ensures { Put out.old at (1 + v.len) (octets 1 v.len ++ shown src.now v) out.new result }
{
    let next = put8(out, at, v.len as u8);
    copy(src, v.at as usize, v.len as usize, out, next)
}

// Writes a name at the start of `out` and answers how many octets it has; a refused writing changes none.
pub fn write_short_name(name: NameComponent, src: &[u8], out: &mut [u8]) -> Answer
    ensures { Writes name src.now out.old result out.new }
{
    check_short_name(name, src.len(), out.len())?;
    let next = write_run(name.id, src, out, 0);
    let end = write_run(name.kind, src, out, next);
    Ok(end)
}
