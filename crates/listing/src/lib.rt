// The listing of a cache that comes from a reader, to standard output, in blocks. What octets mean and what a line says is decided in crate rows, how they
// come in crate intake.
#![tactic(auto)]

ghost use Rattle.std.specs.Prelude.{◌≤◌, length};

use intake::fetch;
use outcome::{Failure, Outcome};
use rows::{put_broken, put_end, put_heading, put_rows};
use std::io;
use std::io::{ErrorKind, Read};
use table::{FlatTable, SIZE};

// Octets of input held at once; a record has at most 65,539.
const ROOM: usize = 262144;

// Octets of text held at once.
const PAGE: usize = 65536;

// The largest offset that a file can have.
const FARTHEST: u64 = 0x7FFFFFFFFFFFFFFF;

fn write_start(out: &impl Print, text: &[u8], n: usize) -> Outcome
    requires { n ≤ length text.now }
{
    out.write_all(&text[..n]).map_err(Failure::NotWritten)
}

fn write_heading(out: &impl Print, is_where: bool) -> Outcome {
    let mut line = [0u8; 80];
    let n = put_heading(is_where, &mut line);
    write_start(out, &line, n)
}

// The last line, where the input has ended behind `left` octets that are no record.
fn end(out: &impl Print, left: usize, seen: u64, at: u64) -> Outcome {
    let mut line = [0u8; 80];
    if left == 0 {
        let n = put_end(seen, &mut line);
        return write_start(out, &line, n);
    }
    let n = put_broken(at, &mut line);
    write_start(out, &line, n)?;
    Err(Failure::Broken)
}

// Lists what comes from `input`, of which nothing has come yet.
fn list_blocks<R: Read>(
    input: &mut R,
    out: &impl Print,
    is_where: bool,
    room: &mut [u8; ROOM],
    table: &mut FlatTable,
    page: &mut [u8; PAGE],
) -> Outcome {
    // `came` octets came so far; those from `from` to before `to` in the room are the last of them, and are not listed yet.
    let mut came: u64 = 0;
    let mut from: usize = 0;
    let mut to: usize = 0;
    let mut seen: u64 = 0;
    while came < FARTHEST {
        let base = came - to as u64;
        let rows = put_rows(&room[..to], base, from, seen, is_where, table, page);
        write_start(out, page, rows.used)?;
        from = rows.next;
        seen = rows.seen;
        if !rows.is_full {
            let left = to - from;
            // A read that failed says nothing of where the cache ends.
            let more = fetch(input, room, from, to).map_err(Failure::NotRead)?;
            if more == 0 {
                return end(out, left, seen, came - left as u64);
            }
            from = 0;
            to = left + more;
            came += more as u64;
        }
    }
    Err(Failure::NotRead(io::Error::from(ErrorKind::FileTooLarge)))
}

// Lists what comes from `input`, however long it is; `is_where`: with a column that tells of a refused record where it broke.
pub fn list<R: Read>(input: &mut R, out: &impl Print, is_where: bool) -> Outcome {
    let mut room = [0u8; ROOM];
    let mut table = [0u32; SIZE];
    let mut page = [0u8; PAGE];
    write_heading(out, is_where)?;
    list_blocks(input, out, is_where, &mut room, &mut table, &mut page)
}
