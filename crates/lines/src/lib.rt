// The lines that the program `answers` prints, put into a lent slice: each function stores at `at` and answers the position after what it stored.
// What each sort of answer is as text stands in specs/Lines.
#![tactic(auto)]

ghost use Rattle.std.specs.Prelude.{◌+◌, ◌*◌, ◌≤◌, length};
ghost use Rattle.text.specs.Written.{Written};
ghost use Rattle.lines.specs.Lines.{refusal_text, accepted_text, answer_text, where_text, item_text, table_text, output_text, kind_text, tap_text, name_text, first_text};

use reference::{Answer, NameComponent, ObjectKind, Refusal, TapNumbers};
use text::{put_decimal, put_hex32, put_hexes, put_octet, put_spaced, put_word};

// Number, place and both figures of a refusal.
fn put_refusal(out: &mut [u8], at: usize, why: Refusal) -> usize
    requires { at + 83 ≤ length out.old }
    ensures { Written out.old at 83 (refusal_text why) out.new result }
{
    let place = put_decimal(out, at, why.number as u64);
    let first = put_spaced(out, place, why.place as u64);
    let second = put_spaced(out, first, why.first as u64);
    put_spaced(out, second, why.second as u64)
}

// What an answer that is not refused begins with.
fn put_accepted(out: &mut [u8], at: usize, count: usize) -> usize
    requires { at + 28 ≤ length out.old }
    ensures { Written out.old at 28 (accepted_text count) out.new result }
{
    let next = put_word(out, at, b"0 0 0 0");
    put_spaced(out, next, count as u64)
}

// An answer with its count: octets consumed, the length, or octets written.
pub fn put_answer(out: &mut [u8], at: usize, answer: Answer) -> usize
    requires { at + 85 ≤ length out.old }
    ensures { Written out.old at 85 (answer_text answer) out.new result }
{
    match answer {
        Ok(count) => put_accepted(out, at, count),
        Err(why) => {
            let next = put_refusal(out, at, why);
            put_word(out, next, b" 0")
        }
    }
}

// The same with the offset where a reading broke, before the count.
pub fn put_where(out: &mut [u8], at: usize, answer: Answer) -> usize
    requires { at + 106 ≤ length out.old }
    ensures { Written out.old at 106 (where_text answer) out.new result }
{
    match answer {
        Ok(count) => {
            let consumed = put_accepted(out, at, 0);
            put_spaced(out, consumed, count as u64)
        }
        Err(why) => {
            let offset = put_refusal(out, at, why);
            let zero = put_spaced(out, offset, why.offset as u64);
            put_word(out, zero, b" 0")
        }
    }
}

// A number of a table with its index, if it isn't zero.
fn put_item(out: &mut [u8], at: usize, i: usize, v: u32) -> usize
    requires { at + 42 ≤ length out.old }
    ensures { Written out.old at 42 (item_text i v) out.new result }
{
    if v == 0 {
        return at;
    }
    let colon = put_spaced(out, at, i as u64);
    let number = put_octet(out, colon, b':');
    put_decimal(out, number, v as u64)
}

// The numbers of a table that aren't zero.
pub fn put_table(out: &mut [u8], at: usize, table: &[u32]) -> usize
    requires { at + 42 * length table.now ≤ length out.old }
    ensures { Written out.old at (42 * length table.now) (table_text table.now (length table.now)) out.new result }
{
    let mut next = at;
    for (i, v) in table.iter().enumerate() {
        next = put_item(out, next, i, *v);
    }
    next
}

// The octets of an output, `-` for none.
pub fn put_output(out: &mut [u8], at: usize, written: &[u8]) -> usize
    requires { at + (2 + 2 * length written.now) ≤ length out.old }
    ensures { Written out.old at (2 + 2 * length written.now) (output_text written.now) out.new result }
{
    let next = put_octet(out, at, b' ');
    if written.is_empty() {
        return put_octet(out, next, b'-');
    }
    put_hexes(out, next, written)
}

// A kind: three letters, or eight hexadecimal digits.
pub fn put_kind(out: &mut [u8], at: usize, kind: ObjectKind) -> usize
    requires { at + 8 ≤ length out.old }
    ensures { Written out.old at 8 (kind_text kind) out.new result }
{
    match kind {
        ObjectKind::Directory => put_word(out, at, b"dir"),
        ObjectKind::File => put_word(out, at, b"fil"),
        ObjectKind::Stream => put_word(out, at, b"str"),
        ObjectKind::ServiceGateway => put_word(out, at, b"srg"),
        ObjectKind::StreamEvent => put_word(out, at, b"ste"),
        ObjectKind::Unknown(v) => put_hex32(out, at, v),
    }
}

// A tap's transaction id and timeout, if it has them.
pub fn put_tap(out: &mut [u8], at: usize, numbers: Option<TapNumbers>) -> usize
    requires { at + 41 ≤ length out.old }
    ensures { Written out.old at 41 (tap_text numbers) out.new result }
{
    match numbers {
        None => put_word(out, at, b"none none"),
        Some(both) => {
            let next = put_decimal(out, at, both.transaction as u64);
            put_spaced(out, next, both.timeout as u64)
        }
    }
}

// What reading an 8-bit name answers: octets consumed, and both views.
pub fn put_name(out: &mut [u8], at: usize, name: Result<(NameComponent, usize), Refusal>) -> usize
    requires { at + 112 ≤ length out.old }
    ensures { Written out.old at 112 (name_text name) out.new result }
{
    match name {
        Err(why) => {
            let zeros = put_refusal(out, at, why);
            put_word(out, zeros, b" 0 0 0 0 0")
        }
        Ok((got, next)) => {
            let id_at = put_accepted(out, at, next);
            let id_len = put_spaced(out, id_at, got.id.at as u64);
            let kind_at = put_spaced(out, id_len, got.id.len as u64);
            let kind_len = put_spaced(out, kind_at, got.kind.at as u64);
            put_spaced(out, kind_len, got.kind.len as u64)
        }
    }
}

// The index of the first BIOP profile, or `none`.
pub fn put_first(out: &mut [u8], at: usize, first: Result<Option<usize>, Refusal>) -> usize
    requires { at + 88 ≤ length out.old }
    ensures { Written out.old at 88 (first_text first) out.new result }
{
    match first {
        Ok(Some(i)) => put_accepted(out, at, i),
        Ok(None) => put_word(out, at, b"0 0 0 0 none"),
        Err(why) => {
            let none = put_refusal(out, at, why);
            put_word(out, none, b" none")
        }
    }
}
