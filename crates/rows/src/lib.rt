// The rows of a cache's listing as octets. Where `is_where` is set they tell of a refused record, behind 01's columns, where it broke.
#![tactic(auto)]

ghost use Rattle.std.specs.Prelude.{◌+◌, ◌≤◌, ◌<◌, ◌++◌, ◌∷◌, [], length};
ghost use Rattle.text.specs.Text.{decimal};
ghost use Rattle.text.specs.Written.{Written};
ghost use Rattle.reference.specs.Today.{read_whole};
ghost use Rattle.rows.specs.Rows.{heading, row_of, end_text, broken_text, found_text, where_text, refused_text, answer_text, Listed};

use lines::put_kind;
use place_words::put_place;
use questions::object_kind;
use reading::read_whole_into;
use records::{Record, record_at};
use reference::{ObjectKind, Refusal};
use table::{FlatTable, PROFILES_USED, TYPE_ID, TYPE_ID_LEN};
use text::{put_decimal, put_octet, put_spaced, put_word};

// The most octets of a row.
const ROW: usize = 128;

// What an accepted reference's row says: kind, number of profiles and 0.
fn put_found(kind: ObjectKind, profiles: u32, out: &mut [u8], at: usize) -> usize
    requires { at + 31 ≤ length out.old }
    ensures { Written out.old at 31 (found_text kind profiles) out.new result }
{
    let count = put_kind(out, at, kind);
    let zero = put_spaced(out, count, profiles as u64);
    put_word(out, zero, b" 0")
}

// The place in words, and the offset in the file, of what broke in a reference that starts there at `start`.
fn put_where(why: Refusal, start: u64, out: &mut [u8], at: usize) -> usize
    requires { (start + why.offset < 0x10000000000000000) × (at + 52 ≤ length out.old) }
    ensures { Written out.old at 52 (where_text start why) out.new result }
{
    let place = put_octet(out, at, b' ');
    let word = put_place(out, place, why.place);
    let offset = put_word(out, word, b" at ");
    put_decimal(out, offset, start + why.offset as u64)
}

// What a refused one's says: `- -` and the refusal's number; and where it broke.
fn put_refused(why: Refusal, is_where: bool, start: u64, out: &mut [u8], at: usize) -> usize
    requires { (start + why.offset < 0x10000000000000000) × (at + 76 ≤ length out.old) }
    ensures { Written out.old at 76 (refused_text is_where start why) out.new result }
{
    let next = put_word(out, at, b"- -");
    let end = put_spaced(out, next, why.number as u64);
    if is_where {
        return put_where(why, start, out, end);
    }
    end
}

// What the row says behind the record's length. The reading goes into a lent table, whatever that held.
fn put_answer(
    is_where: bool,
    start: u64,
    s: &[u8],
    table: &mut FlatTable,
    out: &mut [u8],
    at: usize,
) -> usize
    requires { (start + length s.now < 0x10000000000000000) × (at + 76 ≤ length out.old) }
    ensures { Written out.old at 76 (answer_text is_where start (read_whole s.now)) out.new result }
{
    match read_whole_into(s, table) {
        Err(why) => put_refused(why, is_where, start, out, at),
        Ok(_) => {
            let id = table[TYPE_ID] as usize;
            let stop = id + table[TYPE_ID_LEN] as usize;
            let kind = object_kind(&s[id..stop]);
            put_found(kind, table[PROFILES_USED], out, at)
        }
    }
}

// The row of record `number`, whose reference is s and starts at `start` in the file: the index behind it. Any row of the listing fits 128.
fn put_row(
    number: u64,
    is_where: bool,
    start: u64,
    s: &[u8],
    table: &mut FlatTable,
    out: &mut [u8],
    at: usize,
) -> usize
    requires { (start + length s.now < 0x10000000000000000) × (at + 128 ≤ length out.old) }
    ensures { Written out.old at 128 (row_of is_where start number s.now) out.new result }
{
    let size = put_decimal(out, at, number);
    let gap = put_spaced(out, size, s.len() as u64);
    let kind = put_octet(out, gap, b' ');
    let end = put_answer(is_where, start, s, table, out, kind);
    put_octet(out, end, b'\n')
}

// How far the rows of a block go: the records before `next` are listed, `seen` in all, in the first `used` octets of a page. The page is full, or
// no whole record stands at `next`.
#[derive(Clone, Copy)]
pub struct Rows {
    pub next: usize,
    pub seen: u64,
    pub used: usize,
    pub is_full: bool,
}

// The rows of the records that stand whole in a block from `at` on, after `seen` others, as many as surely fit the page. The block stands at `base` in
// the file.
pub fn put_rows(
    block: &[u8],
    base: u64,
    at: usize,
    seen: u64,
    is_where: bool,
    table: &mut FlatTable,
    page: &mut [u8],
) -> Rows
    requires { (at ≤ length block.now) × (base + length block.now < 0x10000000000000000) × (seen + length block.now < 0x10000000000000000) × (length page.old < 0x8000000000000000) }
    ensures { Listed is_where base block.now at seen page.new result }
{
    let room = page.len();
    let mut next = at;
    let mut count = seen;
    let mut used: usize = 0;
    while used + ROW <= room {
        let Record::Got { start, stop } = record_at(block, next) else {
            return Rows {
                next,
                seen: count,
                used,
                is_full: false,
            };
        };
        count += 1;
        let place = base + start as u64;
        used = put_row(
            count,
            is_where,
            place,
            &block[start..stop],
            table,
            page,
            used,
        );
        next = stop;
    }
    Rows {
        next,
        seen: count,
        used,
        is_full: true,
    }
}

// The listing's first line, and its last, after so many records or where a mark is wrong or a record cut.
pub fn put_heading(is_where: bool, out: &mut [u8; 80]) -> usize
    ensures { Written out.old 0 80 (heading is_where) out.new result }
{
    if is_where {
        return put_word(out, 0, b"record bytes kind profiles refusal where\n");
    }
    put_word(out, 0, b"record bytes kind profiles refusal\n")
}

// Words, a number and the end of the line.
fn put_line(words: &[u8], n: u64, out: &mut [u8; 80]) -> usize
    requires { length words.now ≤ 58 }
    ensures { Written out.old 0 80 (words.now ++ (32 ∷ decimal n) ++ (10 ∷ [])) out.new result }
{
    let number = put_word(out, 0, words);
    let end = put_spaced(out, number, n);
    put_octet(out, end, b'\n')
}

pub fn put_end(count: u64, out: &mut [u8; 80]) -> usize
    ensures { Written out.old 0 80 (end_text count) out.new result }
{
    put_line(b"end", count, out)
}

pub fn put_broken(at: u64, out: &mut [u8; 80]) -> usize
    ensures { Written out.old 0 80 (broken_text at) out.new result }
{
    put_line(b"broken at", at, out)
}
