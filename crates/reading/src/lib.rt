// Reads a leading reference, or a whole slice, into a lent table and by value. Figures count from the start of the slice,
// inside a profile from the start of its data; views always count from the start of the caller's slice.
#![tactic(auto)]

ghost use Rattle.std.specs.Prelude.{◌≡◌, ℕ, ◌+◌, ◌≤◌, List, length};
ghost use Rattle.octets.specs.Octets.{splice};
ghost use Rattle.reference.specs.Steps.{Answer as Read, ok, seen, many};
ghost use Rattle.reference.specs.Reader.{limit, read_body, read_profile};
ghost use Rattle.reference.specs.Reader as Reader;
ghost use Rattle.reference.specs.Today.{read_leading, read_whole, answered};
ghost use Rattle.reference.specs.Heads.{read_header};
ghost use Rattle.table.specs.Flat.{front_numbers};
ghost use Rattle.table.specs.Filed.{reference_filed};
ghost use Rattle.read_parts.specs.Told.{StoresBody};
ghost use Rattle.reading.specs.Open.{header_told, LengthKnown, LengthIn, GapIn, HeadIn, rooms, ends, passing, read_as};
ghost use Rattle.reading.specs.Stored.{StoresProfiles, Leaves};
ghost use Rattle.reading.specs.Into as Into;
ghost use Rattle.reading.specs.Today.{ReadInto};

use octets::{be32, is_blank};
use read_biop::read_biop;
use read_lite::read_lite;
use reference::{
    Answer, Check, EXTRAS, MOST, NAMES, PLACE_EXTRAS, PLACE_GAP, PLACE_GAP_VALUE, PLACE_NAMES,
    PLACE_PROFILE_COUNT, PLACE_PROFILE_HEADER, PLACE_PROFILES, PLACE_REFERENCE_FIXED,
    PLACE_REFERENCE_LEFTOVER, PLACE_TAPS, PLACE_TYPE_ID_LENGTH, PROFILES, Reading, Refusal,
    TAG_BIOP, TAG_LITE_OPTIONS, TAPS, TypeIdRule, View, allows, cut, gap_length, left_over, shift,
    too_large, too_long, too_many, view_of, wrong_value,
};
use table::{Counts, FlatTable, SIZE, clear, put_front, put_opaque};
use table_struct::tables_of;

// The header of a profile: its tag, and how many octets of data follow it.
fn read_header(d: &[u8], pos: usize) -> Result<(u32, usize), Refusal>
    requires { (pos ≤ length d.now) × (length d.now ≤ 65535) }
    ensures { header_told pos result ≡ read_header d.now pos (length d.now) }
{
    let end = d.len();
    let data = pos + 8;
    if end < data {
        return Err(cut(PLACE_PROFILE_HEADER, pos, 8, end));
    }
    let len = be32(d, pos + 4) as usize;
    if end - data < len {
        return Err(too_long(data, len, end));
    }
    Ok((be32(d, pos), len))
}

// What stands before the profiles: the type id, how many profiles follow and where the first one stands.
#[derive(Drop)]
struct Opening {
    type_id: View,
    count: usize,
    next: usize,
}

// The length of the type id: the rule allows it, and the type id is there.
fn read_length(d: &[u8], rule: TypeIdRule) -> Result<usize, Refusal>
    ensures { LengthIn rule d.now result }
{
    let end = d.len();
    if MOST < end {
        return Err(too_large(6, end));
    }
    if end < 8 {
        return Err(cut(PLACE_REFERENCE_FIXED, 0, 8, end));
    }
    let len = be32(d, 0) as usize;
    if !allows(rule, len) {
        return Err(wrong_value(4, PLACE_TYPE_ID_LENGTH, 0));
    }
    if end - 4 < len {
        return Err(too_long(4, len, end));
    }
    Ok(len)
}

// The rule's gap at `at`, behind a type id of `len` octets: it must be there, and its octets are FF.
fn check_gap(d: &[u8], at: usize, len: usize, rule: TypeIdRule) -> Check
    requires { (at ≤ length d.now) × (length d.now ≤ 65535) }
    ensures { GapIn rule len d.now at result }
{
    let k = gap_length(rule, len);
    if k == 0 {
        return Ok(());
    }
    let end = d.len();
    if end < at + k {
        return Err(cut(PLACE_GAP, at, k, end));
    }
    if !is_blank(d, at, k) {
        return Err(wrong_value(3, PLACE_GAP_VALUE, at));
    }
    Ok(())
}

// Behind a type id of `len` octets: its gap, and the profile count.
fn read_behind(d: &[u8], len: usize, rule: TypeIdRule) -> Result<Opening, Refusal>
    requires { LengthKnown rule d.now len }
    ensures { HeadIn rule d.now result }
{
    let pos = 4 + len;
    check_gap(d, pos, len, rule)?;
    let end = d.len();
    let at = pos + gap_length(rule, len);
    let first = at + 4;
    if end < first {
        return Err(cut(PLACE_PROFILE_COUNT, at, 4, end));
    }
    Ok(Opening {
        type_id: view_of(0, 4, len),
        count: be32(d, at) as usize,
        next: first,
    })
}

fn read_head(d: &[u8], rule: TypeIdRule) -> Result<Opening, Refusal>
    ensures { HeadIn rule d.now result }
{
    let len = read_length(d, rule)?;
    read_behind(d, len, rule)
}

// 7 where a table of `size` entries is too small.
fn check_fits(place: u8, need: usize, size: usize) -> Check
    ensures { (x : Read (List ℕ)) → passing result x ≡ limit size place need x }
{
    if size < need {
        return Err(too_many(place, need, size));
    }
    Ok(())
}

// 7 for the first of profiles, taps, names, extras that does not fit.
fn check_room(profiles: usize, used: Counts) -> Check
    ensures { (x : Read (List ℕ)) → passing result x ≡ rooms profiles used.taps used.names used.extras x }
{
    check_fits(PLACE_PROFILES, profiles, PROFILES)?;
    check_fits(PLACE_TAPS, used.taps, TAPS)?;
    check_fits(PLACE_NAMES, used.names, NAMES)?;
    check_fits(PLACE_EXTRAS, used.extras, EXTRAS)
}

// Behind the profiles: of the whole slice nothing may be left over; 7 comes after that.
#[tactic(auto, unfolding(crate::specs::Open::ends))]
fn check_end(whole: bool, next: usize, end: usize, profiles: usize, used: Counts) -> Check
    requires { next ≤ end }
    ensures { (x : Read (List ℕ)) → passing result x ≡ ends whole next end profiles used.taps used.names used.extras x }
{
    if whole && next != end {
        return Err(left_over(PLACE_REFERENCE_LEFTOVER, next, end));
    }
    check_room(profiles, used)
}

// The data of a profile whose header stands at `at`: it becomes profile i of the table, if there is room.
fn read_body(
    d: &[u8],
    at: usize,
    tag: u32,
    table: &mut FlatTable,
    i: usize,
    used: Counts,
) -> Result<Counts, Refusal>
    requires { (at + 8 + length d.now ≤ 65535) × (used.taps ≤ 65535) × (used.names ≤ 65535) × (used.extras ≤ 65535) }
    ensures { StoresBody at table.old i used (read_body tag d.now 0 (length d.now)) (length d.now) table.new result }
{
    if tag == TAG_BIOP {
        return read_biop(d, at, table, i, used);
    }
    if tag == TAG_LITE_OPTIONS {
        return read_lite(d, at, table, i, used);
    }
    if i < PROFILES {
        put_opaque(tag, view_of(at, 8, d.len()), table, i);
    }
    Ok(used)
}

// n profiles: the used counts and the next position.
fn read_profiles(
    d: &[u8],
    pos: usize,
    n: usize,
    table: &mut FlatTable,
) -> Result<(Counts, usize), Refusal>
    requires { (pos ≤ length d.now) × (length d.now ≤ 65535) }
    ensures { StoresProfiles pos table.old (many n read_profile d.now pos (length d.now)) table.new result }
{
    let mut used = Counts::default();
    let mut cur = pos;
    for i in 0..n {
        let (tag, len) = read_header(d, cur)?;
        let data = cur + 8;
        let next = data + len;
        let stored = read_body(&d[data..next], cur, tag, table, i, used);
        used = stored.map_err(|within| shift(data, within))?;
        cur = next;
    }
    Ok((used, cur))
}

// Behind the profiles, which end at `last`: the checks, and then the six numbers at the front.
#[tactic(auto, using(crate::proofs::References::end_fits))]
fn finish(
    d: &[u8],
    whole: bool,
    opening: Opening,
    last: usize,
    used: Counts,
    table: &mut FlatTable,
) -> Answer
    requires { last ≤ length d.now }
    ensures { Leaves (ends whole last (length d.now) opening.count used.taps used.names used.extras (ok (splice table.old 0 (front_numbers opening.type_id opening.count used.taps used.names used.extras)) last)) table.new result }
{
    let count = opening.count;
    check_end(whole, last, d.len(), count, used)?;
    put_front(
        opening.type_id,
        count as u32,
        used.taps as u32,
        used.names as u32,
        used.extras as u32,
        table,
    );
    Ok(last)
}

// The reference at the start of d; `whole`: nothing may be left over. Of a refused reading the table is open.
fn read_reference(d: &[u8], whole: bool, table: &mut FlatTable, rule: TypeIdRule) -> Answer
    ensures { Leaves (seen (reference_filed rule table.old) (read_as rule whole d.now)) table.new result }
{
    let opening = read_head(d, rule)?;
    let (used, last) = read_profiles(d, opening.next, opening.count, table)?;
    finish(d, whole, opening, last, used, table)
}

// A refused reading leaves empty tables.
fn read_or_clear(d: &[u8], whole: bool, table: &mut FlatTable, rule: TypeIdRule) -> Answer
    ensures { Into.ReadInto rule (read_as rule whole d.now) table.old table.new result }
{
    let answer = read_reference(d, whole, table, rule);
    if answer.is_err() {
        clear(table);
    }
    answer
}

// A leading reference into a lent table, under the rule: octets consumed, or the refusal. An accepted reading keeps what stands behind the
// entries it fills, a refused one leaves zeros.
pub fn read_leading_into_by(d: &[u8], table: &mut FlatTable, rule: TypeIdRule) -> Answer
    ensures { Into.ReadInto rule (Reader.read_leading rule d.now) table.old table.new result }
{
    read_or_clear(d, false, table, rule)
}

// The same of a whole slice: nothing may be left over.
pub fn read_whole_into_by(d: &[u8], table: &mut FlatTable, rule: TypeIdRule) -> Answer
    ensures { Into.ReadInto rule (Reader.read_whole rule d.now) table.old table.new result }
{
    read_or_clear(d, true, table, rule)
}

// The same by value: a table of zeros is lent.
fn read_by(d: &[u8], whole: bool, rule: TypeIdRule) -> Reading
    ensures { result ≡ Reader.answered rule (read_as rule whole d.now) }
{
    let mut table = [0u32; SIZE];
    let answer = read_or_clear(d, whole, &mut table, rule);
    let tables = tables_of(&table);
    Reading { answer, tables }
}

// A leading reference by value, under the rule: octets consumed and the tables, or the refusal and empty tables.
pub fn read_leading_by(d: &[u8], rule: TypeIdRule) -> Reading
    ensures { result ≡ Reader.answered rule (Reader.read_leading rule d.now) }
{
    read_by(d, false, rule)
}

// The same of a whole slice: nothing may be left over.
pub fn read_whole_by(d: &[u8], rule: TypeIdRule) -> Reading
    ensures { result ≡ Reader.answered rule (Reader.read_whole rule d.now) }
{
    read_by(d, true, rule)
}

// The four that name no rule: rule 1.
pub fn read_leading_into(d: &[u8], table: &mut FlatTable) -> Answer
    ensures { ReadInto (read_leading d.now) table.old table.new result }
{
    read_leading_into_by(d, table, TypeIdRule::Multiple)
}

pub fn read_whole_into(d: &[u8], table: &mut FlatTable) -> Answer
    ensures { ReadInto (read_whole d.now) table.old table.new result }
{
    read_whole_into_by(d, table, TypeIdRule::Multiple)
}

pub fn read_leading(d: &[u8]) -> Reading
    ensures { result ≡ answered (read_leading d.now) }
{
    read_leading_by(d, TypeIdRule::Multiple)
}

pub fn read_whole(d: &[u8]) -> Reading
    ensures { result ≡ answered (read_whole d.now) }
{
    read_whole_by(d, TypeIdRule::Multiple)
}
