// The library for firmware in C and in Rust: exported functions over numbers and octets, each lent by its caller as a pointer and a length
// (include/ior.h). A table has 490 numbers (crate table), an answer six: number, place, both figures, the count, and the offset where a reading broke.
// An array of another length, a table with a number that is wider than its field, or a number that names no rule or way is answered with 255, and nothing
// is changed. What the arrays hold and how long they are is asked of no caller; that the pointers are right, C can't check.
#![tactic(auto)]

ghost use Rattle.std.specs.Prelude.{◌≡◌, ◌≢◌, MatchOption};
ghost use Rattle.reference.specs.Questions.{first_biop};
ghost use Rattle.table.specs.Flat.{tables_from, name_from, name_numbers};
ghost use Rattle.ior_c.specs.Today.{IorRead, IorReadWhole, IorLength, IorWrite};
ghost use Rattle.ior_c.specs.Calls as Calls;
ghost use Rattle.reference.specs.declared.TypeIdRule.{TypeIdRule};
ghost use Rattle.reference.specs.declared.AddressWay.{AddressWay};
ghost use Rattle.ior_c.specs.Calls.{rule_number, way_number, IorReadBy, IorReadWholeBy, IorLengthBy, IorWriteBy, IorKind, IorTap, IorFirstBiop, IorDvbAddress, IorNameRead, IorNameWrite};
ghost use Rattle.ior_c.specs.Said.{number_of, numbers_of, kind_number, type_number, tap_result, tap_pair, first_said};
ghost use Rattle.ior_c.specs.Judged.{UnsoundTold};

use faults::{Unsound, sound_length, with_gap};
use names::{read_short_name, write_short_name};
use octets::be32;
use questions::{is_dvb, object_kind, tap_numbers};
use reading::{read_leading_into_by, read_whole_into_by};
use reference::{
    AddressWay, Answer, NameComponent, ObjectKind, PLACE_PROFILES, PROFILES, TapNumbers,
    TypeIdRule, View, wrong,
};
use survey::is_exact;
use table::{BIOP, FlatTable, PROFILES_USED, SIZE, number_at};
use table_entries::sort_at;
use writing::write_sound;

// What each function answers when an array has another length than it must have, or a table is not exact.
pub const NOT_ASKED: u32 = 255;

// The numbers of the two rules, and of the one way.
pub const MULTIPLE: u32 = 1;

pub const GAP: u32 = 2;

pub const CONSTANTS: u32 = 1;

// How many numbers an answer and a name have.
pub const ANSWER: usize = 6;

pub const NAME: usize = 4;

// ---- what all of them share

// Number, place, both figures, the count and the offset; the number is the result too.
fn put_answer(a: Answer, out: &mut [u64; ANSWER]) -> u32
    ensures { (result ≡ number_of a) × (out.new ≡ numbers_of a) }
{
    out.fill(0);
    match a {
        Ok(n) => {
            out[4] = n as u64;
            0
        }
        Err(why) => {
            out[0] = why.number as u64;
            out[1] = why.place as u64;
            out[2] = why.first as u64;
            out[3] = why.second as u64;
            out[5] = why.offset as u64;
            why.number as u32
        }
    }
}

// The rule that a number names, and the way.
fn rule_numbered(number: u32) -> Option<TypeIdRule>
    ensures { MatchOption result ((rule : TypeIdRule) → number ≢ rule_number rule) (λ rule. number ≡ rule_number rule) }
{
    match number {
        MULTIPLE => Some(TypeIdRule::Multiple),
        GAP => Some(TypeIdRule::Gap),
        _ => None,
    }
}

fn way_numbered(number: u32) -> Option<AddressWay>
    ensures { MatchOption result ((way : AddressWay) → number ≢ way_number way) (λ way. number ≡ way_number way) }
{
    match number {
        CONSTANTS => Some(AddressWay::Constants),
        _ => None,
    }
}

// ---- references, under a rule

fn read_under(rule: TypeIdRule, s: &[u8], table: &mut [u32], answer: &mut [u64]) -> u32
    ensures { Calls.IorRead rule s.now table.old answer.old result answer.new table.new }
{
    let Some(table) = table.as_mut_array::<SIZE>() else {
        return NOT_ASKED;
    };
    let Some(answer) = answer.as_mut_array::<ANSWER>() else {
        return NOT_ASKED;
    };
    put_answer(read_leading_into_by(s, table, rule), answer)
}

// A function of its own beside the one above: what they call is what their contracts name.
fn read_whole_under(rule: TypeIdRule, s: &[u8], table: &mut [u32], answer: &mut [u64]) -> u32
    ensures { Calls.IorReadWhole rule s.now table.old answer.old result answer.new table.new }
{
    let Some(table) = table.as_mut_array::<SIZE>() else {
        return NOT_ASKED;
    };
    let Some(answer) = answer.as_mut_array::<ANSWER>() else {
        return NOT_ASKED;
    };
    put_answer(read_whole_into_by(s, table, rule), answer)
}

fn length_under(rule: TypeIdRule, table: &[u32], s: &[u8], answer: &mut [u64]) -> u32
    ensures { Calls.IorLength rule table.now s.now answer.old result answer.new }
{
    let Some(table) = table.as_array::<SIZE>() else {
        return NOT_ASKED;
    };
    let Some(answer) = answer.as_mut_array::<ANSWER>() else {
        return NOT_ASKED;
    };
    match sound_length(table, s.len(), rule) {
        Ok(total) => put_answer(with_gap(table, total, rule), answer),
        Err(why) => put_unsound(why, answer),
    }
}

// Why a lent table is refused: one that is not exact is answered as one of another length.
fn put_unsound(why: Unsound, answer: &mut [u64; ANSWER]) -> u32
    ensures { UnsoundTold why answer.old result answer.new }
{
    match why {
        Unsound::NotExact => NOT_ASKED,
        Unsound::Refused(refusal) => put_answer(Err(refusal), answer),
    }
}

fn write_lent(
    rule: TypeIdRule,
    way: AddressWay,
    table: &FlatTable,
    s: &[u8],
    out: &mut [u8],
    answer: &mut [u64; ANSWER],
) -> u32
    ensures { Calls.IorWrite rule way table.now s.now out.old answer.old result answer.new out.new }
{
    match sound_length(table, s.len(), rule) {
        Ok(total) => put_answer(write_sound(table, s, out, total, rule, way), answer),
        Err(why) => put_unsound(why, answer),
    }
}

// The source is taken anew: a slice that is handed on as it came is copied whole, right behind the stores of its two halves, and a processor waits for those.
fn write_under(
    rule: TypeIdRule,
    way: AddressWay,
    table: &[u32],
    s: &[u8],
    out: &mut [u8],
    answer: &mut [u64],
) -> u32
    ensures { Calls.IorWrite rule way table.now s.now out.old answer.old result answer.new out.new }
{
    let Some(table) = table.as_array::<SIZE>() else {
        return NOT_ASKED;
    };
    let Some(answer) = answer.as_mut_array::<ANSWER>() else {
        return NOT_ASKED;
    };
    write_lent(rule, way, table, &s[..s.len()], out, answer)
}

// ---- references

// Reads a leading reference into the table: octets consumed, or the refusal. An accepted reading keeps what stands behind the entries it
// fills, a refused one leaves zeros.
#[unsafe(no_mangle)]
pub extern "C" fn ior_read(s: &[u8], table: &mut [u32], answer: &mut [u64]) -> u32
    ensures { IorRead s.now table.old answer.old result answer.new table.new }
{
    read_under(TypeIdRule::Multiple, s, table, answer)
}

// The same of a whole slice: nothing may be left over.
#[unsafe(no_mangle)]
pub extern "C" fn ior_read_whole(s: &[u8], table: &mut [u32], answer: &mut [u64]) -> u32
    ensures { IorReadWhole s.now table.old answer.old result answer.new table.new }
{
    read_whole_under(TypeIdRule::Multiple, s, table, answer)
}

// The length of the image of the table over the source s; or 6, 8, 9 or 10. One pass over the table finds whether it is exact, and the length.
#[unsafe(no_mangle)]
pub extern "C" fn ior_length(table: &[u32], s: &[u8], answer: &mut [u64]) -> u32
    ensures { IorLength table.now s.now answer.old result answer.new }
{
    length_under(TypeIdRule::Multiple, table, s, answer)
}

// Writes the image of the table over the source s at the start of `out`: its length, or the refusal, which leaves `out` as it is.
#[unsafe(no_mangle)]
pub extern "C" fn ior_write(table: &[u32], s: &[u8], out: &mut [u8], answer: &mut [u64]) -> u32
    ensures { IorWrite table.now s.now out.old answer.old result answer.new out.new }
{
    write_under(
        TypeIdRule::Multiple,
        AddressWay::Constants,
        table,
        s,
        out,
        answer,
    )
}

// ---- references by a rule: 1, a type id's length is a multiple of 4; 2, any length, and a gap of octets FF up to the next one. Another number is answered
// with 255, and nothing is changed.

#[unsafe(no_mangle)]
pub extern "C" fn ior_read_by(rule: u32, s: &[u8], table: &mut [u32], answer: &mut [u64]) -> u32
    ensures { IorReadBy rule s.now table.old answer.old result answer.new table.new }
{
    match rule_numbered(rule) {
        Some(named) => read_under(named, s, table, answer),
        None => NOT_ASKED,
    }
}

#[unsafe(no_mangle)]
pub extern "C" fn ior_read_whole_by(
    rule: u32,
    s: &[u8],
    table: &mut [u32],
    answer: &mut [u64],
) -> u32
    ensures { IorReadWholeBy rule s.now table.old answer.old result answer.new table.new }
{
    match rule_numbered(rule) {
        Some(named) => read_whole_under(named, s, table, answer),
        None => NOT_ASKED,
    }
}

#[unsafe(no_mangle)]
pub extern "C" fn ior_length_by(rule: u32, table: &[u32], s: &[u8], answer: &mut [u64]) -> u32
    ensures { IorLengthBy rule table.now s.now answer.old result answer.new }
{
    match rule_numbered(rule) {
        Some(named) => length_under(named, table, s, answer),
        None => NOT_ASKED,
    }
}

// Writing also names the way an address is written: 1, with its constants.
#[unsafe(no_mangle)]
pub extern "C" fn ior_write_by(
    rule: u32,
    way: u32,
    table: &[u32],
    s: &[u8],
    out: &mut [u8],
    answer: &mut [u64],
) -> u32
    ensures { IorWriteBy rule way table.now s.now out.old answer.old result answer.new out.new }
{
    let Some(named) = rule_numbered(rule) else {
        return NOT_ASKED;
    };
    match way_numbered(way) {
        Some(chosen) => write_under(named, chosen, table, s, out, answer),
        None => NOT_ASKED,
    }
}

// ---- questions

// The number of a kind: dir, fil, str, srg, ste, unknown.
fn kind_number(kind: ObjectKind) -> u32
    ensures { result ≡ kind_number kind }
{
    match kind {
        ObjectKind::Directory => 0,
        ObjectKind::File => 1,
        ObjectKind::Stream => 2,
        ObjectKind::ServiceGateway => 3,
        ObjectKind::StreamEvent => 4,
        ObjectKind::Unknown(_) => 5,
    }
}

// The four octets of a type id as a number; 0 of one that has another length.
fn type_number(type_id: &[u8]) -> u32
    ensures { result ≡ type_number type_id.now }
{
    if type_id.len() == 4 {
        return be32(type_id, 0);
    }
    0
}

// The kind that a type id's octets name: 0 to 4, or 5 for unknown; kind[0] is the type id as a number.
#[unsafe(no_mangle)]
pub extern "C" fn ior_kind(type_id: &[u8], kind: &mut [u32]) -> u32
    ensures { IorKind type_id.now kind.old result kind.new }
{
    let Some(kind) = kind.as_mut_array::<1>() else {
        return NOT_ASKED;
    };
    *kind = [type_number(type_id)];
    kind_number(object_kind(type_id))
}

// The two numbers; 1 if the tap has them, 0 if it has neither, and zeros then.
fn put_pair(found: Option<TapNumbers>, pair: &mut [u32; 2]) -> u32
    ensures { (result ≡ tap_result found) × (pair.new ≡ tap_pair found) }
{
    match found {
        Some(numbers) => {
            *pair = [numbers.transaction, numbers.timeout];
            1
        }
        None => {
            *pair = [0, 0];
            0
        }
    }
}

// Whether a tap of this use, with this selector, has a transaction id and a timeout, and the two. A use over 16 bits is answered with 255.
#[unsafe(no_mangle)]
pub extern "C" fn ior_tap(uses: u32, selector: &[u8], pair: &mut [u32]) -> u32
    ensures { IorTap uses selector.now pair.old result pair.new }
{
    let Ok(tap_use) = u16::try_from(uses) else {
        return NOT_ASKED;
    };
    let Some(pair) = pair.as_mut_array::<2>() else {
        return NOT_ASKED;
    };
    put_pair(tap_numbers(tap_use, selector), pair)
}

// The index of the first BIOP profile among the used ones, or 8 where there is none; refused with 8 if more are used than the table has.
fn first_of(table: &FlatTable) -> Answer
    ensures { result ≡ first_said (first_biop (tables_from table.now)) }
{
    let used = number_at(table, PROFILES_USED);
    if PROFILES < used {
        return Err(wrong(8, PLACE_PROFILES));
    }
    for i in 0..used {
        if sort_at(table, i) == BIOP {
            return Ok(i);
        }
    }
    Ok(PROFILES)
}

#[unsafe(no_mangle)]
pub extern "C" fn ior_first_biop(table: &[u32], answer: &mut [u64]) -> u32
    ensures { IorFirstBiop table.now answer.old result answer.new }
{
    let Some(table) = table.as_array::<SIZE>() else {
        return NOT_ASKED;
    };
    let Some(answer) = answer.as_mut_array::<ANSWER>() else {
        return NOT_ASKED;
    };
    if !is_exact(table) {
        return NOT_ASKED;
    }
    put_answer(first_of(table), answer)
}

// Whether an address bears the four constants of its kind: 1 or 0; 255 if it has not twenty octets.
#[unsafe(no_mangle)]
pub extern "C" fn ior_dvb_address(address: &[u8]) -> u32
    ensures { IorDvbAddress address.now result }
{
    match address.as_array::<20>() {
        Some(octets) => u32::from(is_dvb(*octets)),
        None => NOT_ASKED,
    }
}

// ---- the name with lengths of one octet

// The views of a name as four numbers, and the name that such numbers tell.
fn numbers_of_name(name: NameComponent) -> [u32; NAME]
    ensures { result ≡ name_numbers name }
{
    [name.id.at, name.id.len, name.kind.at, name.kind.len]
}

fn name_of(numbers: &[u32; NAME]) -> NameComponent
    ensures { result ≡ name_from numbers.now 0 }
{
    let [id_at, id_len, kind_at, kind_len] = *numbers;
    NameComponent {
        id: View {
            at: id_at,
            len: id_len,
        },
        kind: View {
            at: kind_at,
            len: kind_len,
        },
    }
}

// Reads a name at the start of s: its views in four numbers (id at, id length, kind at, kind length) and the octets consumed; or the
// refusal, which leaves zeros.
#[unsafe(no_mangle)]
pub extern "C" fn ior_name_read(s: &[u8], name: &mut [u32], answer: &mut [u64]) -> u32
    ensures { IorNameRead s.now name.old answer.old result answer.new name.new }
{
    let Some(name) = name.as_mut_array::<NAME>() else {
        return NOT_ASKED;
    };
    let Some(answer) = answer.as_mut_array::<ANSWER>() else {
        return NOT_ASKED;
    };
    match read_short_name(s) {
        Ok((found, next)) => {
            *name = numbers_of_name(found);
            put_answer(Ok(next), answer)
        }
        Err(why) => {
            *name = [0; NAME];
            put_answer(Err(why), answer)
        }
    }
}

// Writes the name of these views over the source s at the start of `out`: its length, or the refusal, which leaves `out` as it is.
#[unsafe(no_mangle)]
pub extern "C" fn ior_name_write(name: &[u32], s: &[u8], out: &mut [u8], answer: &mut [u64]) -> u32
    ensures { IorNameWrite name.now s.now out.old answer.old result answer.new out.new }
{
    let Some(name) = name.as_array::<NAME>() else {
        return NOT_ASKED;
    };
    let Some(answer) = answer.as_mut_array::<ANSWER>() else {
        return NOT_ASKED;
    };
    put_answer(write_short_name(name_of(name), s, out), answer)
}
