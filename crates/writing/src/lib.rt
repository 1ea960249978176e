// Writing a reference: all checks first, in the order of document 01 (6, 8, 9, 10, 5, 4, 2), then the stores; no octet is stored before every
// check has passed.
#![tactic(auto)]

ghost use Rattle.std.specs.Prelude.{◌≡◌, ◌+◌, ◌≤◌, ◌<◌, length, Ok};
ghost use Rattle.octets.specs.Octets.{Each};
ghost use Rattle.octets.specs.Put.{Put};
ghost use Rattle.reference.specs.Layout.{layout_profile};
ghost use Rattle.reference.specs.Tabled.{used_of};
ghost use Rattle.reference.specs.Used.{owned_of};
ghost use Rattle.reference.specs.Today.{profile_of, measured};
ghost use Rattle.reference.specs.declared.TypeIdRule.TheVariants.{Multiple};
ghost use Rattle.reference.specs.declared.AddressWay.TheVariants.{Constants};
ghost use Rattle.reference.specs.Checks.{both, each};
ghost use Rattle.reference.specs.Meaning.{sum};
ghost use Rattle.reference.specs.Writer.{own_size, size_of, image_of, counts_check, room_check, type_check, own_short, measure_check, write_check};
ghost use Rattle.reference.specs.Writer as Writer;
ghost use Rattle.table.specs.Flat.{body_of_table, tables_from, profile_region};
ghost use Rattle.write_bodies.specs.Own.{OwnSound, PutAll, PutOwn};
ghost use Rattle.writing.specs.Own.{counts_in, own_on, after_of, Placed};
ghost use Rattle.writing.specs.Writes as By;
ghost use Rattle.writing.specs.Today.{Writes};

use faults::{check_sizes, image_size, is_sound, length_from, refusal_of, with_gap};
use octets::put32;
use reference::{
    AddressWay, Answer, Check, PLACE_TYPE_ID_LENGTH, Tables, TypeIdRule, allows, no_room, wrong,
};
use survey::survey_of;
use table::{BIOP, Counts, FlatTable, LITE_OPTIONS, PROFILES_USED, SIZE, TYPE_ID, number_at};
use table_entries::{
    address_at, extras_at, location_at, names_at, profile_view, sort_at, tag_at, taps_at, view_at,
};
use table_struct::put_tables;
use write_bodies::{write_biop, write_lite, write_opaque};
use write_parts::write_type_id;

// How many entries profile i counts.
fn counts_at(t: &FlatTable, i: usize) -> Counts
    requires { i < profile_region.size }
    ensures { result ≡ counts_in (body_of_table t.now i) }
{
    Counts {
        taps: taps_at(t, i),
        names: names_at(t, i),
        extras: extras_at(t, i),
    }
}

// Where the entries of the next profile begin.
fn after(first: Counts, count: Counts) -> Counts
    requires { Placed first count }
    ensures { result ≡ after_of first count }
{
    Counts {
        taps: first.taps + count.taps,
        names: first.names + count.names,
        extras: first.extras + count.extras,
    }
}

// Profile i, whose entries begin at `first`.
fn write_profile(
    t: &FlatTable,
    i: usize,
    first: Counts,
    count: Counts,
    src: &[u8],
    out: &mut [u8],
    at: usize,
) -> usize
    requires i_lt_size { i < profile_region.size }
    requires count_value { (count ≡ counts_in (body_of_table t.now i)) × (Placed first count) }
    requires own_sound { OwnSound (length src.now) (own_on t.now i first) }
    requires first_in_bounds { at + own_size (own_on t.now i first) ≤ length out.old }
    ensures { PutOwn out.old at src.now (own_on t.now i first) out.new result }
{
    match sort_at(t, i) {
        BIOP => write_biop(location_at(t, i), t, first, count, src, out, at),
        LITE_OPTIONS => {
            let address = address_at(t, i);
            write_lite(address, profile_view(t, i), t, first, count, src, out, at)
        }
        _ => write_opaque(tag_at(t, i), profile_view(t, i), src, out, at),
    }
}

// The profiles, one after the other.
fn write_profiles(t: &FlatTable, src: &[u8], out: &mut [u8], at: usize) -> usize
    requires counted_and_sound { (counts_check (tables_from t.now) ≡ Ok tt) × Each (OwnSound (length src.now)) (owned_of (used_of (tables_from t.now))) }
    requires t_in_bounds { at + sum own_size (owned_of (used_of (tables_from t.now))) ≤ length out.old }
    ensures { PutAll (profile_of src.now) layout_profile own_size out.old at (owned_of (used_of (tables_from t.now))) out.new result }
{
    let used = number_at(t, PROFILES_USED);
    let mut first = Counts::default();
    let mut pos = at;
    for i in 0..used {
        let count = counts_at(t, i);
        pos = write_profile(t, i, first, count, src, out, pos);
        first = after(first, count);
    }
    pos
}

// The whole image under the rule, at the start of the output.
fn write_image(t: &FlatTable, src: &[u8], out: &mut [u8], rule: TypeIdRule) -> usize
    requires { write_check rule (tables_from t.now) (length src.now) (length out.old) ≡ Ok tt }
    ensures { Put out.old 0 (size_of rule (used_of (tables_from t.now))) (image_of rule Constants src.now (tables_from t.now)) out.new result }
{
    let type_id = view_at(t, TYPE_ID);
    let a = write_type_id(type_id, src, out, 0, rule);
    let b = put32(out, a, t[PROFILES_USED]);
    write_profiles(t, src, out, b)
}

// 5, 4 and 2, in this order, for an image of `total` octets and an output of `room`.
#[tactic(auto, using(crate::proofs::Answers::no_room_refuses, crate::proofs::Answers::type_refuses, crate::proofs::Answers::sizes_decide, crate::proofs::Checked::small_short, table::proofs::Entries::type_id_entry))]
fn check_output(t: &FlatTable, total: usize, room: usize, rule: TypeIdRule) -> Check
    requires { (counts_check (tables_from t.now) ≡ Ok tt) × (total ≡ size_of rule (used_of (tables_from t.now))) }
    ensures { result ≡ both (room_check (size_of rule (used_of (tables_from t.now))) room) (both (type_check rule (tables_from t.now).type_id) (each own_short (owned_of (used_of (tables_from t.now))))) }
{
    if room < total {
        return Err(no_room(total, room));
    }
    let type_id = view_at(t, TYPE_ID);
    if !allows(rule, type_id.len as usize) {
        return Err(wrong(4, PLACE_TYPE_ID_LENGTH));
    }
    // In an image of at most 255 octets no component is longer.
    if total <= 255 {
        return Ok(());
    }
    check_sizes(t)
}

// Writes the image, whose length measuring has told, at the start of `out`, and answers that length; or refuses with 5, 4 or 2, and leaves `out` as it is.
pub fn write_measured(
    t: &FlatTable,
    src: &[u8],
    out: &mut [u8],
    total: usize,
    rule: TypeIdRule,
    way: AddressWay,
) -> Answer
    requires { (measure_check rule (tables_from t.now) (length src.now) ≡ Ok tt) × (total ≡ size_of rule (used_of (tables_from t.now))) }
    ensures { By.Writes rule way (tables_from t.now) src.now out.old result out.new }
{
    check_output(t, total, out.len(), rule)?;
    match way {
        AddressWay::Constants => Ok(write_image(t, src, out, rule)),
    }
}

// The same of a table that rule 1 measures with `total` octets: the rule's gap comes on top, and with it 10.
pub fn write_sound(
    t: &FlatTable,
    src: &[u8],
    out: &mut [u8],
    total: usize,
    rule: TypeIdRule,
    way: AddressWay,
) -> Answer
    requires { (measure_check Multiple (tables_from t.now) (length src.now) ≡ Ok tt) × (total ≡ size_of Multiple (used_of (tables_from t.now))) }
    ensures { By.Writes rule way (tables_from t.now) src.now out.old result out.new }
{
    let n = with_gap(t, total, rule)?;
    write_measured(t, src, out, n, rule, way)
}

// Writes the image under the rule and in the way at the start of `out` and answers its length; or refuses, and leaves `out` as it is.
pub fn write_from_by(
    t: &FlatTable,
    src: &[u8],
    out: &mut [u8],
    rule: TypeIdRule,
    way: AddressWay,
) -> Answer
    ensures { By.Writes rule way (tables_from t.now) src.now out.old result out.new }
{
    let s = survey_of(t, src.len());
    if is_sound(s, t, src.len(), rule) {
        return write_measured(t, src, out, image_size(s, t, rule), rule, way);
    }
    Err(refusal_of(s, t, src.len(), rule))
}

// The length of the image of tables by value, under the rule; or 6, 8, 9 or 10.
pub fn image_length_by(t: Tables, src: &[u8], rule: TypeIdRule) -> Answer
    ensures { result ≡ Writer.measured rule t src.now }
{
    let mut table = [0u32; SIZE];
    put_tables(t, &mut table);
    length_from(&table, src, rule)
}

// The same as `write_from_by`, of tables by value.
pub fn write_by(t: Tables, src: &[u8], out: &mut [u8], rule: TypeIdRule, way: AddressWay) -> Answer
    ensures { By.Writes rule way t src.now out.old result out.new }
{
    let mut table = [0u32; SIZE];
    put_tables(t, &mut table);
    write_from_by(&table, src, out, rule, way)
}

// The three that name neither: rule 1, and an address with its constants.
pub fn write_from(t: &FlatTable, src: &[u8], out: &mut [u8]) -> Answer
    ensures { Writes (tables_from t.now) src.now out.old result out.new }
{
    write_from_by(t, src, out, TypeIdRule::Multiple, AddressWay::Constants)
}

pub fn image_length(t: Tables, src: &[u8]) -> Answer
    ensures { result ≡ measured t src.now }
{
    image_length_by(t, src, TypeIdRule::Multiple)
}

pub fn write(t: Tables, src: &[u8], out: &mut [u8]) -> Answer
    ensures { Writes t src.now out.old result out.new }
{
    write_by(t, src, out, TypeIdRule::Multiple, AddressWay::Constants)
}
