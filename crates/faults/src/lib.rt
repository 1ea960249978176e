// What is wrong with a lent table, in the order of document 01: the checks that measuring makes (6, 8, 9, 10), from one survey of the table, and the
// check for 2 that only writing makes. Only where some view lies outside the source are they looked at one by one, to tell the first.
#![tactic(auto)]

ghost use Rattle.std.specs.Prelude.{ℕ, ◌≡◌, ◌+◌, ◌*◌, ◌≤◌, ◌<◌, min, length, get_or, false, Ok, Err};
ghost use Rattle.octets.specs.Octets.{part};
ghost use Rattle.reference.specs.declared.TypeIdRule.TheVariants.{Multiple};
ghost use Rattle.reference.specs.Layout.{gap_length};
ghost use Rattle.reference.specs.Checks.{both, each};
ghost use Rattle.reference.specs.Meaning.{sum};
ghost use Rattle.reference.specs.Tabled.{used_of};
ghost use Rattle.reference.specs.Used.{taps_in, names_in, extras_in, owned_of};
ghost use Rattle.reference.specs.Writer.{tap_size, measured, used_check, sum_check, counted, counts_check, view_check, entry_views, views_check, short_check, extra_short, own_short, size_of, measure_check};
ghost use Rattle.table.specs.Flat.{view_from, tables_from, profile_of_table, profile_region, tap_region, extra_region, table_size, taps_used, extras_used};
ghost use Rattle.table.specs.Region.{listed};
ghost use Rattle.survey.specs.ByTable.{used_in};
ghost use Rattle.survey.specs.Seen.{passing, Surveyed};
ghost use Rattle.faults.specs.Short.{short_here, Within};
ghost use Rattle.faults.specs.Judges.{Judges, Sounds, length_told};
ghost use Rattle.faults.specs.Each.{EachBy};

use reference::{
    Answer, Check, EXTRAS, MOST, NAMES, PLACE_EXTRAS, PLACE_NAMES, PLACE_PROFILES, PLACE_TAPS,
    PROFILES, Refusal, TAPS, Tap, TypeIdRule, View, gap_length, outside, too_large, too_long,
    wrong,
};
use survey::{
    BOUND, EXTRA_VIEWS_AT, NAME_VIEWS_AT, Survey, TAP_FIXED, VIEW_WIDTH, survey_of, used_at,
};
use table::{
    BIOP, EXTRA_WIDTH, EXTRAS_USED, FlatTable, NAMES_USED, PROFILES_USED, SELECTOR_AT, TAP_WIDTH,
    TAPS_AT, TAPS_USED, TYPE_ID, number_at,
};
use table_entries::{extra_at, extras_at, profile_view, sort_at, tap_at, taps_at, view_at};

// The place of the type id in a refusal.
const PLACE_TYPE_ID: u8 = 0;

// Where the views of taps begin.
const TAP_VIEWS_AT: usize = TAPS_AT + SELECTOR_AT;

// Inside a component with a length of one octet: ObjectLocation without its key, ConnBinder without its taps, and the most that it may hold.
const LOCATION_FIXED: usize = 4 + 2 + 1 + 1 + 1;

const BINDER_FIXED: usize = 1;

const LONGEST: usize = 255;

// The checks of 0, 1, .., `count` of them: the first that refuses decides.
fn check_each<F: Fn(usize) -> Check>(count: usize, check: F) -> Check
    requires { (i : ℕ) → i < count → F.pre check i }
    ensures { EachBy (F.post check) count result }
{
    for i in 0..count {
        check(i)?;
    }
    Ok(())
}

// 8 for one table: its used count, which stands at number k, is within its size, and the sum of the profiles' counts.
fn check_used(t: &[u32], k: usize, size: usize, total: usize, place: u8) -> Check
    requires { k < length t.now }
    ensures { result ≡ both (used_check place size (get_or t.now k 0)) (sum_check place total (get_or t.now k 0)) }
{
    let used = number_at(t, k);
    if size < used || total != used {
        return Err(wrong(8, place));
    }
    Ok(())
}

fn check_counts(t: &FlatTable, s: Survey) -> Check
    requires { (s.taps ≡ counted taps_in (used_in t.now).profiles) × (s.names ≡ counted names_in (used_in t.now).profiles) × (s.extras ≡ counted extras_in (used_in t.now).profiles) }
    ensures { result ≡ counts_check (tables_from t.now) }
{
    if PROFILES < number_at(t, PROFILES_USED) {
        return Err(wrong(8, PLACE_PROFILES));
    }
    check_used(t, TAPS_USED, TAPS, s.taps, PLACE_TAPS)?;
    check_used(t, NAMES_USED, NAMES, s.names, PLACE_NAMES)?;
    check_used(t, EXTRAS_USED, EXTRAS, s.extras, PLACE_EXTRAS)
}

// 9: whether a view lies within a source of n octets; the sum is taken in 64 bits.
fn check_view(v: View, n: usize, place: u8) -> Check
    ensures { result ≡ view_check n place v }
{
    if n < v.at as usize + v.len as usize {
        return Err(outside(place, v));
    }
    Ok(())
}

// 9 for the `count` views that stand at first, first + width, ..
fn check_row(t: &FlatTable, first: usize, width: usize, count: usize, n: usize, place: u8) -> Check
    requires { first + width * count + 2 ≤ table_size + width }
    ensures { result ≡ each (view_check n place) (listed count (λ i. view_from t.now (first + width * i))) }
{
    check_each(
        count,
        |i| check_view(view_at(t, first + width * i), n, place),
    )
}

// 9 for the first `count` profiles, whose views stand by their sort.
fn check_profiles(t: &FlatTable, count: usize, n: usize) -> Check
    requires { count ≤ profile_region.size }
    ensures { result ≡ each (entry_views n) (listed count (profile_of_table t.now)) }
{
    check_each(count, |i| check_view(profile_view(t, i), n, PLACE_PROFILES))
}

// 9: the type id, then table by table.
fn check_views(t: &FlatTable, n: usize) -> Check
    ensures { result ≡ views_check n (used_in t.now) }
{
    check_view(view_at(t, TYPE_ID), n, PLACE_TYPE_ID)?;
    check_profiles(t, used_at(t, PROFILES_USED, PROFILES), n)?;
    let taps = used_at(t, TAPS_USED, TAPS);
    check_row(t, TAP_VIEWS_AT, TAP_WIDTH, taps, n, PLACE_TAPS)?;
    let name_views = 2 * used_at(t, NAMES_USED, NAMES);
    check_row(t, NAME_VIEWS_AT, VIEW_WIDTH, name_views, n, PLACE_NAMES)?;
    let extras = used_at(t, EXTRAS_USED, EXTRAS);
    check_row(t, EXTRA_VIEWS_AT, EXTRA_WIDTH, extras, n, PLACE_EXTRAS)
}

// The octets of the image under the rule, whose gap no survey counts.
pub fn image_size(s: Survey, t: &FlatTable, rule: TypeIdRule) -> usize
    requires { s.octets ≤ 500 * 0x200000000 }
    ensures { result ≡ s.octets + gap_length rule (view_from t.now 0).len }
{
    let type_id = view_at(t, TYPE_ID);
    s.octets + gap_length(rule, type_id.len as usize)
}

// Whether measuring passes under the rule, by a survey of the table over a source of n octets.
pub fn is_sound(s: Survey, t: &FlatTable, n: usize, rule: TypeIdRule) -> bool
    requires { Surveyed (min n 65535) t.now s }
    ensures { result ≡ passing (measure_check rule (tables_from t.now) n) }
{
    n <= MOST && check_counts(t, s).is_ok() && s.ends < BOUND && image_size(s, t, rule) <= MOST
}

// What measuring refuses with, where it does not pass: 6, 8, 9 or 10. Apart from its caller: inlined there, it takes the registers of the table that is sound.
#[cold]
#[inline(never)]
pub fn refusal_of(s: Survey, t: &FlatTable, n: usize, rule: TypeIdRule) -> Refusal
    requires { Surveyed (min n 65535) t.now s × (passing (measure_check rule (tables_from t.now) n) ≡ false) }
    ensures { measure_check rule (tables_from t.now) n ≡ Err result }
{
    if MOST < n {
        return too_large(6, n);
    }
    if let Err(r) = check_counts(t, s) {
        return r;
    }
    if let Err(r) = check_views(t, n) {
        return r;
    }
    too_large(10, image_size(s, t, rule))
}

// The image's length over src; or 6, 8, 9 or 10.
pub fn length_from(t: &FlatTable, src: &[u8], rule: TypeIdRule) -> Answer
    ensures { result ≡ measured rule (tables_from t.now) src.now }
{
    let s = survey_of(t, src.len());
    if is_sound(s, t, src.len(), rule) {
        return Ok(image_size(s, t, rule));
    }
    Err(refusal_of(s, t, src.len(), rule))
}

// What one survey says of a lent table over a source: it is sound, that is exact and nothing that measuring refuses, and its image so long; or what was seen.
// It is rule 1's word: what another rule adds is the gap.
pub fn judge(t: &FlatTable, n: usize) -> Result<usize, Survey>
    ensures { Judges t.now n result }
{
    let s = survey_of(t, n);
    // Both marks at once; `is_sound` looks at the ends again, which costs nothing.
    if (s.fields | s.ends) < BOUND && is_sound(s, t, n, TypeIdRule::Multiple) {
        return Ok(s.octets);
    }
    Err(s)
}

// Why a lent table is refused: a number of it would be cut; or what measuring refuses it with.
#[derive(Clone, Copy, Debug, PartialEq, Eq)]
pub enum Unsound {
    NotExact,
    Refused(Refusal),
}

// The length that rule 1 measures of a sound table over a source of n octets; or why the table is refused under the rule.
pub fn sound_length(t: &FlatTable, n: usize, rule: TypeIdRule) -> Result<usize, Unsound>
    ensures { Sounds rule t.now n result }
{
    match judge(t, n) {
        Ok(total) => Ok(total),
        Err(found) if BOUND <= found.fields => Err(Unsound::NotExact),
        Err(found) => Err(Unsound::Refused(refusal_of(found, t, n, rule))),
    }
}

// The length under the rule of an image that has `total` octets without a gap; or 10.
pub fn with_gap(t: &FlatTable, total: usize, rule: TypeIdRule) -> Answer
    requires { (total ≡ size_of Multiple (used_in t.now)) × (total ≤ 65535) }
    ensures { result ≡ length_told rule (used_in t.now) }
{
    match rule {
        TypeIdRule::Multiple => Ok(total),
        TypeIdRule::Gap => {
            let type_id = view_at(t, TYPE_ID);
            let n = total + gap_length(rule, type_id.len as usize);
            if MOST < n {
                return Err(too_large(10, n));
            }
            Ok(n)
        }
    }
}

// 2: whether a component's length fits one octet.
fn check_short(size: usize) -> Check
    ensures { result ≡ short_check size }
{
    if LONGEST < size {
        return Err(too_long(0, size, LONGEST));
    }
    Ok(())
}

fn tap_size(tap: Tap) -> usize
    ensures { (result ≡ tap_size tap) × (result < 0x200000000) }
{
    TAP_FIXED + tap.selector.len as usize
}

// The octets of `count` taps from `first` on.
fn taps_size(t: &FlatTable, first: usize, count: usize) -> usize
    requires { (taps_used t.now ≤ tap_region.size) × (first + count ≤ taps_used t.now) }
    ensures { (result ≡ sum tap_size (part (used_in t.now).taps first count)) × (result < 0x10000000000) }
{
    let mut total: usize = 0;
    for i in 0..count {
        let tap = tap_at(t, first + i);
        total += tap_size(tap);
    }
    total
}

// 2 for each of `count` extras from `first` on.
fn check_extras(t: &FlatTable, first: usize, count: usize) -> Check
    requires { (extras_used t.now ≤ extra_region.size) × (first + count ≤ extras_used t.now) }
    ensures { result ≡ each extra_short (part (used_in t.now).extras first count) }
{
    check_each(
        count,
        |i| check_short(extra_at(t, first + i).data.len as usize),
    )
}

// 2 for profile i, whose taps and extras begin at `tap` and `extra`: ObjectLocation, ConnBinder, extras.
fn check_profile(t: &FlatTable, i: usize, tap: usize, extra: usize) -> Check
    requires { Within t.now i tap extra }
    ensures { result ≡ short_here t.now i tap extra }
{
    if sort_at(t, i) == BIOP {
        let key = profile_view(t, i);
        check_short(LOCATION_FIXED + key.len as usize)?;
        check_short(BINDER_FIXED + taps_size(t, tap, taps_at(t, i)))?;
    }
    check_extras(t, extra, extras_at(t, i))
}

// 2, profile by profile.
pub fn check_sizes(t: &FlatTable) -> Check
    requires { counts_check (tables_from t.now) ≡ Ok tt }
    ensures { result ≡ each own_short (owned_of (used_of (tables_from t.now))) }
{
    let used = number_at(t, PROFILES_USED);
    let mut tap: usize = 0;
    let mut extra: usize = 0;
    for i in 0..used {
        check_profile(t, i, tap, extra)?;
        tap += taps_at(t, i);
        extra += extras_at(t, i);
    }
    Ok(())
}
