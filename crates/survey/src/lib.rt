// One pass over a lent table, with no branch for a view: how many entries the used profiles count, the octets of an image, and two marks: whether every
// number fits its field, and whether every view ends within the source. Only used entries are looked at, at most as many as a table holds.
//
// A mark is a number that stays below 65536 exactly if something holds; marks or'ed together stay below exactly if all of it holds.
#![tactic(auto)]

ghost use Rattle.std.specs.Prelude.{◌≡◌, ◌+◌, ◌*◌, ◌≤◌, ◌<◌, min, length, get_or};
ghost use Rattle.table.specs.Flat.{profile_region, tap_region, table_size, profiles_used, taps_used};
ghost use Rattle.survey.specs.Exact.{profiles_exact, taps_exact, exact};
ghost use Rattle.survey.specs.Seen.{holds, Bounded, Grown, biop_adds, lite_adds, opaque_adds, tap_adds, view_adds, added, biop_seen, lite_seen, opaque_seen, profile_seen, tap_seen, view_seen, all_seen, with_fixed, profiles_seen, taps_seen, names_seen, extras_seen, Surveyed};

use reference::{EXTRAS, MOST, NAMES, PROFILES, TAPS};
use table::{
    BIOP, BIOP_EXTRAS, BIOP_TAPS, CONTEXT_AT, CONTEXT_LEN, DATA_AT, EXTRA_WIDTH, EXTRAS_AT,
    EXTRAS_USED, FlatTable, KEY_AT, KEY_LEN, LITE_EXTRAS, LITE_NAMES, LITE_OPTIONS, MODULE,
    NAMES_AT, NAMES_USED, OPAQUE_AT, OPAQUE_LEN, ORIGINAL_NETWORK, PROFILE_WIDTH, PROFILES_AT,
    PROFILES_USED, SELECTOR_AT, SELECTOR_LEN, SERVICE, SPECIFIER, TAP_ASSOCIATION, TAP_USE,
    TAP_WIDTH, TAPS_AT, TAPS_USED, TRANSPORT_STREAM, TYPE_ID, VERSION_MAJOR, VERSION_MINOR,
    number_at,
};

// Every mark below it holds.
pub const BOUND: usize = 65536;

// The octets of an entry's fixed fields. Front: the type id's length and the profile count; tap: id, use, association, selector length; name: both
// lengths; extra: tag and length.
const FRONT_FIXED: usize = 4 + 4;

pub const TAP_FIXED: usize = 2 + 2 + 2 + 1;

const NAME_FIXED: usize = 4 + 4;

const EXTRA_FIXED: usize = 4 + 1;

// A profile: its header; of BIOP also order octet and component count, ObjectLocation's header, carousel, module, versions and key length, and
// ConnBinder's header and tap count; of LiteOptions order octet and component count, ServiceLocation's header, the address behind its length, name
// count and context length.
const OPAQUE_FIXED: usize = 4 + 4;

const BIOP_FIXED: usize = 8 + 2 + (5 + 4 + 2 + 2 + 1) + (5 + 1);

const LITE_FIXED: usize = 8 + 2 + 8 + (1 + 20) + 4 + 4;

// Where the views of names and extras begin. A name has two, one behind the other.
pub const NAME_VIEWS_AT: usize = NAMES_AT;

pub const VIEW_WIDTH: usize = 2;

pub const EXTRA_VIEWS_AT: usize = EXTRAS_AT + DATA_AT;

// How many taps, names and extras the profiles count, the octets, and the marks of fields and of ends.
#[derive(Clone, Copy, Default)]
pub struct Survey {
    pub taps: usize,
    pub names: usize,
    pub extras: usize,
    pub octets: usize,
    pub fields: usize,
    pub ends: usize,
}

// How many entries of a table are looked at: its used count, which stands at number k, and no more than its size.
pub fn used_at(t: &[u32], k: usize, size: usize) -> usize
    requires { k < length t.now }
    ensures { result ≡ min (get_or t.now k 0) size }
{
    number_at(t, k).min(size)
}

fn add(a: Survey, b: Survey) -> Survey
    requires { Bounded 999 a × Bounded 1 b }
    ensures { result ≡ added a b }
{
    Survey {
        taps: a.taps + b.taps,
        names: a.names + b.names,
        extras: a.extras + b.extras,
        octets: a.octets + b.octets,
        fields: a.fields | b.fields,
        ends: a.ends | b.ends,
    }
}

// What an entry adds, told by its numbers, with a view at..at + len over a source of n octets: a BIOP profile, a LiteOptions profile, one that is
// opaque or of an unknown sort, which does not fit; and, without its fixed fields, a tap and a view by itself. Apart from where the numbers are read:
// read in the sums' place, a short table takes a third longer.
fn biop_adds(
    module: u32,
    major: u32,
    minor: u32,
    at: u32,
    len: u32,
    taps: u32,
    extras: u32,
    n: usize,
) -> Survey
    requires { n ≤ 65535 }
    ensures { (result ≡ biop_adds «module» major minor at len taps extras n) × Bounded 1 result }
{
    Survey {
        taps: taps as usize,
        extras: extras as usize,
        octets: BIOP_FIXED + len as usize,
        fields: module as usize | major as usize * 256 | minor as usize * 256,
        ends: at as usize + len as usize + (MOST - n),
        ..Survey::default()
    }
}

fn lite_adds(
    specifier: u32,
    transport: u32,
    network: u32,
    service: u32,
    names: u32,
    at: u32,
    len: u32,
    extras: u32,
    n: usize,
) -> Survey
    requires { n ≤ 65535 }
    ensures { (result ≡ lite_adds specifier transport network service names at len extras n) × Bounded 1 result }
{
    Survey {
        names: names as usize,
        extras: extras as usize,
        octets: LITE_FIXED + len as usize,
        fields: specifier as usize / 256 | transport as usize | network as usize | service as usize,
        ends: at as usize + len as usize + (MOST - n),
        ..Survey::default()
    }
}

fn opaque_adds(sort: u32, at: u32, len: u32, n: usize) -> Survey
    requires { n ≤ 65535 }
    ensures { (result ≡ opaque_adds sort at len n) × Bounded 1 result }
{
    Survey {
        octets: OPAQUE_FIXED + len as usize,
        fields: sort as usize * BOUND,
        ends: at as usize + len as usize + (MOST - n),
        ..Survey::default()
    }
}

fn tap_adds(id: u32, uses: u32, association: u32, at: u32, len: u32, n: usize) -> Survey
    requires { n ≤ 65535 }
    ensures { (result ≡ tap_adds id uses association at len n) × Bounded 1 result }
{
    Survey {
        octets: len as usize,
        fields: id as usize | uses as usize | association as usize,
        ends: at as usize + len as usize + (MOST - n),
        ..Survey::default()
    }
}

fn view_adds(at: u32, len: u32, n: usize) -> Survey
    requires { n ≤ 65535 }
    ensures { (result ≡ view_adds at len n) × Bounded 1 result }
{
    Survey {
        octets: len as usize,
        ends: at as usize + len as usize + (MOST - n),
        ..Survey::default()
    }
}

// .. whose numbers stand from `at` on.
fn biop_seen(t: &[u32], at: usize, n: usize) -> Survey
    requires { (at + profile_region.width ≤ length t.now) × (n ≤ 65535) }
    ensures { (result ≡ biop_seen n t.now at) × Bounded 1 result }
{
    biop_adds(
        t[at + MODULE],
        t[at + VERSION_MAJOR],
        t[at + VERSION_MINOR],
        t[at + KEY_AT],
        t[at + KEY_LEN],
        t[at + BIOP_TAPS],
        t[at + BIOP_EXTRAS],
        n,
    )
}

fn lite_seen(t: &[u32], at: usize, n: usize) -> Survey
    requires { (at + profile_region.width ≤ length t.now) × (n ≤ 65535) }
    ensures { (result ≡ lite_seen n t.now at) × Bounded 1 result }
{
    lite_adds(
        t[at + SPECIFIER],
        t[at + TRANSPORT_STREAM],
        t[at + ORIGINAL_NETWORK],
        t[at + SERVICE],
        t[at + LITE_NAMES],
        t[at + CONTEXT_AT],
        t[at + CONTEXT_LEN],
        t[at + LITE_EXTRAS],
        n,
    )
}

fn opaque_seen(t: &[u32], at: usize, n: usize) -> Survey
    requires { (at + profile_region.width ≤ length t.now) × (n ≤ 65535) }
    ensures { (result ≡ opaque_seen n t.now at) × Bounded 1 result }
{
    opaque_adds(t[at], t[at + OPAQUE_AT], t[at + OPAQUE_LEN], n)
}

fn tap_seen(t: &[u32], at: usize, n: usize) -> Survey
    requires { (at + tap_region.width ≤ length t.now) × (n ≤ 65535) }
    ensures { (result ≡ tap_seen n t.now at) × Bounded 1 result }
{
    tap_adds(
        t[at],
        t[at + TAP_USE],
        t[at + TAP_ASSOCIATION],
        t[at + SELECTOR_AT],
        t[at + SELECTOR_LEN],
        n,
    )
}

fn view_seen(t: &[u32], at: usize, n: usize) -> Survey
    requires { (at + 2 ≤ length t.now) × (n ≤ 65535) }
    ensures { (result ≡ view_seen n t.now at) × Bounded 1 result }
{
    view_adds(t[at], t[at + 1], n)
}

#[tactic(auto, using(crate::proofs::Sorts::by_sort))]
fn profile_seen(t: &[u32], at: usize, n: usize) -> Survey
    requires { (at + profile_region.width ≤ length t.now) × (n ≤ 65535) }
    ensures { (result ≡ profile_seen n t.now at) × Bounded 1 result }
{
    match t[at] {
        BIOP => biop_seen(t, at, n),
        LITE_OPTIONS => lite_seen(t, at, n),
        _ => opaque_seen(t, at, n),
    }
}

// The fixed fields of all entries of a table at once.
fn with_fixed(s: Survey, octets: usize) -> Survey
    requires { Bounded 500 s × (octets ≤ 1000) }
    ensures { (result ≡ with_fixed s octets) × Grown 1 s result }
{
    Survey {
        octets: s.octets + octets,
        ..s
    }
}

// The views that stand at first, first + width, ..
fn see_views(
    t: &FlatTable,
    first: usize,
    width: usize,
    count: usize,
    n: usize,
    before: Survey,
) -> Survey
    requires { (n ≤ 65535) × (count ≤ 64) × (first + width * count + 2 ≤ table_size + width) × Bounded 501 before }
    ensures { (result ≡ all_seen (λ i. view_seen n t.now (first + width * i)) count before) × Grown 64 before result }
{
    let mut all = before;
    for i in 0..count {
        let one = view_seen(t, first + width * i, n);
        all = add(all, one);
    }
    all
}

// The used profiles, taps, names and extras, each behind what was seen before. A used count is read where its entries are, so that fewer numbers are
// held at a time.
fn see_profiles(t: &FlatTable, n: usize, before: Survey) -> Survey
    requires { (n ≤ 65535) × Bounded 500 before }
    ensures { (result ≡ profiles_seen n t.now before) × Grown 65 before result }
{
    let used = used_at(t, PROFILES_USED, PROFILES);
    let mut all = before;
    for i in 0..used {
        let one = profile_seen(t, PROFILES_AT + PROFILE_WIDTH * i, n);
        all = add(all, one);
    }
    all
}

fn see_taps(t: &FlatTable, n: usize, before: Survey) -> Survey
    requires { (n ≤ 65535) × Bounded 500 before }
    ensures { (result ≡ taps_seen n t.now before) × Grown 65 before result }
{
    let used = used_at(t, TAPS_USED, TAPS);
    let mut all = with_fixed(before, TAP_FIXED * used);
    // By the place and not by an index, with which the compiler's loop takes a sixth longer.
    let end = TAPS_AT + TAP_WIDTH * used;
    for at in (TAPS_AT..end).step_by(TAP_WIDTH) {
        let one = tap_seen(t, at, n);
        all = add(all, one);
    }
    all
}

fn see_names(t: &FlatTable, n: usize, before: Survey) -> Survey
    requires { (n ≤ 65535) × Bounded 500 before }
    ensures { (result ≡ names_seen n t.now before) × Grown 65 before result }
{
    let used = used_at(t, NAMES_USED, NAMES);
    let all = with_fixed(before, NAME_FIXED * used);
    see_views(t, NAME_VIEWS_AT, VIEW_WIDTH, 2 * used, n, all)
}

fn see_extras(t: &FlatTable, n: usize, before: Survey) -> Survey
    requires { (n ≤ 65535) × Bounded 500 before }
    ensures { (result ≡ extras_seen n t.now before) × Grown 65 before result }
{
    let used = used_at(t, EXTRAS_USED, EXTRAS);
    let all = with_fixed(before, EXTRA_FIXED * used);
    see_views(t, EXTRA_VIEWS_AT, EXTRA_WIDTH, used, n, all)
}

// The whole table over a source of n octets, of which no more than 65535 count.
pub fn survey_of(t: &FlatTable, n: usize) -> Survey
    ensures { Surveyed (min n 65535) t.now result }
{
    let most = n.min(MOST);
    let front = with_fixed(view_seen(t, TYPE_ID, most), FRONT_FIXED);
    let profiles = see_profiles(t, most, front);
    let taps = see_taps(t, most, profiles);
    let names = see_names(t, most, taps);
    see_extras(t, most, names)
}

// The marks of the used profiles' fields, and of the used taps'.
fn profile_marks(t: &FlatTable) -> usize
    ensures { holds result ≡ profiles_exact t.now (min (profiles_used t.now) profile_region.size) }
{
    let count = used_at(t, PROFILES_USED, PROFILES);
    let mut fields: usize = 0;
    for i in 0..count {
        fields |= profile_seen(t, PROFILES_AT + PROFILE_WIDTH * i, 0).fields;
    }
    fields
}

fn tap_marks(t: &FlatTable) -> usize
    ensures { holds result ≡ taps_exact t.now (min (taps_used t.now) tap_region.size) }
{
    let count = used_at(t, TAPS_USED, TAPS);
    let mut fields: usize = 0;
    for i in 0..count {
        fields |= tap_seen(t, TAPS_AT + TAP_WIDTH * i, 0).fields;
    }
    fields
}

// Whether every number of a used entry fits its field, and no sort is unknown. What asks no more than that asks it here: views are not looked at.
#[tactic(auto, using(crate::proofs::Marks::or_more), unfolding(crate::specs::Exact::exact))]
pub fn is_exact(t: &FlatTable) -> bool
    ensures { result ≡ exact t.now }
{
    let marks = profile_marks(t) | tap_marks(t);
    marks < BOUND
}
