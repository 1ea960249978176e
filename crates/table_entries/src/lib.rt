// Typed entries out of a lent table, each as the definition of the flat table tells it; and what the sorts of entries share.
#![tactic(auto, using(crate::proofs::Sorts::by_sort))]

ghost use Rattle.std.specs.Prelude.{◌≡◌, ◌+◌, ◌≤◌, ◌<◌, ℕ, List, length, get_or};
ghost use Rattle.std.proofs.Common.{rules};
ghost use Rattle.octets.specs.Octets.{splice};
ghost use Rattle.reference.specs.Used.{taps_in, names_in, extras_in, body_view};
ghost use Rattle.table.specs.Flat.{view_from, location_from, address_from, biop_from, lite_from, opaque_from, body_of_table, profile_of_table, tap_of_table, name_of_table, extra_of_table, body_numbers, profile_region, tap_region, name_region, extra_region, table_size, view_at};
ghost use Rattle.table.specs.Region.{Region, entry, past};
ghost use Rattle.table_entries.specs.Entries.{whole_profile_region};

use reference::{
    EXTRAS, LiteComponent, NAMES, NameComponent, NsapAddress, ObjectLocation, PROFILES, Profile,
    TAPS, TaggedProfile, Tap, View,
};
use table::{
    BIOP, BIOP_EXTRAS, BIOP_TAPS, CAROUSEL, CONTEXT_AT, DATA_AT, EXTRA_WIDTH, EXTRAS_AT, FlatTable,
    KEY_AT, KIND_AT, LITE_EXTRAS, LITE_NAMES, LITE_OPTIONS, MODULE, NAME_WIDTH, NAMES_AT,
    OPAQUE_AT, OPAQUE_TAG, ORIGINAL_NETWORK, PROFILE_WIDTH, PROFILES_AT, SELECTOR_AT, SERVICE,
    SPECIFIER, TAP_ASSOCIATION, TAP_USE, TAP_WIDTH, TAPS_AT, TRANSPORT_STREAM, VERSION_MAJOR,
    VERSION_MINOR, number_at, put_biop, put_extra, put_lite, put_name, put_opaque, put_tap,
};

pub fn view_at(s: &[u32], at: usize) -> View
    requires { at + 2 ≤ length s.now }
    ensures { result ≡ view_from s.now at }
{
    View {
        at: s[at],
        len: s[at + 1],
    }
}

pub fn tap_at(s: &FlatTable, i: usize) -> Tap
    requires { i < tap_region.size }
    ensures { result ≡ tap_of_table s.now i }
{
    let at = TAPS_AT + TAP_WIDTH * i;
    Tap {
        id: (s[at] % 65536) as u16,
        use_: (s[at + TAP_USE] % 65536) as u16,
        association: (s[at + TAP_ASSOCIATION] % 65536) as u16,
        selector: view_at(s, at + SELECTOR_AT),
    }
}

pub fn name_at(s: &FlatTable, i: usize) -> NameComponent
    requires { i < name_region.size }
    ensures { result ≡ name_of_table s.now i }
{
    let at = NAMES_AT + NAME_WIDTH * i;
    NameComponent {
        id: view_at(s, at),
        kind: view_at(s, at + KIND_AT),
    }
}

pub fn extra_at(s: &FlatTable, i: usize) -> LiteComponent
    requires { i < extra_region.size }
    ensures { result ≡ extra_of_table s.now i }
{
    let at = EXTRAS_AT + EXTRA_WIDTH * i;
    LiteComponent {
        tag: s[at],
        data: view_at(s, at + DATA_AT),
    }
}

// A profile's entry number by number: reading and writing look at no more of it than they need.
pub fn sort_at(s: &FlatTable, i: usize) -> u32
    requires { i < profile_region.size }
    ensures { result ≡ get_or s.now (entry profile_region i) 0 }
{
    s[PROFILES_AT + PROFILE_WIDTH * i]
}

// The tag of an opaque profile.
pub fn tag_at(s: &FlatTable, i: usize) -> u32
    requires { i < profile_region.size }
    ensures { result ≡ get_or s.now (entry profile_region i + 1) 0 }
{
    s[PROFILES_AT + PROFILE_WIDTH * i + OPAQUE_TAG]
}

// Its number j as a count, and its view at number j.
fn count_at(s: &FlatTable, i: usize, j: usize) -> usize
    requires { (i < profile_region.size) × (j < profile_region.width) }
    ensures { (result ≡ get_or s.now (entry profile_region i + j) 0) × (result < 0x100000000) }
{
    number_at(s, PROFILES_AT + PROFILE_WIDTH * i + j)
}

fn view_in(s: &FlatTable, i: usize, j: usize) -> View
    requires { (i < profile_region.size) × (j + 1 < profile_region.width) }
    ensures { result ≡ view_at s.now (entry profile_region i + j) (entry profile_region i + (j + 1)) }
{
    view_at(s, PROFILES_AT + PROFILE_WIDTH * i + j)
}

// How many taps, names and extras the profile has.
pub fn taps_at(s: &FlatTable, i: usize) -> usize
    requires { i < profile_region.size }
    ensures { (result ≡ taps_in (body_of_table s.now i)) × (result < 0x100000000) }
{
    match sort_at(s, i) {
        BIOP => count_at(s, i, BIOP_TAPS),
        _ => 0,
    }
}

pub fn names_at(s: &FlatTable, i: usize) -> usize
    requires { i < profile_region.size }
    ensures { (result ≡ names_in (body_of_table s.now i)) × (result < 0x100000000) }
{
    match sort_at(s, i) {
        LITE_OPTIONS => count_at(s, i, LITE_NAMES),
        _ => 0,
    }
}

pub fn extras_at(s: &FlatTable, i: usize) -> usize
    requires { i < profile_region.size }
    ensures { (result ≡ extras_in (body_of_table s.now i)) × (result < 0x100000000) }
{
    match sort_at(s, i) {
        BIOP => count_at(s, i, BIOP_EXTRAS),
        LITE_OPTIONS => count_at(s, i, LITE_EXTRAS),
        _ => 0,
    }
}

// The key, the context or the data.
pub fn profile_view(s: &FlatTable, i: usize) -> View
    requires { i < profile_region.size }
    ensures { result ≡ body_view (body_of_table s.now i) }
{
    match sort_at(s, i) {
        BIOP => view_in(s, i, KEY_AT),
        LITE_OPTIONS => view_in(s, i, CONTEXT_AT),
        _ => view_in(s, i, OPAQUE_AT),
    }
}

// Of a BIOP profile.
pub fn location_at(s: &FlatTable, i: usize) -> ObjectLocation
    requires { i < profile_region.size }
    ensures { result ≡ location_from s.now (entry profile_region i) }
{
    let at = PROFILES_AT + PROFILE_WIDTH * i;
    ObjectLocation {
        carousel: s[at + CAROUSEL],
        module: (s[at + MODULE] % 65536) as u16,
        version_major: (s[at + VERSION_MAJOR] % 256) as u8,
        version_minor: (s[at + VERSION_MINOR] % 256) as u8,
        key: view_at(s, at + KEY_AT),
    }
}

// Of a LiteOptions profile.
pub fn address_at(s: &FlatTable, i: usize) -> NsapAddress
    requires { i < profile_region.size }
    ensures { result ≡ address_from s.now (entry profile_region i) }
{
    let at = PROFILES_AT + PROFILE_WIDTH * i;
    let [_, specifier0, specifier1, specifier2] = s[at + SPECIFIER].to_be_bytes();
    NsapAddress {
        carousel: s[at + CAROUSEL],
        specifier0,
        specifier1,
        specifier2,
        transport_stream: (s[at + TRANSPORT_STREAM] % 65536) as u16,
        original_network: (s[at + ORIGINAL_NETWORK] % 65536) as u16,
        service: (s[at + SERVICE] % 65536) as u16,
    }
}

// The whole profile.
fn biop_at(s: &FlatTable, i: usize) -> TaggedProfile
    requires { i < profile_region.size }
    ensures { result ≡ biop_from s.now (entry profile_region i) }
{
    let at = PROFILES_AT + PROFILE_WIDTH * i;
    TaggedProfile::Biop {
        location: location_at(s, i),
        taps: s[at + BIOP_TAPS],
        extras: s[at + BIOP_EXTRAS],
    }
}

fn lite_at(s: &FlatTable, i: usize) -> TaggedProfile
    requires { i < profile_region.size }
    ensures { result ≡ lite_from s.now (entry profile_region i) }
{
    let at = PROFILES_AT + PROFILE_WIDTH * i;
    TaggedProfile::LiteOptions {
        address: address_at(s, i),
        names: s[at + LITE_NAMES],
        context: view_at(s, at + CONTEXT_AT),
        extras: s[at + LITE_EXTRAS],
    }
}

fn opaque_at(s: &FlatTable, i: usize) -> TaggedProfile
    requires { i < profile_region.size }
    ensures { result ≡ opaque_from s.now (entry profile_region i) }
{
    let at = PROFILES_AT + PROFILE_WIDTH * i;
    TaggedProfile::Opaque {
        tag: s[at + OPAQUE_TAG],
        data: view_at(s, at + OPAQUE_AT),
    }
}

pub fn profile_at(s: &FlatTable, i: usize) -> Profile
    requires { i < profile_region.size }
    ensures { result ≡ profile_of_table s.now i }
{
    let body = match sort_at(s, i) {
        BIOP => biop_at(s, i),
        LITE_OPTIONS => lite_at(s, i),
        _ => opaque_at(s, i),
    };
    Profile { body }
}

fn put_profile(p: Profile, out: &mut FlatTable, i: usize)
    requires { i < profile_region.size }
    ensures { out.new ≡ splice out.old (entry profile_region i) (body_numbers p.body) }
{
    match p.body {
        TaggedProfile::Opaque { tag, data } => put_opaque(tag, data, out, i),
        TaggedProfile::Biop {
            location,
            taps,
            extras,
        } => put_biop(location, taps, extras, out, i),
        TaggedProfile::LiteOptions {
            address,
            names,
            context,
            extras,
        } => put_lite(address, names, context, extras, out, i),
    }
}

// An entry of the tables: where its sort stands in a lent table, what the table tells of entry i, and how it is stored there.
pub trait Entry: Copy {
    ghost region: { Region Self };

    ghost told: { List ℕ → ℕ → Self };

    // How many the table has.
    ghost MOST: { ℕ };

    const MOST: usize;

    fn at(s: &FlatTable, i: usize) -> Self
        requires { i < region.size }
        ensures { result ≡ told s.now i };

    fn put(self, out: &mut FlatTable, i: usize)
        requires { i < region.size }
        ensures { out.new ≡ splice out.old (entry region i) (region.numbers self) };

    ghost most: { MOST ≡ region.size };

    // The last one ends within the table, and so there are no more than the table has numbers.
    ghost within: { past region ≤ table_size };

    ghost few: { region.size ≤ table_size };
}

impl Entry for Profile {
    ghost region = { whole_profile_region };

    ghost told = { profile_of_table };

    ghost MOST = { profile_region.size };

    const MOST: usize = PROFILES;

    ghost most = { Prim.search rules };

    ghost within = { Prim.search rules };

    ghost few = { Prim.search rules };

    fn at(s: &FlatTable, i: usize) -> Profile {
        profile_at(s, i)
    }

    fn put(self, out: &mut FlatTable, i: usize) {
        put_profile(self, out, i);
    }
}

impl Entry for Tap {
    ghost region = { tap_region };

    ghost told = { tap_of_table };

    ghost MOST = { tap_region.size };

    const MOST: usize = TAPS;

    ghost most = { Prim.search rules };

    ghost within = { Prim.search rules };

    ghost few = { Prim.search rules };

    fn at(s: &FlatTable, i: usize) -> Tap {
        tap_at(s, i)
    }

    fn put(self, out: &mut FlatTable, i: usize) {
        put_tap(self, out, i);
    }
}

impl Entry for NameComponent {
    ghost region = { name_region };

    ghost told = { name_of_table };

    ghost MOST = { name_region.size };

    const MOST: usize = NAMES;

    ghost most = { Prim.search rules };

    ghost within = { Prim.search rules };

    ghost few = { Prim.search rules };

    fn at(s: &FlatTable, i: usize) -> NameComponent {
        name_at(s, i)
    }

    fn put(self, out: &mut FlatTable, i: usize) {
        put_name(self, out, i);
    }
}

impl Entry for LiteComponent {
    ghost region = { extra_region };

    ghost told = { extra_of_table };

    ghost MOST = { extra_region.size };

    const MOST: usize = EXTRAS;

    ghost most = { Prim.search rules };

    ghost within = { Prim.search rules };

    ghost few = { Prim.search rules };

    fn at(s: &FlatTable, i: usize) -> LiteComponent {
        extra_at(s, i)
    }

    fn put(self, out: &mut FlatTable, i: usize) {
        put_extra(self, out, i);
    }
}
