// Tables as 490 numbers in an array that the caller lends: entries are stored into it. Reading and writing work on such a table, since a
// struct of the tables' size that goes through functions by value is copied at each. specs/Flat says which number is what.
#![tactic(auto)]

ghost use Rattle.std.specs.Prelude.{◌≡◌, ◌+◌, ◌≤◌, ◌<◌, length, get_or, replicate};
ghost use Rattle.octets.specs.Octets.{splice};
ghost use Rattle.reference.specs.declared.TaggedProfile.TheVariants as Sort;
ghost use Rattle.table.specs.Region.{entry};
ghost use Rattle.table.specs.Flat.{tap_numbers, name_numbers, extra_numbers, body_numbers, front_numbers, profile_region, tap_region, name_region, extra_region, table_size};

use reference::{
    EXTRAS, LiteComponent, NAMES, NameComponent, NsapAddress, ObjectLocation, PROFILES, TAPS, Tap,
    View,
};

// What stands where: at the front the type id's view and the used counts, then the entries of each sort, `WIDTH` numbers each. Firmware reads and
// writes these numbers in C (include/ior.h), so sorts and places are numbers here and not an enum and a struct.
pub const TYPE_ID: usize = 0;

pub const TYPE_ID_LEN: usize = 1;

pub const PROFILES_USED: usize = 2;

pub const TAPS_USED: usize = 3;

pub const NAMES_USED: usize = 4;

pub const EXTRAS_USED: usize = 5;

pub const PROFILES_AT: usize = 6;

pub const PROFILE_WIDTH: usize = 10;

pub const TAPS_AT: usize = PROFILES_AT + PROFILE_WIDTH * PROFILES;

pub const TAP_WIDTH: usize = 5;

pub const NAMES_AT: usize = TAPS_AT + TAP_WIDTH * TAPS;

pub const NAME_WIDTH: usize = 4;

pub const EXTRAS_AT: usize = NAMES_AT + NAME_WIDTH * NAMES;

pub const EXTRA_WIDTH: usize = 3;

// How many numbers a table has: 490.
pub const SIZE: usize = EXTRAS_AT + EXTRA_WIDTH * EXTRAS;

// A table as the caller lends it.
pub type FlatTable = [u32; SIZE];

// The first number of a profile's entry: its sort.
pub const OPAQUE: u32 = 0;

pub const BIOP: u32 = 1;

pub const LITE_OPTIONS: u32 = 2;

// The other numbers of a profile's entry, counted from the first; a view is two numbers. Of BIOP:
pub const CAROUSEL: usize = 1;

pub const MODULE: usize = 2;

pub const VERSION_MAJOR: usize = 3;

pub const VERSION_MINOR: usize = 4;

pub const KEY_AT: usize = 5;

pub const KEY_LEN: usize = 6;

pub const BIOP_TAPS: usize = 7;

pub const BIOP_EXTRAS: usize = 8;

// Of LiteOptions, behind its carousel:
pub const SPECIFIER: usize = 2;

pub const TRANSPORT_STREAM: usize = 3;

pub const ORIGINAL_NETWORK: usize = 4;

pub const SERVICE: usize = 5;

pub const LITE_NAMES: usize = 6;

pub const CONTEXT_AT: usize = 7;

pub const CONTEXT_LEN: usize = 8;

pub const LITE_EXTRAS: usize = 9;

// Of an opaque profile:
pub const OPAQUE_TAG: usize = 1;

pub const OPAQUE_AT: usize = 2;

pub const OPAQUE_LEN: usize = 3;

// Of a tap, behind its id; of a name, behind its id's view; of an extra, behind its tag.
pub const TAP_USE: usize = 1;

pub const TAP_ASSOCIATION: usize = 2;

pub const SELECTOR_AT: usize = 3;

pub const SELECTOR_LEN: usize = 4;

pub const KIND_AT: usize = 2;

pub const KIND_LEN: usize = 3;

pub const DATA_AT: usize = 1;

pub const DATA_LEN: usize = 2;

// How many entries of each table are used so far; an entry past a table's end is counted and not stored.
#[derive(Clone, Copy, Default)]
pub struct Counts {
    pub taps: usize,
    pub names: usize,
    pub extras: usize,
}

// Number k, where it is a count or a length.
pub fn number_at(t: &[u32], k: usize) -> usize
    requires { k < length t.now }
    ensures { (result ≡ get_or t.now k 0) × (result < 0x100000000) }
{
    t[k] as usize
}

// The numbers one after the other from `at` on.
pub fn put_all(numbers: &[u32], out: &mut [u32], at: usize)
    requires { at + length numbers.now ≤ length out.old }
    ensures { out.new ≡ splice out.old at numbers.now }
{
    out[at..at + numbers.len()].copy_from_slice(numbers);
}

// The six numbers at the front: the type id's view and the used counts.
pub fn put_front(
    type_id: View,
    profiles: u32,
    taps: u32,
    names: u32,
    extras: u32,
    out: &mut FlatTable,
)
    ensures { out.new ≡ splice out.old 0 (front_numbers type_id profiles taps names extras) }
{
    let numbers = [type_id.at, type_id.len, profiles, taps, names, extras];
    put_all(&numbers, out, 0);
}

pub fn put_tap(tap: Tap, out: &mut FlatTable, i: usize)
    requires { i < tap_region.size }
    ensures { out.new ≡ splice out.old (entry tap_region i) (tap_numbers tap) }
{
    let numbers = [
        tap.id as u32,
        tap.use_ as u32,
        tap.association as u32,
        tap.selector.at,
        tap.selector.len,
    ];
    put_all(&numbers, out, TAPS_AT + TAP_WIDTH * i);
}

pub fn put_name(name: NameComponent, out: &mut FlatTable, i: usize)
    requires { i < name_region.size }
    ensures { out.new ≡ splice out.old (entry name_region i) (name_numbers name) }
{
    let numbers = [name.id.at, name.id.len, name.kind.at, name.kind.len];
    put_all(&numbers, out, NAMES_AT + NAME_WIDTH * i);
}

pub fn put_extra(extra: LiteComponent, out: &mut FlatTable, i: usize)
    requires { i < extra_region.size }
    ensures { out.new ≡ splice out.old (entry extra_region i) (extra_numbers extra) }
{
    let numbers = [extra.tag, extra.data.at, extra.data.len];
    put_all(&numbers, out, EXTRAS_AT + EXTRA_WIDTH * i);
}

pub fn put_opaque(tag: u32, data: View, out: &mut FlatTable, i: usize)
    requires { i < profile_region.size }
    ensures { out.new ≡ splice out.old (entry profile_region i) (body_numbers (Sort.Opaque tag «data»)) }
{
    let numbers = [OPAQUE, tag, data.at, data.len, 0, 0, 0, 0, 0, 0];
    put_all(&numbers, out, PROFILES_AT + PROFILE_WIDTH * i);
}

pub fn put_biop(location: ObjectLocation, taps: u32, extras: u32, out: &mut FlatTable, i: usize)
    requires { i < profile_region.size }
    ensures { out.new ≡ splice out.old (entry profile_region i) (body_numbers (Sort.Biop location taps extras)) }
{
    let numbers = [
        BIOP,
        location.carousel,
        location.module as u32,
        location.version_major as u32,
        location.version_minor as u32,
        location.key.at,
        location.key.len,
        taps,
        extras,
        0,
    ];
    put_all(&numbers, out, PROFILES_AT + PROFILE_WIDTH * i);
}

pub fn put_lite(
    address: NsapAddress,
    names: u32,
    context: View,
    extras: u32,
    out: &mut FlatTable,
    i: usize,
)
    requires { i < profile_region.size }
    ensures { out.new ≡ splice out.old (entry profile_region i) (body_numbers (Sort.LiteOptions address names context extras)) }
{
    let numbers = [
        LITE_OPTIONS,
        address.carousel,
        u32::from_be_bytes([
            0,
            address.specifier0,
            address.specifier1,
            address.specifier2,
        ]),
        address.transport_stream as u32,
        address.original_network as u32,
        address.service as u32,
        names,
        context.at,
        context.len,
        extras,
    ];
    put_all(&numbers, out, PROFILES_AT + PROFILE_WIDTH * i);
}

// All numbers zero: the empty tables.
pub fn clear(out: &mut FlatTable)
    ensures { out.new ≡ replicate table_size 0 }
{
    out.fill(0);
}
