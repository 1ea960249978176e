// An object reference as tables over the caller's slice (document 01, "Tables"): the types that callers hold, the empty tables, the wire's
// constants, and one constructor for each sort of refusal. What a reader must believe of them stands in specs/.
#![tactic(auto)]

ghost use Rattle.std.specs.Prelude.{◌≡◌, ◌+◌, ◌≤◌};
ghost use Rattle.reference.specs.Layout.{gap_length, allowed};
ghost use Rattle.reference.specs.Refusals.{refusal, cut_at, left_at, long_at, wrong_at, shifted};
ghost use Rattle.reference.specs.Tabled.{no_tables};

// Which type ids a reference may have (document 02, No. 11). Rule 1: of a length that is a multiple of 4. Rule 2: of any length, with a gap of octets FF
// behind it up to the next multiple of 4.
#[derive(Clone, Copy, Debug, PartialEq, Eq)]
pub enum TypeIdRule {
    Multiple,
    Gap,
}

// How an address is written: with the constants of its kind.
#[derive(Clone, Copy, Debug, PartialEq, Eq)]
pub enum AddressWay {
    Constants,
}

// A run of octets in the caller's slice.
#[derive(Clone, Copy, Debug, PartialEq, Eq)]
pub struct View {
    pub at: u32,
    pub len: u32,
}

#[derive(Clone, Copy, Debug, PartialEq, Eq)]
pub struct Tap {
    pub id: u16,
    pub use_: u16,
    pub association: u16,
    pub selector: View,
}

#[derive(Clone, Copy, Debug, PartialEq, Eq)]
pub struct NameComponent {
    pub id: View,
    pub kind: View,
}

#[derive(Clone, Copy, Debug, PartialEq, Eq)]
pub struct LiteComponent {
    pub tag: u32,
    pub data: View,
}

#[derive(Clone, Copy, Debug, PartialEq, Eq)]
pub struct ObjectLocation {
    pub carousel: u32,
    pub module: u16,
    pub version_major: u8,
    pub version_minor: u8,
    pub key: View,
}

// What varies in an address of twenty octets; the constants belong to the kind itself.
#[derive(Clone, Copy, Debug, PartialEq, Eq)]
pub struct NsapAddress {
    pub carousel: u32,
    pub specifier0: u8,
    pub specifier1: u8,
    pub specifier2: u8,
    pub transport_stream: u16,
    pub original_network: u16,
    pub service: u16,
}

impl NsapAddress {
    pub const AFI: u8 = 0x00;

    pub const NSAP_TYPE: u8 = 0x00;

    pub const SPECIFIER_TYPE: u8 = 0x01;

    pub const RESERVED: u32 = 0xFFFFFFFF;

    // DVB's own organisation number: the specifier data of a DVB address. A reading takes any, and a writing puts what is held.
    pub const DVB_ORGANISATION: u32 = 0x00015A;
}

// A profile's taps, names and extras are the next so many of the tables. Opaque comes first: an unused entry is an opaque one.
#[derive(Clone, Copy, Debug, PartialEq, Eq)]
pub enum TaggedProfile {
    Opaque {
        tag: u32,
        data: View,
    },
    Biop {
        location: ObjectLocation,
        taps: u32,
        extras: u32,
    },
    LiteOptions {
        address: NsapAddress,
        names: u32,
        context: View,
        extras: u32,
    },
}

#[derive(Clone, Copy, Debug, PartialEq, Eq)]
pub struct Profile {
    pub body: TaggedProfile,
}

#[derive(Clone, Copy, Debug, PartialEq, Eq)]
pub struct Tables {
    pub type_id: View,
    pub profiles_used: u32,
    pub taps_used: u32,
    pub names_used: u32,
    pub extras_used: u32,
    pub profiles: [Profile; 8],
    pub taps: [Tap; 36],
    pub names: [NameComponent; 32],
    pub extras: [LiteComponent; 32],
}

// Why something is refused: document 01's number, place and two figures, and the offset in the caller's slice where a reading broke
// (0 for 6, 7 and in writing). Number and place are no enums: theorems speak of them as numbers (`CutShort`, `Points`), and C hands them out.
#[derive(Clone, Copy, Debug, PartialEq, Eq)]
pub struct Refusal {
    pub number: u8,
    pub place: u8,
    pub first: usize,
    pub second: usize,
    pub offset: usize,
}

// Octets consumed or written, or the refusal.
pub type Answer = Result<usize, Refusal>;

#[derive(Clone, Copy, Debug, PartialEq, Eq)]
pub struct Reading {
    pub answer: Answer,
    pub tables: Tables,
}

// What a check finds.
pub type Check = Result<(), Refusal>;

// The kind of an object; an unknown one with its four octets as a number.
#[derive(Clone, Copy, Debug, PartialEq, Eq)]
pub enum ObjectKind {
    Directory,
    File,
    Stream,
    ServiceGateway,
    StreamEvent,
    Unknown(u32),
}

// A tap's transaction id and timeout, which it has together or not at all.
#[derive(Clone, Copy, Debug, PartialEq, Eq)]
pub struct TapNumbers {
    pub transaction: u32,
    pub timeout: u32,
}

pub const PROFILES: usize = 8;

pub const TAPS: usize = 36;

pub const NAMES: usize = 32;

pub const EXTRAS: usize = 32;

// The most octets that a source or an image may have.
pub const MOST: usize = 65535;

pub const TAG_BIOP: u32 = 0x49534F06;

pub const TAG_LITE_OPTIONS: u32 = 0x49534F05;

pub const TAG_OBJECT_LOCATION: u32 = 0x49534F50;

pub const TAG_CONN_BINDER: u32 = 0x49534F40;

pub const TAG_SERVICE_LOCATION: u32 = 0x49534F46;

// Document 01's places, in its order (specs/Places).
pub const PLACE_REFERENCE_FIXED: u8 = 1;

pub const PLACE_PROFILE_COUNT: u8 = 2;

pub const PLACE_PROFILE_HEADER: u8 = 3;

pub const PLACE_REFERENCE_LEFTOVER: u8 = 4;

pub const PLACE_BIOP_FIXED: u8 = 5;

pub const PLACE_LOCATION_HEADER: u8 = 6;

pub const PLACE_LOCATION_FIXED: u8 = 7;

pub const PLACE_LOCATION_LEFTOVER: u8 = 8;

pub const PLACE_BINDER_HEADER: u8 = 9;

pub const PLACE_TAP_COUNT: u8 = 10;

pub const PLACE_TAP_FIXED: u8 = 11;

pub const PLACE_BINDER_LEFTOVER: u8 = 12;

pub const PLACE_BIOP_EXTRA: u8 = 13;

pub const PLACE_BIOP_LEFTOVER: u8 = 14;

pub const PLACE_LITE_FIXED: u8 = 15;

pub const PLACE_SERVICE_HEADER: u8 = 16;

pub const PLACE_ADDRESS_LENGTH: u8 = 17;

pub const PLACE_ADDRESS: u8 = 18;

pub const PLACE_NAME_COUNT: u8 = 19;

pub const PLACE_ID_LENGTH: u8 = 20;

pub const PLACE_KIND_LENGTH: u8 = 21;

pub const PLACE_CONTEXT_LENGTH: u8 = 22;

pub const PLACE_SERVICE_LEFTOVER: u8 = 23;

pub const PLACE_LITE_EXTRA: u8 = 24;

pub const PLACE_LITE_LEFTOVER: u8 = 25;

pub const PLACE_SHORT_ID_LENGTH: u8 = 26;

pub const PLACE_SHORT_KIND_LENGTH: u8 = 27;

pub const PLACE_BIOP_ORDER: u8 = 28;

pub const PLACE_LOCATION_TAG: u8 = 29;

pub const PLACE_BINDER_TAG: u8 = 30;

pub const PLACE_LITE_ORDER: u8 = 31;

pub const PLACE_SERVICE_TAG: u8 = 32;

pub const PLACE_TYPE_ID_LENGTH: u8 = 33;

pub const PLACE_BIOP_COMPONENTS: u8 = 34;

pub const PLACE_LITE_COMPONENTS: u8 = 35;

pub const PLACE_ADDRESS_SIZE: u8 = 36;

pub const PLACE_PROFILES: u8 = 40;

pub const PLACE_TAPS: u8 = 41;

pub const PLACE_NAMES: u8 = 42;

pub const PLACE_EXTRAS: u8 = 43;

// The gap behind a type id: its octets, and one that is cut off.
pub const PLACE_GAP_VALUE: u8 = 46;

pub const PLACE_GAP: u8 = 47;

// Tables that hold nothing: zero throughout.
pub fn no_tables() -> Tables
    ensures { result ≡ no_tables }
{
    let v = View { at: 0, len: 0 };
    let body = TaggedProfile::Opaque { tag: 0, data: v };
    let p = Profile { body };
    let t = Tap {
        id: 0,
        use_: 0,
        association: 0,
        selector: v,
    };
    let n = NameComponent { id: v, kind: v };
    let x = LiteComponent { tag: 0, data: v };
    let profiles = [p; 8];
    let taps = [t; 36];
    let names = [n; 32];
    let extras = [x; 32];
    Tables {
        type_id: v,
        profiles_used: 0,
        taps_used: 0,
        names_used: 0,
        extras_used: 0,
        profiles,
        taps,
        names,
        extras,
    }
}

// 1: the k octets of a field at `at` are cut off.
pub fn cut(place: u8, at: usize, k: usize, end: usize) -> Refusal
    requires { at + k ≤ 18446744073709551615 }
    ensures { result ≡ cut_at place at k end }
{
    Refusal {
        number: 1,
        place,
        first: at + k,
        second: end,
        offset: at,
    }
}

// 1: octets are left over, from `rest` on.
pub fn left_over(place: u8, rest: usize, end: usize) -> Refusal
    requires { rest ≤ end }
    ensures { result ≡ left_at place rest end }
{
    Refusal {
        number: 1,
        place,
        first: end - rest,
        second: 0,
        offset: rest,
    }
}

// 2: a length passes what is there from `start` on; in writing, what its field can say (from 0, 255).
pub fn too_long(start: usize, declared: usize, end: usize) -> Refusal
    requires { start ≤ end }
    ensures { result ≡ long_at start declared end }
{
    Refusal {
        number: 2,
        place: 0,
        first: declared,
        second: end - start,
        offset: start,
    }
}

// 3 or 4: the field at `at` has a wrong value; the place says which one it is.
pub fn wrong_value(number: u8, place: u8, at: usize) -> Refusal
    ensures { result ≡ wrong_at number place at }
{
    Refusal {
        number,
        place,
        first: 0,
        second: 0,
        offset: at,
    }
}

// A refusal that was met in data of its own, which stands at `base`.
pub fn shift(base: usize, why: Refusal) -> Refusal
    requires { base + why.offset ≤ 18446744073709551615 }
    ensures { result ≡ shifted base why }
{
    Refusal {
        offset: base + why.offset,
        ..why
    }
}

// 4 or 8 of tables: a length or a count is wrong, and the place says which; or 255, with no place: a number of a lent table would be cut.
pub fn wrong(number: u8, place: u8) -> Refusal
    ensures { result ≡ refusal number place 0 0 }
{
    Refusal {
        number,
        place,
        first: 0,
        second: 0,
        offset: 0,
    }
}

// 5: the output is too small.
pub fn no_room(need: usize, have: usize) -> Refusal
    ensures { result ≡ refusal 5 0 need have }
{
    Refusal {
        number: 5,
        place: 0,
        first: need,
        second: have,
        offset: 0,
    }
}

// 6 or 10: an input or an image is over 65,535 octets.
pub fn too_large(number: u8, length: usize) -> Refusal
    ensures { result ≡ refusal number 0 length 65535 }
{
    Refusal {
        number,
        place: 0,
        first: length,
        second: MOST,
        offset: 0,
    }
}

// 7: a table is too small.
pub fn too_many(place: u8, need: usize, size: usize) -> Refusal
    ensures { result ≡ refusal 7 place need size }
{
    Refusal {
        number: 7,
        place,
        first: need,
        second: size,
        offset: 0,
    }
}

// 9: a view passes the source's end.
pub fn outside(place: u8, v: View) -> Refusal
    ensures { result ≡ refusal 9 place v.at v.len }
{
    Refusal {
        number: 9,
        place,
        first: v.at as usize,
        second: v.len as usize,
        offset: 0,
    }
}

// The view of a field that stands at `at` in data which itself stands at `base` in the caller's slice.
pub fn view_of(base: usize, at: usize, len: usize) -> View
    requires { base + at + len ≤ 65535 }
    ensures { result ≡ record { at = base + at; len = len } }
{
    View {
        at: (base + at) as u32,
        len: len as u32,
    }
}

// How many octets FF the rule puts behind a type id of n octets.
pub fn gap_length(rule: TypeIdRule, n: usize) -> usize
    ensures { (result ≡ gap_length rule n) × (result ≤ 3) }
{
    let past = n % 4;
    if past == 0 {
        return 0;
    }
    match rule {
        TypeIdRule::Multiple => 0,
        TypeIdRule::Gap => 4 - past,
    }
}

// The rule allows a type id of n octets.
pub fn allows(rule: TypeIdRule, n: usize) -> bool
    ensures { result ≡ allowed rule n }
{
    if n % 4 == 0 {
        return true;
    }
    match rule {
        TypeIdRule::Multiple => false,
        TypeIdRule::Gap => true,
    }
}
