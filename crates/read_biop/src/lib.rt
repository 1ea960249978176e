// Reads the data of a BIOP profile into a lent table: the ObjectLocation, the taps of the ConnBinder and the extras. A reader looks at
// d[pos..end]; `base` says where d stands in the caller's slice, and is added to views only, so that the figures of a refusal count from
// the start of d.
#![tactic(auto)]

ghost use Rattle.std.specs.Prelude.{◌≡◌, ◌+◌, ◌≤◌, length};
ghost use Rattle.reference.specs.Meaning.{biop};
ghost use Rattle.reference.specs.Meaning as Meaning;
ghost use Rattle.reference.specs.Layout.{layout_tap};
ghost use Rattle.reference.specs.Places.{place_location_leftover};
ghost use Rattle.reference.specs.Reader.{read_tap, read_location, read_object_location, read_biop};
ghost use Rattle.reference.specs.Heads.{read_biop_rest};
ghost use Rattle.reference.specs.Steps.{answer_of, seen, ending};
ghost use Rattle.reference.specs.Placed.{tap_at};
ghost use Rattle.read_parts.specs.Told.{StoresBody};
ghost use Rattle.read_biop.specs.Told.{LocationIn, location_told, head_of, read_from_binder};

use octets::{be16, be32, octet};
use read_parts::{Entries, read_component, read_entries_whole, read_extras, read_fixed};
use reference::{
    ObjectLocation, PLACE_BINDER_HEADER, PLACE_BINDER_LEFTOVER, PLACE_BINDER_TAG,
    PLACE_BIOP_COMPONENTS, PLACE_BIOP_EXTRA, PLACE_BIOP_FIXED, PLACE_BIOP_LEFTOVER,
    PLACE_BIOP_ORDER, PLACE_LOCATION_FIXED, PLACE_LOCATION_HEADER, PLACE_LOCATION_LEFTOVER,
    PLACE_LOCATION_TAG, PLACE_TAP_COUNT, PLACE_TAP_FIXED, PROFILES, Refusal, TAG_CONN_BINDER,
    TAG_OBJECT_LOCATION, Tap, cut, left_over, too_long, view_of, wrong_value,
};
use table::{Counts, FlatTable, put_biop};

// Where the data has the ObjectLocation, behind the two fixed octets: its header, its fields, of which the key's length is the last before the
// key, and the key.
const LOCATION_HEADER: usize = 2;

const LOCATION: usize = 7;

const KEY_LENGTH: usize = 15;

const KEY: usize = 16;

// What is known before the first tap: where the ConnBinder starts, which is where the ObjectLocation ends, and where it ends; how many taps
// and extras follow.
#[derive(Drop)]
struct Head {
    binder: usize,
    stop: usize,
    taps: usize,
    extras: usize,
}

fn read_tap(d: &[u8], base: usize, pos: usize, end: usize) -> Result<(Tap, usize), Refusal>
    requires { (pos ≤ end) × (end ≤ length d.now) × (base + length d.now ≤ 65535) }
    ensures { answer_of result ≡ seen (tap_at (base + pos)) (read_tap d.now pos end) }
{
    let data = pos + 7;
    if end < data {
        return Err(cut(PLACE_TAP_FIXED, pos, 7, end));
    }
    let len = octet(d, pos + 6) as usize;
    if end - data < len {
        return Err(too_long(data, len, end));
    }
    let tap = Tap {
        id: be16(d, pos),
        use_: be16(d, pos + 2),
        association: be16(d, pos + 4),
        selector: view_of(base, data, len),
    };
    Ok((tap, data + len))
}

// The taps of a ConnBinder.
struct TapEntries;

impl Entries for TapEntries {
    type Entry = Tap;

    ghost Meaning = { Meaning.Tap };

    ghost reader = { λ _. read_tap };

    ghost layout = { layout_tap };

    ghost placed = { tap_at };

    fn read(&self, d: &[u8], base: usize, pos: usize, end: usize) -> Result<(Tap, usize), Refusal> {
        read_tap(d, base, pos, end)
    }
}

// The fields of the ObjectLocation, which must end at `stop`.
fn read_location(d: &[u8], stop: usize) -> Result<usize, Refusal>
    requires { stop ≤ length d.now }
    ensures { location_told d.now result ≡ ending place_location_leftover read_location d.now 7 stop }
{
    if stop < KEY {
        return Err(cut(PLACE_LOCATION_FIXED, LOCATION, 9, stop));
    }
    let len = octet(d, KEY_LENGTH) as usize;
    if stop - KEY < len {
        return Err(too_long(KEY, len, stop));
    }
    let next = KEY + len;
    if next != stop {
        return Err(left_over(PLACE_LOCATION_LEFTOVER, next, stop));
    }
    Ok(next)
}

// The component that holds the ObjectLocation.
fn read_object_location(d: &[u8]) -> Result<usize, Refusal>
    ensures { location_told d.now result ≡ read_object_location d.now 2 (length d.now) }
{
    let stop = read_component::<1>(
        d,
        LOCATION_HEADER,
        TAG_OBJECT_LOCATION,
        PLACE_LOCATION_HEADER,
        PLACE_LOCATION_TAG,
    )?;
    read_location(d, stop)
}

// The entry of the ObjectLocation, which was read and ends at `next`.
fn location_in(d: &[u8], base: usize, next: usize) -> ObjectLocation
    requires { (16 ≤ next) × (next ≤ length d.now) × (base + length d.now ≤ 65535) }
    ensures { LocationIn d.now base next result }
{
    ObjectLocation {
        carousel: be32(d, LOCATION),
        module: be16(d, LOCATION + 4),
        version_major: octet(d, LOCATION + 6),
        version_minor: octet(d, LOCATION + 7),
        key: view_of(base, KEY, next - KEY),
    }
}

// BIOP data from its first tap on: the taps, then the extras, which end the data; then its own entry, profile i.
fn read_biop_rest(
    d: &[u8],
    at: usize,
    head: Head,
    table: &mut FlatTable,
    i: usize,
    used: Counts,
) -> Result<Counts, Refusal>
    requires { (16 ≤ head.binder) × (head.binder + 6 ≤ head.stop) × (head.stop ≤ length d.now) × (at + 8 + length d.now ≤ 65535) × (head.taps ≤ 255) × (head.extras ≤ 255) × (used.taps ≤ 65535) × (used.extras ≤ 65535) }
    ensures { StoresBody at table.old i used (seen (λ b. biop b) (read_biop_rest (head_of d.now head) d.now (head.binder + 6) (length d.now))) (length d.now) table.new result }
{
    let base = at + 8;
    let mid = read_entries_whole(
        &TapEntries,
        d,
        base,
        head.binder + 6,
        head.stop,
        head.taps,
        PLACE_BINDER_LEFTOVER,
        table,
        used.taps,
    )?;
    read_extras(
        d,
        base,
        mid,
        head.extras,
        PLACE_BIOP_EXTRA,
        PLACE_BIOP_LEFTOVER,
        table,
        used.extras,
    )?;
    if i < PROFILES {
        let location = location_in(d, base, head.binder);
        put_biop(location, head.taps as u32, head.extras as u32, table, i);
    }
    Ok(Counts {
        taps: used.taps + head.taps,
        extras: used.extras + head.extras,
        ..used
    })
}

// BIOP data from its ConnBinder on, which stands at `binder`; `extras` components follow it.
fn read_binder(
    d: &[u8],
    at: usize,
    binder: usize,
    extras: usize,
    table: &mut FlatTable,
    i: usize,
    used: Counts,
) -> Result<Counts, Refusal>
    requires { (16 ≤ binder) × (binder ≤ length d.now) × (at + 8 + length d.now ≤ 65535) × (extras ≤ 255) × (used.taps ≤ 65535) × (used.extras ≤ 65535) }
    ensures { StoresBody at table.old i used (seen (λ b. biop b) (read_from_binder extras d.now binder (length d.now))) (length d.now) table.new result }
{
    let stop = read_component::<1>(
        d,
        binder,
        TAG_CONN_BINDER,
        PLACE_BINDER_HEADER,
        PLACE_BINDER_TAG,
    )?;
    let data = binder + 5;
    if stop < data + 1 {
        return Err(cut(PLACE_TAP_COUNT, data, 1, stop));
    }
    let head = Head {
        binder,
        stop,
        taps: octet(d, data) as usize,
        extras,
    };
    read_biop_rest(d, at, head, table, i, used)
}

// The data d of a BIOP profile whose header stands at `at` becomes profile i of the table; `used` counts the entries before it.
pub fn read_biop(
    d: &[u8],
    at: usize,
    table: &mut FlatTable,
    i: usize,
    used: Counts,
) -> Result<Counts, Refusal>
    requires { (at + 8 + length d.now ≤ 65535) × (used.taps ≤ 65535) × (used.names ≤ 65535) × (used.extras ≤ 65535) }
    ensures { StoresBody at table.old i used (seen (λ b. biop b) (read_biop d.now 0 (length d.now))) (length d.now) table.new result }
{
    let count = read_fixed(
        d,
        2,
        PLACE_BIOP_FIXED,
        PLACE_BIOP_ORDER,
        PLACE_BIOP_COMPONENTS,
    )?;
    let next = read_object_location(d)?;
    read_binder(d, at, next, count - 2, table, i, used)
}
