// The profiles of a reference's image, from a lent table. A writer stores at `at` and answers the position after what it stored; a header is
// stored after what it stands before: by then its length is known, and no size is summed twice.
#![tactic(auto, unfolding(table::specs::Flat::tables_from))]

ghost use Rattle.std.specs.Prelude.{ℕ, List, map, ◌+◌, ◌<◌, ◌≤◌, length};
ghost use Rattle.octets.specs.Octets.{Each};
ghost use Rattle.octets.specs.Put.{Put};
ghost use Rattle.reference.specs.Layout.{tagged, tag_binder, tag_service, layout_tap, layout_name, layout_extra, layout_binder, layout_service};
ghost use Rattle.reference.specs.Contents.{tap_of, name_of, extra_of};
ghost use Rattle.reference.specs.Meaning as Meant;
ghost use Rattle.reference.specs.Meaning.{sum};
ghost use Rattle.reference.specs.Writer.{tap_size, name_size, extra_size, binder_size, service_size, own_size};
ghost use Rattle.table.specs.Flat.{tap_region, name_region, extra_region};
ghost use Rattle.write_parts.specs.Sound.{Within, TapSound, NameSound, ExtraSound};
ghost use Rattle.write_bodies.specs.Own.{entries_on, taps_on, names_on, biop_on, lite_on, opaque_on, service_on, data_size, BinderSound, ServiceSound, OwnSound, PutAll, PutData, PutOwn};

use octets::{put8, put32};
use reference::{
    LiteComponent, NameComponent, NsapAddress, ObjectLocation, TAG_BIOP, TAG_CONN_BINDER,
    TAG_LITE_OPTIONS, TAG_SERVICE_LOCATION, Tap, View,
};
use table::{Counts, FlatTable};
use table_entries::Entry;
use write_parts::{
    write_address, write_extra, write_fixed, write_header, write_location, write_long_header,
    write_name, write_run, write_tap,
};

// An entry that an image shows, and how it is written there.
pub trait Written: Entry {
    // What an entry means over the source, what that looks like, and how many octets it has.
    ghost Meaning: { Type 0 };

    ghost meaning: { List ℕ → Self → Meaning };

    ghost layout: { Meaning → List ℕ };

    ghost size: { Self → ℕ };

    // What its writer asks of it over a source of so many octets.
    ghost Sound: { ℕ → Self → Type 0 };

    fn write(self, src: &[u8], out: &mut [u8], at: usize) -> usize
        requires sound { Sound (length src.now) self }
        requires in_bounds { at + size self ≤ length out.old }
        ensures { Put out.old at (size self) (layout (meaning src.now self)) out.new result };
}

impl Written for Tap {
    ghost Meaning = { Meant.Tap };

    ghost meaning = { tap_of };

    ghost layout = { layout_tap };

    ghost size = { tap_size };

    ghost Sound = { TapSound };

    fn write(self, src: &[u8], out: &mut [u8], at: usize) -> usize {
        write_tap(self, src, out, at)
    }
}

impl Written for NameComponent {
    ghost Meaning = { Meant.Name };

    ghost meaning = { name_of };

    ghost layout = { layout_name };

    ghost size = { name_size };

    ghost Sound = { NameSound };

    fn write(self, src: &[u8], out: &mut [u8], at: usize) -> usize {
        write_name(self, src, out, at)
    }
}

impl Written for LiteComponent {
    ghost Meaning = { Meant.Extra };

    ghost meaning = { extra_of };

    ghost layout = { layout_extra };

    ghost size = { extra_size };

    ghost Sound = { ExtraSound };

    fn write(self, src: &[u8], out: &mut [u8], at: usize) -> usize {
        write_extra(self, src, out, at)
    }
}

// The entries of a table, `count` from `first` on.
pub fn write_entries<E: Written>(
    t: &FlatTable,
    first: usize,
    count: usize,
    src: &[u8],
    out: &mut [u8],
    at: usize,
) -> usize
    requires entries_within { first + count ≤ E.region.size }
    requires each { Each (E.Sound (length src.now)) (entries_on E.region E.told t.now first count) }
    requires count_in_bounds { at + sum E.size (entries_on E.region E.told t.now first count) ≤ length out.old }
    ensures { PutAll (E.meaning src.now) E.layout E.size out.old at (entries_on E.region E.told t.now first count) out.new result }
{
    let mut pos = at;
    for k in first..first + count {
        pos = E::at(t, k).write(src, out, pos);
    }
    pos
}

// The ConnBinder, the whole component.
fn write_binder(
    t: &FlatTable,
    first: Counts,
    count: Counts,
    src: &[u8],
    out: &mut [u8],
    at: usize,
) -> usize
    requires entries_within { first.taps + count.taps ≤ tap_region.size }
    requires binder_sound { BinderSound (length src.now) (taps_on t.now first.taps count.taps) }
    requires count_in_bounds { at + (5 + binder_size (taps_on t.now first.taps count.taps)) ≤ length out.old }
    ensures { Put out.old at (5 + binder_size (taps_on t.now first.taps count.taps)) (tagged 1 tag_binder (layout_binder (map (tap_of src.now) (taps_on t.now first.taps count.taps)))) out.new result }
{
    let body = at + 5;
    let p = put8(out, body, count.taps as u8);
    let end = write_entries::<Tap>(t, first.taps, count.taps, src, out, p);
    write_header(TAG_CONN_BINDER, end - body, out, at);
    end
}

// The data of a BIOP profile.
fn write_biop_data(
    location: ObjectLocation,
    t: &FlatTable,
    first: Counts,
    count: Counts,
    src: &[u8],
    out: &mut [u8],
    at: usize,
) -> usize
    requires entries_within { (first.taps + count.taps ≤ tap_region.size) × (first.extras + count.extras ≤ extra_region.size) }
    requires own_sound { OwnSound (length src.now) (biop_on t.now location first.taps count.taps first.extras count.extras) }
    requires extras_in_bounds { at + data_size (biop_on t.now location first.taps count.taps first.extras count.extras) ≤ length out.old }
    ensures { PutData out.old at src.now (biop_on t.now location first.taps count.taps first.extras count.extras) out.new result }
{
    let a = write_fixed(count.extras + 2, out, at);
    let b = write_location(location, src, out, a);
    let c = write_binder(t, first, count, src, out, b);
    write_entries::<LiteComponent>(t, first.extras, count.extras, src, out, c)
}

// A BIOP profile, whose taps and extras are `count` from `first` on.
pub fn write_biop(
    location: ObjectLocation,
    t: &FlatTable,
    first: Counts,
    count: Counts,
    src: &[u8],
    out: &mut [u8],
    at: usize,
) -> usize
    requires entries_within { (first.taps + count.taps ≤ tap_region.size) × (first.extras + count.extras ≤ extra_region.size) }
    requires own_sound { OwnSound (length src.now) (biop_on t.now location first.taps count.taps first.extras count.extras) }
    requires extras_in_bounds { at + own_size (biop_on t.now location first.taps count.taps first.extras count.extras) ≤ length out.old }
    ensures { PutOwn out.old at src.now (biop_on t.now location first.taps count.taps first.extras count.extras) out.new result }
{
    let body = at + 8;
    let end = write_biop_data(location, t, first, count, src, out, body);
    write_long_header(TAG_BIOP, end - body, out, at);
    end
}

// The fields of a ServiceLocation.
fn write_service_data(
    address: NsapAddress,
    context: View,
    t: &FlatTable,
    first: Counts,
    count: Counts,
    src: &[u8],
    out: &mut [u8],
    at: usize,
) -> usize
    requires entries_within { first.names + count.names ≤ name_region.size }
    requires service_sound { ServiceSound (length src.now) (names_on t.now first.names count.names) context }
    requires context_in_bounds { at + service_size (names_on t.now first.names count.names) context ≤ length out.old }
    ensures { Put out.old at (service_size (names_on t.now first.names count.names) context) (layout_service (service_on src.now t.now address context first.names count.names)) out.new result }
{
    let a = put8(out, at, 20);
    let b = write_address(address, out, a);
    let c = put32(out, b, count.names as u32);
    let d = write_entries::<NameComponent>(t, first.names, count.names, src, out, c);
    write_run(context, src, out, d)
}

// The ServiceLocation, the whole component.
fn write_service(
    address: NsapAddress,
    context: View,
    t: &FlatTable,
    first: Counts,
    count: Counts,
    src: &[u8],
    out: &mut [u8],
    at: usize,
) -> usize
    requires entries_within { first.names + count.names ≤ name_region.size }
    requires service_sound { ServiceSound (length src.now) (names_on t.now first.names count.names) context }
    requires context_bound { service_size (names_on t.now first.names count.names) context ≤ 65535 }
    requires context_in_bounds { at + (8 + service_size (names_on t.now first.names count.names) context) ≤ length out.old }
    ensures { Put out.old at (8 + service_size (names_on t.now first.names count.names) context) (tagged 4 tag_service (layout_service (service_on src.now t.now address context first.names count.names))) out.new result }
{
    let body = at + 8;
    let end = write_service_data(address, context, t, first, count, src, out, body);
    write_long_header(TAG_SERVICE_LOCATION, end - body, out, at);
    end
}

// The data of a LiteOptions profile.
fn write_lite_data(
    address: NsapAddress,
    context: View,
    t: &FlatTable,
    first: Counts,
    count: Counts,
    src: &[u8],
    out: &mut [u8],
    at: usize,
) -> usize
    requires entries_within { (first.names + count.names ≤ name_region.size) × (first.extras + count.extras ≤ extra_region.size) }
    requires own_sound { OwnSound (length src.now) (lite_on t.now address context first.names count.names first.extras count.extras) }
    requires extras_in_bounds { at + data_size (lite_on t.now address context first.names count.names first.extras count.extras) ≤ length out.old }
    ensures { PutData out.old at src.now (lite_on t.now address context first.names count.names first.extras count.extras) out.new result }
{
    let a = write_fixed(count.extras + 1, out, at);
    let b = write_service(address, context, t, first, count, src, out, a);
    write_entries::<LiteComponent>(t, first.extras, count.extras, src, out, b)
}

// A LiteOptions profile, whose names and extras are `count` from `first` on.
pub fn write_lite(
    address: NsapAddress,
    context: View,
    t: &FlatTable,
    first: Counts,
    count: Counts,
    src: &[u8],
    out: &mut [u8],
    at: usize,
) -> usize
    requires entries_within { (first.names + count.names ≤ name_region.size) × (first.extras + count.extras ≤ extra_region.size) }
    requires own_sound { OwnSound (length src.now) (lite_on t.now address context first.names count.names first.extras count.extras) }
    requires extras_in_bounds { at + own_size (lite_on t.now address context first.names count.names first.extras count.extras) ≤ length out.old }
    ensures { PutOwn out.old at src.now (lite_on t.now address context first.names count.names first.extras count.extras) out.new result }
{
    let body = at + 8;
    let end = write_lite_data(address, context, t, first, count, src, out, body);
    write_long_header(TAG_LITE_OPTIONS, end - body, out, at);
    end
}

pub fn write_opaque(tag: u32, data: View, src: &[u8], out: &mut [u8], at: usize) -> usize
    requires within { Within (length src.now) «data» }
    requires data_in_bounds { at + own_size (opaque_on tag «data») ≤ length out.old }
    ensures { PutOwn out.old at src.now (opaque_on tag «data») out.new result }
{
    let a = put32(out, at, tag);
    write_run(data, src, out, a)
}
