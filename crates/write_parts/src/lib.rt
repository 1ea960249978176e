// The parts of a reference's image, each from a value: a writer stores at `at` and answers the position after what it stored. What it needs of
// its arguments the caller has checked.
#![tactic(auto)]

ghost use Rattle.std.specs.Prelude.{◌++◌, ◌+◌, ◌≤◌, length};
ghost use Rattle.octets.specs.Octets.{octets};
ghost use Rattle.octets.specs.Put.{Put};
ghost use Rattle.reference.specs.Layout.{gap_length, tagged, tag_location, layout_tap, layout_name, layout_extra, layout_location, layout_address};
ghost use Rattle.reference.specs.Contents.{shown, tap_of, name_of, extra_of, location_of};
ghost use Rattle.reference.specs.Today.{address_of};
ghost use Rattle.reference.specs.Writer.{tap_size, name_size, extra_size, location_size};
ghost use Rattle.write_parts.specs.Sound.{prefixed, gapped, Within, TapSound, NameSound, ExtraSound, LocationSound};

use octets::{copy, put_blank, put8, put16, put32};
use reference::{
    LiteComponent, NameComponent, NsapAddress, ObjectLocation, TAG_OBJECT_LOCATION, Tap,
    TypeIdRule, View, gap_length,
};

pub fn write_view(v: View, src: &[u8], out: &mut [u8], at: usize) -> usize
    requires within { Within (length src.now) v }
    requires len_in_bounds { at + v.len ≤ length out.old }
    ensures { Put out.old at v.len (shown src.now v) out.new result }
{
    copy(src, v.at as usize, v.len as usize, out, at)
}

// A view behind a length of one octet.
pub fn write_short(v: View, src: &[u8], out: &mut [u8], at: usize) -> usize
    requires within { (Within (length src.now) v) × (v.len ≤ 255) }
    requires len_in_bounds { at + (1 + v.len) ≤ length out.old }
    ensures { Put out.old at (1 + v.len) (prefixed 1 (shown src.now v)) out.new result }
{
    let a = put8(out, at, v.len as u8);
    write_view(v, src, out, a)
}

// A view behind a length of four octets.
pub fn write_run(v: View, src: &[u8], out: &mut [u8], at: usize) -> usize
    requires within { Within (length src.now) v }
    requires len_in_bounds { at + (4 + v.len) ≤ length out.old }
    ensures { Put out.old at (4 + v.len) (prefixed 4 (shown src.now v)) out.new result }
{
    let a = put32(out, at, v.len);
    write_view(v, src, out, a)
}

// A type id behind its length, with the rule's gap. Most have none, and none is asked for apart: filling it takes 2.6 ns for 1.6.
pub fn write_type_id(
    type_id: View,
    src: &[u8],
    out: &mut [u8],
    at: usize,
    rule: TypeIdRule,
) -> usize
    requires within { Within (length src.now) type_id }
    requires type_id_in_bounds { at + (4 + type_id.len + gap_length rule type_id.len) ≤ length out.old }
    ensures { Put out.old at (4 + type_id.len + gap_length rule type_id.len) (gapped rule (shown src.now type_id)) out.new result }
{
    let a = write_run(type_id, src, out, at);
    let k = gap_length(rule, type_id.len as usize);
    if k == 0 {
        return a;
    }
    put_blank(out, a, k)
}

pub fn write_tap(tap: Tap, src: &[u8], out: &mut [u8], at: usize) -> usize
    requires tap_sound { TapSound (length src.now) tap }
    requires tap_in_bounds { at + tap_size tap ≤ length out.old }
    ensures { Put out.old at (tap_size tap) (layout_tap (tap_of src.now tap)) out.new result }
{
    let a = put16(out, at, tap.id);
    let b = put16(out, a, tap.use_);
    let c = put16(out, b, tap.association);
    write_short(tap.selector, src, out, c)
}

pub fn write_name(name: NameComponent, src: &[u8], out: &mut [u8], at: usize) -> usize
    requires name_sound { NameSound (length src.now) name }
    requires name_in_bounds { at + name_size name ≤ length out.old }
    ensures { Put out.old at (name_size name) (layout_name (name_of src.now name)) out.new result }
{
    let a = write_run(name.id, src, out, at);
    write_run(name.kind, src, out, a)
}

pub fn write_extra(extra: LiteComponent, src: &[u8], out: &mut [u8], at: usize) -> usize
    requires extra_sound { ExtraSound (length src.now) extra }
    requires extra_in_bounds { at + extra_size extra ≤ length out.old }
    ensures { Put out.old at (extra_size extra) (layout_extra (extra_of src.now extra)) out.new result }
{
    let a = put32(out, at, extra.tag);
    write_short(extra.data, src, out, a)
}

// The header of a component, whose length has one octet.
pub fn write_header(tag: u32, n: usize, out: &mut [u8], at: usize) -> usize
    requires { (n ≤ 255) × (at + 5 ≤ length out.old) }
    ensures { Put out.old at 5 (octets 4 tag ++ octets 1 n) out.new result }
{
    let a = put32(out, at, tag);
    put8(out, a, n as u8)
}

// The header of a profile or of a ServiceLocation, whose length has four octets.
pub fn write_long_header(tag: u32, n: usize, out: &mut [u8], at: usize) -> usize
    requires { (n ≤ 65535) × (at + 8 ≤ length out.old) }
    ensures { Put out.old at 8 (octets 4 tag ++ octets 4 n) out.new result }
{
    let a = put32(out, at, tag);
    put32(out, a, n as u32)
}

// The two octets that begin a profile's data: order octet and component count.
pub fn write_fixed(count: usize, out: &mut [u8], at: usize) -> usize
    requires { (count ≤ 255) × (at + 2 ≤ length out.old) }
    ensures { Put out.old at 2 (octets 1 0 ++ octets 1 count) out.new result }
{
    let a = put8(out, at, 0);
    put8(out, a, count as u8)
}

// The fields of an ObjectLocation before its key.
fn write_object(location: ObjectLocation, out: &mut [u8], at: usize) -> usize
    requires { at + 8 ≤ length out.old }
    ensures { Put out.old at 8 (octets 4 location.carousel ++ (octets 2 location.«module» ++ (octets 1 location.version_major ++ octets 1 location.version_minor))) out.new result }
{
    let a = put32(out, at, location.carousel);
    let b = put16(out, a, location.module);
    let c = put8(out, b, location.version_major);
    put8(out, c, location.version_minor)
}

// The whole component.
pub fn write_location(location: ObjectLocation, src: &[u8], out: &mut [u8], at: usize) -> usize
    requires location_sound { LocationSound (length src.now) location }
    requires location_in_bounds { at + (5 + location_size location) ≤ length out.old }
    ensures { Put out.old at (5 + location_size location) (tagged 1 tag_location (layout_location (location_of src.now location))) out.new result }
{
    let a = write_header(TAG_OBJECT_LOCATION, 9 + location.key.len as usize, out, at);
    let b = write_object(location, out, a);
    write_short(location.key, src, out, b)
}

// The address up to its specifier type, and its specifier data.
fn write_address_head(address: NsapAddress, out: &mut [u8], at: usize) -> usize
    requires { at + 7 ≤ length out.old }
    ensures { Put out.old at 7 (octets 1 0 ++ (octets 1 0 ++ (octets 4 address.carousel ++ octets 1 1))) out.new result }
{
    let a = put8(out, at, NsapAddress::AFI);
    let b = put8(out, a, NsapAddress::NSAP_TYPE);
    let c = put32(out, b, address.carousel);
    put8(out, c, NsapAddress::SPECIFIER_TYPE)
}

fn write_specifier(address: NsapAddress, out: &mut [u8], at: usize) -> usize
    requires { at + 3 ≤ length out.old }
    ensures { Put out.old at 3 (octets 1 address.specifier0 ++ (octets 1 address.specifier1 ++ octets 1 address.specifier2)) out.new result }
{
    let a = put8(out, at, address.specifier0);
    let b = put8(out, a, address.specifier1);
    put8(out, b, address.specifier2)
}

// The address from the transport stream on.
fn write_address_tail(address: NsapAddress, out: &mut [u8], at: usize) -> usize
    requires { at + 10 ≤ length out.old }
    ensures { Put out.old at 10 (octets 2 address.transport_stream ++ (octets 2 address.original_network ++ (octets 2 address.service ++ octets 4 0xFFFFFFFF))) out.new result }
{
    let a = put16(out, at, address.transport_stream);
    let b = put16(out, a, address.original_network);
    let c = put16(out, b, address.service);
    put32(out, c, NsapAddress::RESERVED)
}

pub fn write_address(address: NsapAddress, out: &mut [u8], at: usize) -> usize
    requires { at + 20 ≤ length out.old }
    ensures { Put out.old at 20 (layout_address (address_of address)) out.new result }
{
    let a = write_address_head(address, out, at);
    let b = write_specifier(address, out, a);
    write_address_tail(address, out, b)
}
