// Runs the worked references P1 to P11 of document 01, and every case that it marks "Run", through the library, and prints each answer:
// number, place, two figures, and octets consumed or written; then type ids with a gap under both rules, and a DVB address with each octet at each
// other value. Behind each reference, read or written, stands how often it was refused, and with which number, when it was cut at each octet. What must
// come out stands in stdout, from documents 01 and 02.
#![tactic(auto)]

ghost use Rattle.std.specs.Prelude.{◌+◌, ◌<◌, ◌≤◌, length};

use ior::AddressOctets;
use octets::{put8, put32};
use reference::{
    AddressWay, Answer, ObjectKind, ObjectLocation, Profile, TAG_BIOP, TAG_CONN_BINDER,
    TAG_OBJECT_LOCATION, Tables, TaggedProfile, Tap, TypeIdRule, View, no_tables,
};

// Nobody is told of what can't be written.
fn say_answer(to: &impl Print, name: &str, answer: Answer) {
    let _ = match answer {
        Ok(n) => println!(to; "{name} 0 0 0 0 {n}"),
        Err(why) => {
            println!(to;
                "{name} {} {} {} {} 0",
                why.number, why.place, why.first, why.second
            )
        }
    };
}

// Each shorter leading piece of `s`: how many are refused with 1, how many with 2, and how many otherwise or not at all.
fn cuts<F: Fn(&[u8]) -> Answer>(to: &impl Print, name: &str, rule: u8, how: &str, s: &[u8], read: F)
    requires { F.IsAlwaysCallable read }
{
    let mut one: u64 = 0;
    let mut two: u64 = 0;
    let mut other: u64 = 0;
    for j in 0..s.len() {
        match read(&s[..j]) {
            Err(why) if why.number == 1 => one += 1,
            Err(why) if why.number == 2 => two += 1,
            _ => other += 1,
        }
    }
    let _ = println!(to; "{name}, pieces by rule {rule}, {how}: 1 {one} 2 {two} other {other}");
}

// The reference at the start of `s`, if there is one under the rule, is cut at each octet.
fn cuts_by(to: &impl Print, name: &str, number: u8, rule: TypeIdRule, s: &[u8]) {
    if let Ok(n) = ior::read_leading_by(s, rule).answer
        && let Some(whole) = s.get(..n)
    {
        cuts(to, name, number, "leading", whole, |piece| {
            ior::read_leading_by(piece, rule).answer
        });
        cuts(to, name, number, "whole", whole, |piece| {
            ior::read_whole_by(piece, rule).answer
        });
    }
}

fn cuts_reference(to: &impl Print, name: &str, s: &[u8]) {
    cuts_by(to, name, 1, TypeIdRule::Multiple, s);
    cuts_by(to, name, 2, TypeIdRule::Gap, s);
}

fn reads(to: &impl Print, name: &str, s: &[u8]) {
    say_answer(to, name, ior::read_leading(s).answer);
    cuts_reference(to, name, s);
}

fn say_kind(to: &impl Print, type_id: &[u8]) {
    if let ObjectKind::ServiceGateway = ior::object_kind(type_id) {
        let _ = println!(to; "P7 srg");
    }
}

fn say_tap(to: &impl Print, name: &str, use_: u16, selector: &[u8]) {
    let _ = match ior::tap_numbers(use_, selector) {
        Some(both) => println!(to; "{name} {} {}", both.transaction, both.timeout),
        None => println!(to; "{name} neither"),
    };
}

// Carousel 9, specifier type 01 and data 00 01 5A, transport stream 3, network 4, service 5, and the reserved four.
const DVB_ADDRESS: AddressOctets =
    *b"\x00\x00\x00\x00\x00\x09\x01\x00\x01\x5A\x00\x03\x00\x04\x00\x05\xFF\xFF\xFF\xFF";

// Tables with one BIOP profile: a key and 36 taps, the last with a selector, or none.
fn one_profile(key: u32, taps: u32, selector: u32) -> Tables {
    let location = ObjectLocation {
        carousel: 1,
        module: 2,
        version_major: 1,
        version_minor: 0,
        key: View { at: 0, len: key },
    };
    let body = TaggedProfile::Biop {
        location,
        taps,
        extras: 0,
    };
    let tap = Tap {
        id: 1,
        use_: 0x16,
        association: 2,
        selector: View { at: 0, len: 0 },
    };
    let mut t = no_tables();
    t.profiles_used = 1;
    t.profiles[0] = Profile { body };
    t.taps_used = taps;
    t.taps = [tap; 36];
    t.taps[35].selector.len = selector;
    t
}

// Writes the tables, and says the octet that stands at `at` then: the length of a component, or A5 where nothing was written.
fn writes(to: &impl Print, name: &str, t: Tables, at: usize) {
    let source = [0u8; 300];
    let mut out = [0xA5u8; 600];
    say_answer(to, name, ior::write(t, &source, &mut out));
    if let Some(octet) = out.get(at) {
        let _ = println!(to; "{name} {octet}");
    }
    cuts_reference(to, name, &out);
}

// A BIOP profile at `at` with so many taps of zero octets, which has `data` octets and its binder `binder`: its headers, of which the other octets are zero.
fn put_profile(s: &mut [u8], at: usize, data: u32, binder: u8, taps: u8)
    requires { at + 30 ≤ length s.old }
{
    put32(s, at, TAG_BIOP);
    put32(s, at + 4, data);
    put8(s, at + 9, 2);
    put32(s, at + 10, TAG_OBJECT_LOCATION);
    put8(s, at + 14, 9);
    put32(s, at + 24, TAG_CONN_BINDER);
    put8(s, at + 28, binder);
    put8(s, at + 29, taps);
}

// Two BIOP profiles with 19 and 18 taps.
fn reads_two_binders(to: &impl Print) {
    let mut s = [0u8; 327];
    s[7] = 2;
    put_profile(&mut s, 8, 155, 134, 19);
    put_profile(&mut s, 171, 148, 127, 18);
    reads(to, "two binders", &s);
}

// Nine empty opaque profiles behind a count.
fn reads_nine(to: &impl Print, name: &str, count: u8) {
    let mut s = [0u8; 80];
    s[7] = count;
    reads(to, name, &s);
}

fn reads_worked(to: &impl Print) {
    reads(to, "P1", b"");
    reads(to, "P2", b"\x00\x00\x00\x00\x00\x00\x00\x00");
    reads(to, "P3", b"\x00\x00\x00\x03\x00\x00\x00\x00");
    reads(to, "P4", b"\x00\x00\x00\x04\x73\x72\x67\x00");
    reads(to, "P5", b"\x00\x00\x00\x08\x00\x00\x00\x00");
    reads(to, "P6", b"\x00\x00\x00\x00\x00\x00\x00\x01");
    reads(
        to,
        "P7",
        b"\x00\x00\x00\x04\x73\x72\x67\x00\x00\x00\x00\x01\x49\x53\x4F\x06\x00\x00\x00\x16\x00\x02\x49\x53\x4F\x50\x09\x00\x00\x00\x01\x00\x02\x01\x00\x00\x49\x53\x4F\x40\x01\x00",
    );
    say_kind(to, b"srg\x00");
    reads(
        to,
        "P8",
        b"\x00\x00\x00\x04\x73\x72\x67\x00\x00\x00\x00\x01\x49\x53\x4F\x06\x00\x00\x00\x16\x00\x01\x49\x53\x4F\x50\x09\x00\x00\x00\x01\x00\x02\x01\x00\x00\x49\x53\x4F\x40\x01\x00",
    );
    reads(
        to,
        "P8 order",
        b"\x00\x00\x00\x04\x73\x72\x67\x00\x00\x00\x00\x01\x49\x53\x4F\x06\x00\x00\x00\x16\x01\x01\x49\x53\x4F\x50\x09\x00\x00\x00\x01\x00\x02\x01\x00\x00\x49\x53\x4F\x40\x01\x00",
    );
    reads(
        to,
        "P9",
        b"\x00\x00\x00\x04\x73\x72\x67\x00\x00\x00\x00\x01\x49\x53\x4F\x06\x00\x00\x00\x16\x00\x02\x49\x53\x4F\x50\x08\x00\x00\x00\x01\x00\x02\x01\x00\x00\x49\x53\x4F\x40\x01\x00",
    );
    reads(
        to,
        "P10",
        b"\x00\x00\x00\x04\x73\x72\x67\x00\x00\x00\x00\x01\x49\x53\x4F\x06\x00\x00\x00\x17\x00\x02\x49\x53\x4F\x50\x09\x00\x00\x00\x01\x00\x02\x01\x00\x00\x49\x53\x4F\x40\x02\x00\x00",
    );
}

fn taps_worked(to: &impl Print) {
    say_tap(
        to,
        "P11",
        0x0016,
        b"\x00\x01\x80\x00\x00\x02\xFF\xFF\xFF\xFF",
    );
    say_tap(
        to,
        "P11 nine",
        0x0016,
        b"\x00\x01\x80\x00\x00\x02\xFF\xFF\xFF",
    );
    say_tap(
        to,
        "P11 use 0017",
        0x0017,
        b"\x00\x01\x80\x00\x00\x02\xFF\xFF\xFF\xFF",
    );
}

fn reads_run(to: &impl Print) {
    reads(
        to,
        "lite 39",
        b"\x00\x00\x00\x00\x00\x00\x00\x01\x49\x53\x4F\x05\x00\x00\x00\x27\x00\x01\x49\x53\x4F\x46\x00\x00\x00\x1D\x14\x00\x00\x00\x00\x00\x01\x01\x00\x01\x5A\x00\x01\x00\x02\x00\x03\xFF\xFF\xFF\xFF\x00\x00\x00\x00\x00\x00\x00\x00",
    );
    reads(
        to,
        "lite names",
        b"\x00\x00\x00\x00\x00\x00\x00\x01\x49\x53\x4F\x05\x00\x00\x00\x27\x00\x01\x49\x53\x4F\x46\x00\x00\x00\x1D\x14\x00\x00\x00\x00\x00\x01\x01\x00\x01\x5A\x00\x01\x00\x02\x00\x03\xFF\xFF\xFF\xFF\xFF\xFF\xFF\xFF\x00\x00\x00\x00",
    );
    reads_two_binders(to);
    reads_nine(to, "nine opaque", 9);
    reads_nine(to, "nine of ten", 10);
}

// A slice under rule 1, and then under rule 2.
fn reads_by(to: &impl Print, name: &str, s: &[u8]) {
    say_answer(
        to,
        name,
        ior::read_leading_by(s, TypeIdRule::Multiple).answer,
    );
    say_answer(to, name, ior::read_leading_by(s, TypeIdRule::Gap).answer);
    cuts_reference(to, name, s);
}

// A type id of five octets, and a gap of three that is right, wrong, left out or cut.
fn reads_gaps(to: &impl Print) {
    reads_by(
        to,
        "gap",
        b"\x00\x00\x00\x05abcde\xFF\xFF\xFF\x00\x00\x00\x00",
    );
    reads_by(
        to,
        "gap wrong",
        b"\x00\x00\x00\x05abcde\xFF\x00\xFF\x00\x00\x00\x00",
    );
    reads_by(to, "gap left out", b"\x00\x00\x00\x05abcde\x00\x00\x00\x00");
    reads_by(to, "gap cut", b"\x00\x00\x00\x05abcde\xFF\xFF");
    reads_by(to, "no gap", b"\x00\x00\x00\x04abcd\x00\x00\x00\x00");
}

// Tables with a type id of so many octets and nothing else, measured and written under the rule.
fn writes_by(to: &impl Print, name: &str, len: u32, rule: TypeIdRule) {
    let source = [0u8; 65535];
    let mut out = [0xA5u8; 65535];
    let mut t = no_tables();
    t.type_id = View { at: 0, len };
    say_answer(to, name, ior::image_length_by(t, &source, rule));
    let written = ior::write_by(t, &source, &mut out, rule, AddressWay::Constants);
    say_answer(to, name, written);
    cuts_reference(to, name, &out);
}

// Without its gap of three, the image of a type id of 65,525 octets would fit.
fn writes_gaps(to: &impl Print) {
    writes_by(to, "type id of 65525, rule 1", 65525, TypeIdRule::Multiple);
    writes_by(to, "type id of 65525, rule 2", 65525, TypeIdRule::Gap);
    writes_by(to, "type id of 65524, rule 2", 65524, TypeIdRule::Gap);
    writes_by(to, "type id of 65523, rule 2", 65523, TypeIdRule::Gap);
}

// A DVB address with the octet at `at` changed to each of the 255 other values: how often it is one still, and how often it is none.
fn asks_changed(to: &impl Print, at: usize)
    requires { at < 20 }
{
    let yes = (1..=u8::MAX)
        .filter(|change| {
            let mut a = DVB_ADDRESS;
            a[at] ^= *change;
            ior::is_dvb(a)
        })
        .count();
    let _ = println!(to; "address octet {at} yes {yes} no {}", 255 - yes);
}

fn asks_addresses(to: &impl Print) {
    for at in 0..20 {
        asks_changed(to, at);
    }
}

fn main(rt: HostRuntime) {
    reads_worked(&rt);
    taps_worked(&rt);
    reads_run(&rt);
    writes(&rt, "36 taps", one_profile(0, 36, 0), 36);
    writes(&rt, "selector of 2", one_profile(0, 36, 2), 36);
    writes(&rt, "selector of 3", one_profile(0, 36, 3), 36);
    writes(&rt, "key 246", one_profile(246, 0, 0), 22);
    writes(&rt, "key 247", one_profile(247, 0, 0), 22);
    reads_gaps(&rt);
    writes_gaps(&rt);
    asks_addresses(&rt);
}
