// The guide's program: reads a reference, looks at its tables, asks the questions, and writes it anew; and the same by a table that it lends.
// Each function that says something answers whether it could be written.
#![tactic(auto)]

use ior::{FlatTable, TABLE};
use outcome::{input_name, tell_written};
use reference::{
    AddressWay, Answer, ObjectKind, ObjectLocation, Reading, Refusal, Tables, TaggedProfile,
    TypeIdRule, View,
};
use std::io;
use std::process::ExitCode;
use table::{MODULE, PROFILES_AT};

fn say_octets(to: &impl Print, octets: &[u8]) -> io::Result<()> {
    for octet in octets {
        print!(to; "{octet:02x}")?;
    }
    println!(to; "")
}

// What a view shows: its octets in the caller's slice. The views of an accepted reading lie within it.
fn show(to: &impl Print, s: &[u8], v: View) -> io::Result<()> {
    let at = v.at as usize;
    match s.get(at..at + v.len as usize) {
        Some(octets) => say_octets(to, octets),
        None => Ok(()),
    }
}

fn say_kind(to: &impl Print, type_id: &[u8]) -> io::Result<()> {
    match ior::object_kind(type_id) {
        ObjectKind::Directory => println!(to; "kind dir"),
        ObjectKind::File => println!(to; "kind fil"),
        ObjectKind::Stream => println!(to; "kind str"),
        ObjectKind::ServiceGateway => println!(to; "kind srg"),
        ObjectKind::StreamEvent => println!(to; "kind ste"),
        ObjectKind::Unknown(n) => println!(to; "kind {n}"),
    }
}

fn say_location(to: &impl Print, s: &[u8], location: ObjectLocation) -> io::Result<()> {
    println!(to; "carousel {}", location.carousel)?;
    println!(to; "module {}", location.module)?;
    print!(to; "key ")?;
    show(to, s, location.key)
}

// Which module the reference names: the location of its first BIOP profile.
fn say_where(to: &impl Print, s: &[u8], t: Tables) -> io::Result<()> {
    if let Ok(Some(i)) = ior::first_biop(t)
        && let Some(profile) = t.profiles.get(i)
        && let TaggedProfile::Biop { location, .. } = profile.body
    {
        return say_location(to, s, location);
    }
    Ok(())
}

// Writes the tables over the octets that they were read from.
fn write_anew(to: &impl Print, s: &[u8], t: Tables) -> io::Result<()> {
    let mut out = [0u8; 64];
    match ior::write(t, s, &mut out) {
        Ok(n) => println!(to; "written {n}"),
        Err(why) => println!(to; "not written: refusal {}", why.number),
    }
}

// A reading's refusal: number, place, both figures, and the octet at which it broke. 2 has no place: its figures tell what was declared and what there was.
fn say_refusal(to: &impl Print, why: Refusal) -> io::Result<()> {
    println!(to; "refusal {}", why.number)?;
    if why.place != 0 {
        println!(to; "place {}", why.place)?;
    }
    println!(to; "first figure {}", why.first)?;
    println!(to; "second figure {}", why.second)?;
    println!(to; "at octet {}", why.offset)
}

fn read_and_say(to: &impl Print, s: &[u8]) -> io::Result<()> {
    let Reading { answer, tables } = ior::read_leading(s);
    match answer {
        Ok(n) => {
            println!(to; "read {n}")?;
            say_where(to, s, tables)?;
            write_anew(to, s, tables)
        }
        Err(why) => say_refusal(to, why),
    }
}

fn say_answer(to: &impl Print, what: &str, answer: Answer) -> io::Result<()> {
    match answer {
        Ok(n) => println!(to; "{what} {n}"),
        Err(why) => println!(to; "{what} refusal {}", why.number),
    }
}

// Which number of a lent table is the module of the first profile.
const FIRST_MODULE: usize = PROFILES_AT + MODULE;

// A module that is wider than its two octets is refused, and not cut: 65578 would be written as 42.
fn write_too_wide(to: &impl Print, s: &[u8], table: &mut FlatTable) -> io::Result<()> {
    let mut out = [0u8; 64];
    table[FIRST_MODULE] = 65578;
    say_answer(to, "lent, too wide: length", ior::length_from(table, s))?;
    let written = ior::write_from(table, s, &mut out);
    say_answer(to, "lent, too wide: written", written)
}

// The same by a table that the caller lends, whatever it held before.
fn lend_a_table(to: &impl Print, s: &[u8]) -> io::Result<()> {
    let mut table = [0xA5A5A5A5u32; TABLE];
    let mut out = [0u8; 64];
    let read = ior::read_whole_into(s, &mut table);
    say_answer(to, "lent: read", read)?;
    println!(to; "lent: module {}", table[FIRST_MODULE])?;
    let written = ior::write_from(&table, s, &mut out);
    say_answer(to, "lent: written", written)?;
    write_too_wide(to, s, &mut table)
}

// A type id of five octets with its gap: what rule 1 refuses, rule 2 reads, and writes with the gap.
fn read_by_rules(to: &impl Print, s: &[u8]) -> io::Result<()> {
    let mut out = [0u8; 64];
    let refused = ior::read_leading_by(s, TypeIdRule::Multiple);
    say_answer(to, "rule 1: read", refused.answer)?;
    let Reading { answer, tables } = ior::read_leading_by(s, TypeIdRule::Gap);
    say_answer(to, "rule 2: read", answer)?;
    let written = ior::write_by(tables, s, &mut out, TypeIdRule::Gap, AddressWay::Constants);
    say_answer(to, "rule 2: written", written)
}

// A service gateway's reference with one BIOP profile, whose key has two octets.
const REFERENCE: [u8; 44] =
    *b"\x00\x00\x00\x04\x73\x72\x67\x00\x00\x00\x00\x01\x49\x53\x4F\x06\x00\x00\x00\x18\x00\x02\x49\x53\x4F\x50\x0B\x00\x00\x00\x07\x00\x2A\x01\x00\x02\xC0\xDE\x49\x53\x4F\x40\x01\x00";

// One with a type id of five octets and the gap of three behind it.
const WITH_GAP: [u8; 16] = *b"\x00\x00\x00\x05\x61\x62\x63\x64\x65\xFF\xFF\xFF\x00\x00\x00\x00";

// Of the first: a profile that declares 24 octets where 10 are left, and a profile's header that is cut.
fn refusals(to: &impl Print) -> io::Result<()> {
    read_and_say(to, &REFERENCE[..30])?;
    read_and_say(to, &REFERENCE[..16])
}

fn run(to: &impl Print) -> io::Result<()> {
    read_and_say(to, &REFERENCE)?;
    say_kind(to, b"srg\x00")?;
    lend_a_table(to, &REFERENCE)?;
    read_by_rules(to, &WITH_GAP)?;
    refusals(to)
}

fn main(rt: HostRuntime) -> ExitCode {
    let mut room = [0u8; 4096];
    let name = input_name(&rt, &mut room);
    tell_written(&rt.stderr(), rt.alloc(), run(&rt), name)
}
