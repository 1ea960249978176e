// The data of a LiteOptions profile, read into a lent table: a ServiceLocation (address, names, context), then extras. A reader looks at
// d[pos..end]; `base` says where d stands in the caller's slice, and is added to views only, so that the figures of a refusal count from
// the start of d.
#![tactic(auto)]

ghost use Rattle.std.specs.Prelude.{◌≡◌, ◌+◌, ◌≤◌, length};
ghost use Rattle.reference.specs.Meaning.{Name, lite};
ghost use Rattle.reference.specs.Layout.{layout_name};
ghost use Rattle.reference.specs.Reader.{read_name, read_context, read_lite};
ghost use Rattle.reference.specs.Heads.{read_service_head, read_service_part, read_lite_head};
ghost use Rattle.reference.specs.Steps.{answer_of, seen};
ghost use Rattle.reference.specs.Placed.{view, name_at};
ghost use Rattle.read_parts.specs.Told.{StoresBody};
ghost use Rattle.read_lite.specs.Told.{AddressIn, head_told, head_of, head_at, StoresRest};

use octets::{be16, be32, octet};
use read_parts::{
    Entries, read_component, read_entries, read_extras, read_fixed, read_named, read_run,
};
use reference::{
    NameComponent, NsapAddress, PLACE_ADDRESS, PLACE_ADDRESS_LENGTH, PLACE_ADDRESS_SIZE,
    PLACE_CONTEXT_LENGTH, PLACE_ID_LENGTH, PLACE_KIND_LENGTH, PLACE_LITE_COMPONENTS,
    PLACE_LITE_EXTRA, PLACE_LITE_FIXED, PLACE_LITE_LEFTOVER, PLACE_LITE_ORDER, PLACE_NAME_COUNT,
    PLACE_SERVICE_HEADER, PLACE_SERVICE_LEFTOVER, PLACE_SERVICE_TAG, PROFILES, Refusal,
    TAG_SERVICE_LOCATION, View, cut, left_over, wrong_value,
};
use table::{Counts, FlatTable, put_lite};

// Where the data has what stands before the first name, behind the two fixed octets: the ServiceLocation's header, then its data,
// which are the address behind its length, the name count and the first name.
const HEADER: usize = 2;

const SERVICE: usize = 10;

const ADDRESS: usize = 11;

const NAME_COUNT: usize = 31;

const FIRST_NAME: usize = 35;

// What is known before the first name: the address, how many names and extras follow, and where the ServiceLocation ends.
#[derive(Drop)]
struct Head {
    address: NsapAddress,
    names: u32,
    extras: usize,
    stop: usize,
}

// The names of a ServiceLocation.
struct NameEntries;

impl Entries for NameEntries {
    type Entry = NameComponent;

    ghost Meaning = { Name };

    ghost reader = { λ _. read_name };

    ghost layout = { layout_name };

    ghost placed = { name_at };

    fn read(
        &self,
        d: &[u8],
        base: usize,
        pos: usize,
        end: usize,
    ) -> Result<(NameComponent, usize), Refusal> {
        read_named::<4>(d, base, pos, end, PLACE_ID_LENGTH, PLACE_KIND_LENGTH)
    }
}

// The context, which ends a ServiceLocation.
fn read_context(d: &[u8], base: usize, pos: usize, end: usize) -> Result<(View, usize), Refusal>
    requires { (pos ≤ end) × (end ≤ length d.now) × (base + length d.now ≤ 65535) }
    ensures { answer_of result ≡ seen (view (base + pos + 4)) (read_context d.now pos end) }
{
    let (context, next) = read_run::<4>(d, base, pos, end, PLACE_CONTEXT_LENGTH)?;
    if next != end {
        return Err(left_over(PLACE_SERVICE_LEFTOVER, next, end));
    }
    Ok((context, next))
}

// The address at `pos`, of which twenty octets are there.
fn read_address(d: &[u8], pos: usize) -> NsapAddress
    requires { pos + 20 ≤ length d.now }
    ensures { AddressIn d.now pos result }
{
    NsapAddress {
        carousel: be32(d, pos + 2),
        specifier0: octet(d, pos + 7),
        specifier1: octet(d, pos + 8),
        specifier2: octet(d, pos + 9),
        transport_stream: be16(d, pos + 10),
        original_network: be16(d, pos + 12),
        service: be16(d, pos + 14),
    }
}

// A ServiceLocation that ends at `stop`, up to its first name; `extras` components follow it.
fn read_service_head(d: &[u8], stop: usize, extras: usize) -> Result<Head, Refusal>
    requires { stop ≤ length d.now }
    ensures { head_told result ≡ seen (head_of extras stop) (read_service_head d.now 10 stop) }
{
    if stop < ADDRESS {
        return Err(cut(PLACE_ADDRESS_LENGTH, SERVICE, 1, stop));
    }
    let size = octet(d, SERVICE);
    if size != 20 {
        return Err(wrong_value(4, PLACE_ADDRESS_SIZE, SERVICE));
    }
    if stop < NAME_COUNT {
        return Err(cut(PLACE_ADDRESS, ADDRESS, 20, stop));
    }
    if stop < FIRST_NAME {
        return Err(cut(PLACE_NAME_COUNT, NAME_COUNT, 4, stop));
    }
    Ok(Head {
        address: read_address(d, ADDRESS),
        names: be32(d, NAME_COUNT),
        extras,
        stop,
    })
}

// The component that holds the ServiceLocation, up to its first name.
fn read_service_part(d: &[u8], extras: usize) -> Result<Head, Refusal>
    ensures { head_told result ≡ seen (λ s. head_of extras s.stop s.head) (read_service_part d.now 2 (length d.now)) }
{
    let stop = read_component::<4>(
        d,
        HEADER,
        TAG_SERVICE_LOCATION,
        PLACE_SERVICE_HEADER,
        PLACE_SERVICE_TAG,
    )?;
    read_service_head(d, stop, extras)
}

// LiteOptions data up to its first name.
fn read_lite_head(d: &[u8]) -> Result<Head, Refusal>
    ensures { head_told result ≡ seen head_at (read_lite_head d.now 0 (length d.now)) }
{
    let count = read_fixed(
        d,
        1,
        PLACE_LITE_FIXED,
        PLACE_LITE_ORDER,
        PLACE_LITE_COMPONENTS,
    )?;
    read_service_part(d, count - 1)
}

// LiteOptions data from its first name on: the names, the context, the extras, which end the data; then its own entry, profile i. What is
// read does not depend on the octets of the address that its head leaves out.
fn read_lite_rest(
    d: &[u8],
    at: usize,
    head: Head,
    table: &mut FlatTable,
    i: usize,
    used: Counts,
) -> Result<Counts, Refusal>
    requires { (35 ≤ head.stop) × (head.stop ≤ length d.now) × (at + 8 + length d.now ≤ 65535) × (head.extras ≤ 255) × (used.names ≤ 65535) × (used.extras ≤ 65535) }
    ensures { StoresRest at table.old i used head d.now table.new result }
{
    let base = at + 8;
    let names = head.names as usize;
    let mid = read_entries(
        &NameEntries,
        d,
        base,
        FIRST_NAME,
        head.stop,
        names,
        table,
        used.names,
    )?;
    let (context, next) = read_context(d, base, mid, head.stop)?;
    read_extras(
        d,
        base,
        next,
        head.extras,
        PLACE_LITE_EXTRA,
        PLACE_LITE_LEFTOVER,
        table,
        used.extras,
    )?;
    if i < PROFILES {
        put_lite(
            head.address,
            head.names,
            context,
            head.extras as u32,
            table,
            i,
        );
    }
    Ok(Counts {
        names: used.names + names,
        extras: used.extras + head.extras,
        ..used
    })
}

// The data d of a LiteOptions profile becomes profile i of the table, behind the entries that are used; its header stands at `at` in the
// caller's slice. Of a refused reading the table is open.
pub fn read_lite(
    d: &[u8],
    at: usize,
    table: &mut FlatTable,
    i: usize,
    used: Counts,
) -> Result<Counts, Refusal>
    requires { (at + 8 + length d.now ≤ 65535) × (used.taps ≤ 65535) × (used.names ≤ 65535) × (used.extras ≤ 65535) }
    ensures { StoresBody at table.old i used (seen (λ l. lite l) (read_lite d.now 0 (length d.now))) (length d.now) table.new result }
{
    let head = read_lite_head(d)?;
    read_lite_rest(d, at, head, table, i, used)
}
