// Questions about a reference's parts: an object's kind, a tap's two numbers, the first BIOP profile, and whether an address is DVB's.
// Each contract says what the answer is in the terms of reference's specs/Questions.
#![tactic(auto)]

ghost use Rattle.std.specs.Prelude.{◌≡◌};
ghost use Rattle.reference.specs.Questions.{kind_numbered, kind_of, tap_numbers_of, first_biop, dvb_address};

use octets::{be24, be32, octet};
use reference::{
    NsapAddress, ObjectKind, PLACE_PROFILES, PROFILES, Refusal, Tables, TaggedProfile, TapNumbers,
    wrong,
};

// The five kinds, in the order in which they are searched: three letters and a zero octet, and what they name.
const KINDS: [([u8; 4], ObjectKind); 5] = [
    (*b"dir\0", ObjectKind::Directory),
    (*b"fil\0", ObjectKind::File),
    (*b"str\0", ObjectKind::Stream),
    (*b"srg\0", ObjectKind::ServiceGateway),
    (*b"ste\0", ObjectKind::StreamEvent),
];

const USE_DELIVERY: u16 = 0x0016;

// The kind of the first row that has the octets of n, or unknown with it. A row's four octets are compared at once, as the number that
// they write.
fn kind_numbered(n: u32) -> ObjectKind
    ensures { result ≡ kind_numbered n }
{
    for (row, kind) in &KINDS {
        if n == be32(row, 0) {
            return *kind;
        }
    }
    ObjectKind::Unknown(n)
}

// The kind that a type id's octets name; never refused.
pub fn object_kind(type_id: &[u8]) -> ObjectKind
    ensures { result ≡ kind_of type_id.now }
{
    if type_id.len() == 4 {
        return kind_numbered(be32(type_id, 0));
    }
    ObjectKind::Unknown(0)
}

// The two numbers that a tap of this use says in its selector's octets; never refused.
pub fn tap_numbers(use_: u16, selector: &[u8]) -> Option<TapNumbers>
    ensures { result ≡ tap_numbers_of use_ selector.now }
{
    if use_ != USE_DELIVERY || selector.len() < 10 {
        return None;
    }
    Some(TapNumbers {
        transaction: be32(selector, 2),
        timeout: be32(selector, 6),
    })
}

// The first BIOP profile among the used ones; 8 if more are used than the table has.
pub fn first_biop(t: Tables) -> Result<Option<usize>, Refusal>
    ensures { result ≡ first_biop t }
{
    let used = t.profiles_used as usize;
    if PROFILES < used {
        return Err(wrong(8, PLACE_PROFILES));
    }
    let first = t.profiles[..used]
        .iter()
        .position(|p| matches!(p.body, TaggedProfile::Biop { .. }));
    Ok(first)
}

// Whether an address of twenty octets bears the four constants of its kind, and DVB's organisation number as its specifier data.
pub fn is_dvb(a: [u8; 20]) -> bool
    ensures { result ≡ dvb_address a }
{
    let afi = octet(&a, 0);
    let kind = octet(&a, 1);
    let specifier_type = octet(&a, 6);
    let organisation = be24(&a, 7);
    let reserved = be32(&a, 16);
    (afi == NsapAddress::AFI)
        & ((kind == NsapAddress::NSAP_TYPE)
            & ((specifier_type == NsapAddress::SPECIFIER_TYPE)
                & ((organisation == NsapAddress::DVB_ORGANISATION)
                    & (reserved == NsapAddress::RESERVED))))
}
