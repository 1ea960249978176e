// The library's face: every public call, with what it does, what it refuses and what a refusal leaves. No call asks anything of its caller:
// every slice, every table and every output gets an answer. A refusal is a number, a place and two figures (document 01), and of a reading the
// offset in its slice where it broke (document 02, No. 3; else 0). The promises about these calls stand in proofs/Demands and, of those on a lent
// table, in proofs/Lent.
#![tactic(auto)]

ghost use Rattle.std.specs.Prelude.{◌≡◌};
ghost use Rattle.reference.specs.Steps.{answer_of, seen};
ghost use Rattle.reference.specs.Today.{read_leading, read_whole, answered, measured};
ghost use Rattle.reference.specs.Reader as Reader;
ghost use Rattle.reference.specs.Writer as Writer;
ghost use Rattle.reference.specs.Questions.{kind_of, tap_numbers_of, first_biop, dvb_address};
ghost use Rattle.reference.specs.Names.{read_short_name, short_at};
ghost use Rattle.reading.specs.Into as Into;
ghost use Rattle.reading.specs.Today.{ReadInto};
ghost use Rattle.writing.specs.Writes as By;
ghost use Rattle.writing.specs.Today.{Writes};
ghost use Rattle.names.specs.Writes as Short;
ghost use Rattle.ior.specs.Lent as Lent;
ghost use Rattle.ior.specs.Judged.{SoundOr};
ghost use Rattle.ior.specs.Today.{measured_from, WritesFrom};

use faults::{Unsound, sound_length, with_gap};
use reference::{
    AddressWay, Answer, NameComponent, ObjectKind, Reading, Refusal, Tables, TapNumbers,
    TypeIdRule, wrong,
};
use table::SIZE;
use writing::write_sound;

// A table of 490 numbers; crate table says which number is what.
pub const TABLE: usize = SIZE;

pub use table::FlatTable;

// The number that measuring and writing refuse a lent table with in which a number would be cut.
pub const NOT_EXACT: u8 = 255;

// An address's octets, handed over by value.
pub type AddressOctets = [u8; 20];

// ---- reading: a slice to tables

// Reads the reference that `s` begins with: how many octets it has, and its tables, whose views show `s`. Refuses with 6, then 1 to 4 as
// the octets lie, then 7 where a table is too small; a refused reading gives the empty tables.
pub fn read_leading(s: &[u8]) -> Reading
    ensures { result ≡ answered (read_leading s.now) }
{
    reading::read_leading(s)
}

// The same of a slice that is a reference as a whole: octets left over are refused with 1, place 4, before 7.
pub fn read_whole(s: &[u8]) -> Reading
    ensures { result ≡ answered (read_whole s.now) }
{
    reading::read_whole(s)
}

// The two readings into a table of 490 numbers that the caller lends: no struct is copied. An accepted reading keeps what stands behind the
// entries it fills; a refused one leaves zeros.
pub fn read_leading_into(s: &[u8], table: &mut FlatTable) -> Answer
    ensures { ReadInto (read_leading s.now) table.old table.new result }
{
    reading::read_leading_into(s, table)
}

pub fn read_whole_into(s: &[u8], table: &mut FlatTable) -> Answer
    ensures { ReadInto (read_whole s.now) table.old table.new result }
{
    reading::read_whole_into(s, table)
}

// ---- measuring and writing: tables over a source to octets

// The octets that the image of `t` over `src` has. Refuses with 6 for the source, 8 for counts, 9 for views, 10 for the image.
pub fn image_length(t: Tables, src: &[u8]) -> Answer
    ensures { result ≡ measured t src.now }
{
    writing::image_length(t, src)
}

// Writes the image of `t` over `src` at the front of `out`, and answers its length; what stands behind it stays. Refuses as measuring does,
// then with 5 for no room, 4 for a type id, 2 for a component that is too long; a refused writing changes no octet.
pub fn write(t: Tables, src: &[u8], out: &mut [u8]) -> Answer
    ensures { Writes t src.now out.old result out.new }
{
    writing::write(t, src, out)
}

// The same from a table of 490 numbers that the caller lends. No number is cut: where a used entry holds one that is wider than its field,
// or a sort that is unknown, the table is refused with 255 before all else, and no octet is changed.
pub fn length_from(table: &FlatTable, src: &[u8]) -> Answer
    ensures { result ≡ measured_from table.now src.now }
{
    length_from_by(table, src, TypeIdRule::Multiple)
}

pub fn write_from(table: &FlatTable, src: &[u8], out: &mut [u8]) -> Answer
    ensures { WritesFrom table.now src.now out.old result out.new }
{
    write_from_by(table, src, out, TypeIdRule::Multiple, AddressWay::Constants)
}

// ---- the same by a rule for type ids (document 02, No. 11), and in a way of writing an address

// Each call above is the one here at rule 1 and in the way with constants. Under rule 2 a type id may have any length, and octets FF fill up behind it to the
// next multiple of 4: a reading refuses a gap that is cut with 1, place 47, and one with another octet with 3, place 46; 4 with place 33 is not given.
pub fn read_leading_by(s: &[u8], rule: TypeIdRule) -> Reading
    ensures { result ≡ Reader.answered rule (Reader.read_leading rule s.now) }
{
    reading::read_leading_by(s, rule)
}

pub fn read_whole_by(s: &[u8], rule: TypeIdRule) -> Reading
    ensures { result ≡ Reader.answered rule (Reader.read_whole rule s.now) }
{
    reading::read_whole_by(s, rule)
}

pub fn read_leading_into_by(s: &[u8], table: &mut FlatTable, rule: TypeIdRule) -> Answer
    ensures { Into.ReadInto rule (Reader.read_leading rule s.now) table.old table.new result }
{
    reading::read_leading_into_by(s, table, rule)
}

pub fn read_whole_into_by(s: &[u8], table: &mut FlatTable, rule: TypeIdRule) -> Answer
    ensures { Into.ReadInto rule (Reader.read_whole rule s.now) table.old table.new result }
{
    reading::read_whole_into_by(s, table, rule)
}

pub fn image_length_by(t: Tables, src: &[u8], rule: TypeIdRule) -> Answer
    ensures { result ≡ Writer.measured rule t src.now }
{
    writing::image_length_by(t, src, rule)
}

pub fn write_by(t: Tables, src: &[u8], out: &mut [u8], rule: TypeIdRule, way: AddressWay) -> Answer
    ensures { By.Writes rule way t src.now out.old result out.new }
{
    writing::write_by(t, src, out, rule, way)
}

pub fn length_from_by(table: &FlatTable, src: &[u8], rule: TypeIdRule) -> Answer
    ensures { result ≡ Lent.measured_from rule table.now src.now }
{
    let total = sound(table, src.len(), rule)?;
    with_gap(table, total, rule)
}

pub fn write_from_by(
    table: &FlatTable,
    src: &[u8],
    out: &mut [u8],
    rule: TypeIdRule,
    way: AddressWay,
) -> Answer
    ensures { Lent.WritesFrom rule way table.now src.now out.old result out.new }
{
    let total = sound(table, src.len(), rule)?;
    write_sound(table, src, out, total, rule, way)
}

// The length that rule 1 measures of a sound table over a source of n octets; or the refusal under the rule: a number that would be cut has one of its own.
fn sound(table: &FlatTable, n: usize, rule: TypeIdRule) -> Answer
    ensures { SoundOr rule table.now n result }
{
    match sound_length(table, n, rule) {
        Ok(total) => Ok(total),
        Err(Unsound::NotExact) => Err(wrong(NOT_EXACT, 0)),
        Err(Unsound::Refused(why)) => Err(why),
    }
}

// ---- questions

// The kind of object that a type id's octets name; never refused.
pub fn object_kind(type_id: &[u8]) -> ObjectKind
    ensures { result ≡ kind_of type_id.now }
{
    questions::object_kind(type_id)
}

// A tap's transaction id and timeout, of its use and its selector's octets: both or neither; never refused.
pub fn tap_numbers(use_: u16, selector: &[u8]) -> Option<TapNumbers>
    ensures { result ≡ tap_numbers_of use_ selector.now }
{
    questions::tap_numbers(use_, selector)
}

// The index of the first BIOP profile, or none; 8 with place 40 if more than 8 profiles are used.
pub fn first_biop(t: Tables) -> Result<Option<usize>, Refusal>
    ensures { result ≡ first_biop t }
{
    questions::first_biop(t)
}

// Whether twenty octets are a DVB address: AFI, type, specifier type and the reserved four are those of the kind, and the specifier data is
// DVB's own organisation number, 00 01 5A. The ten other octets may be any.
pub fn is_dvb(a: AddressOctets) -> bool
    ensures { result ≡ dvb_address a }
{
    questions::is_dvb(a)
}

// ---- the name component with lengths of one octet

// Reads it from the start of `s`: its views and how many octets it has. Refuses with 6, 1 (places 26 and 27) and 2.
pub fn read_short_name(s: &[u8]) -> Result<(NameComponent, usize), Refusal>
    ensures { answer_of result ≡ seen short_at (read_short_name s.now) }
{
    names::read_short_name(s)
}

// Writes it at the front of `out`. Refuses with 6, 9, 5, then 2 for the id, then for the kind; a refused writing changes no octet.
pub fn write_short_name(name: NameComponent, src: &[u8], out: &mut [u8]) -> Answer
    ensures { Short.Writes name src.now out.old result out.new }
{
    names::write_short_name(name, src, out)
}
