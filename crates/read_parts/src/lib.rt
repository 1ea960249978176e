// What the two profile bodies share: the order octet and the component count, a component's header, a run of octets behind its length, a name
// (the 8-bit name is one, too), extra components, and how a run of entries is read into a lent table. A reader looks at d[pos..end]; `base` says
// where d stands in the caller's slice, and is added to views only, so that the figures of a refusal count from the start of d.
#![tactic(auto)]

ghost use Rattle.std.specs.Prelude.{ℕ, ◌≡◌, ◌+◌, ◌≤◌, List, length, IfOk};
ghost use Rattle.reference.specs.Reader.{read_extra, read_fixed, read_named, read_run};
ghost use Rattle.reference.specs.Heads.{read_part};
ghost use Rattle.reference.specs.Meaning.{Extra};
ghost use Rattle.reference.specs.Layout.{layout_extra};
ghost use Rattle.reference.specs.Steps.{Reader, answer_of, many, ending, seen};
ghost use Rattle.reference.specs.Placed.{extra_at, view};
ghost use Rattle.read_parts.specs.Told.{fixed_told, named_at, part_told, Moves, Stores, StoresExtras};

use octets::{be32, number_at, octet};
use reference::{
    LiteComponent, NameComponent, Refusal, View, cut, left_over, too_long, view_of, wrong_value,
};
use table::{Counts, FlatTable};
use table_entries::Entry;

// The order octet and the component count, which is at least `least`; the places of a cut, of the order octet and of the count.
pub fn read_fixed(d: &[u8], least: usize, place: u8, order: u8, range: u8) -> Result<usize, Refusal>
    ensures { fixed_told result ≡ read_fixed least place order range d.now 0 (length d.now) }
{
    let end = d.len();
    if end < 2 {
        return Err(cut(place, 0, 2, end));
    }
    let first = octet(d, 0);
    if first != 0 {
        return Err(wrong_value(3, order, 0));
    }
    let count = octet(d, 1) as usize;
    if count < least {
        return Err(wrong_value(4, range, 1));
    }
    Ok(count)
}

// The header at `pos` of a component that must bear the tag, and whose length has W octets: where the data behind it ends. The places are
// those of a cut header and of a wrong tag.
pub fn read_component<const W: usize>(
    d: &[u8],
    pos: usize,
    tag: u32,
    header: u8,
    spot: u8,
) -> Result<usize, Refusal>
    requires { (W ≤ 4) × (pos ≤ 65535) }
    ensures { part_told W pos result ≡ read_part W tag header spot d.now pos (length d.now) }
{
    let end = d.len();
    let size = 4 + W;
    let data = pos + size;
    if end < data {
        return Err(cut(header, pos, size, end));
    }
    let found = be32(d, pos);
    if found != tag {
        return Err(wrong_value(3, spot, pos));
    }
    let len = number_at::<W>(d, pos + 4) as usize;
    if end - data < len {
        return Err(too_long(data, len, end));
    }
    Ok(data + len)
}

// A run of octets behind its length of W octets; `place` is that of the length.
pub fn read_run<const W: usize>(
    d: &[u8],
    base: usize,
    pos: usize,
    end: usize,
    place: u8,
) -> Result<(View, usize), Refusal>
    requires { (W ≤ 4) × (pos ≤ end) × (end ≤ length d.now) × (base + length d.now ≤ 65535) }
    ensures { answer_of result ≡ seen (view (base + pos + W)) (read_run W place d.now pos end) }
{
    let start = pos + W;
    if end < start {
        return Err(cut(place, pos, W, end));
    }
    let len = number_at::<W>(d, pos) as usize;
    if end - start < len {
        return Err(too_long(start, len, end));
    }
    Ok((view_of(base, start, len), start + len))
}

// A name whose lengths have W octets; the places are those of the lengths.
pub fn read_named<const W: usize>(
    d: &[u8],
    base: usize,
    pos: usize,
    end: usize,
    id_place: u8,
    kind_place: u8,
) -> Result<(NameComponent, usize), Refusal>
    requires { (W ≤ 4) × (pos ≤ end) × (end ≤ length d.now) × (base + length d.now ≤ 65535) }
    ensures { answer_of result ≡ seen (named_at W (base + pos)) (read_named W id_place kind_place d.now pos end) }
{
    let (id, mid) = read_run::<W>(d, base, pos, end, id_place)?;
    let (kind, next) = read_run::<W>(d, base, mid, end, kind_place)?;
    Ok((NameComponent { id, kind }, next))
}

// A component with any tag; `place` is that of its header.
pub fn read_extra(
    d: &[u8],
    base: usize,
    pos: usize,
    end: usize,
    place: u8,
) -> Result<(LiteComponent, usize), Refusal>
    requires { (pos ≤ end) × (end ≤ length d.now) × (base + length d.now ≤ 65535) }
    ensures { answer_of result ≡ seen (extra_at (base + pos)) (read_extra place d.now pos end) }
{
    let data = pos + 5;
    if end < data {
        return Err(cut(place, pos, 5, end));
    }
    let len = octet(d, pos + 4) as usize;
    if end - data < len {
        return Err(too_long(data, len, end));
    }
    let extra = LiteComponent {
        tag: be32(d, pos),
        data: view_of(base, data, len),
    };
    Ok((extra, data + len))
}

// A sort of entries that follow one another: how the next one is read.
pub trait Entries {
    type Entry: Entry;

    // What a reference means by one, how that is read and laid out, and the entry that it becomes at an offset.
    ghost Meaning: { Type 0 };

    ghost reader: { Self → Reader Meaning };

    ghost layout: { Meaning → List ℕ };

    ghost placed: { ℕ → Meaning → Self.Entry };

    fn read(
        &self,
        d: &[u8],
        base: usize,
        pos: usize,
        end: usize,
    ) -> Result<(Self::Entry, usize), Refusal>
        requires { (pos ≤ end) × (end ≤ length d.now) × (base + length d.now ≤ 65535) }
        ensures told { answer_of result ≡ seen (placed (base + pos)) (reader self.now d.now pos end) }
        ensures moves { Moves (reader self.now) layout d.now pos end };
}

// n entries, the first of which becomes entry `first` of the table. One past the table's end is counted and not stored.
pub fn read_entries<S: Entries>(
    sort: &S,
    d: &[u8],
    base: usize,
    pos: usize,
    end: usize,
    n: usize,
    table: &mut FlatTable,
    first: usize,
) -> Result<usize, Refusal>
    requires { (pos ≤ end) × (end ≤ length d.now) × (base + length d.now ≤ 65535) × (first + n ≤ 0x200000000) }
    ensures stores { Stores S.Entry.region S.placed S.layout (base + pos) table.old first (many n (S.reader sort.now) d.now pos end) table.new result }
    ensures inside { IfOk result (λ last. last ≤ end) }
{
    let mut cur = pos;
    for i in 0..n {
        let (entry, next) = sort.read(d, base, cur, end)?;
        let k = first + i;
        if k < S::Entry::MOST {
            entry.put(table, k);
        }
        cur = next;
    }
    Ok(cur)
}

// The same of entries that must reach the end; `left` is the place of what is left over.
pub fn read_entries_whole<S: Entries>(
    sort: &S,
    d: &[u8],
    base: usize,
    pos: usize,
    end: usize,
    n: usize,
    left: u8,
    table: &mut FlatTable,
    first: usize,
) -> Result<usize, Refusal>
    requires { (pos ≤ end) × (end ≤ length d.now) × (base + length d.now ≤ 65535) × (first + n ≤ 0x200000000) }
    ensures { Stores S.Entry.region S.placed S.layout (base + pos) table.old first (ending left (many n (S.reader sort.now)) d.now pos end) table.new result }
{
    let last = read_entries(sort, d, base, pos, end, n, table, first)?;
    if last != end {
        return Err(left_over(left, last, end));
    }
    Ok(last)
}

// Extra components; `place` is that of a header.
#[derive(Clone, Copy)]
pub struct ExtraEntries {
    pub place: u8,
}

impl Entries for ExtraEntries {
    type Entry = LiteComponent;

    ghost Meaning = { Extra };

    ghost reader = { λ s. read_extra s.place };

    ghost layout = { layout_extra };

    ghost placed = { extra_at };

    fn read(
        &self,
        d: &[u8],
        base: usize,
        pos: usize,
        end: usize,
    ) -> Result<(LiteComponent, usize), Refusal> {
        read_extra(d, base, pos, end, self.place)
    }
}

// n extras, which end the profile's data and become entries `first`, .. of the table; `place` is that of a header, `left` that of what
// is left over.
pub fn read_extras(
    d: &[u8],
    base: usize,
    pos: usize,
    n: usize,
    place: u8,
    left: u8,
    table: &mut FlatTable,
    first: usize,
) -> Result<usize, Refusal>
    requires { (pos ≤ length d.now) × (base + length d.now ≤ 65535) × (first + n ≤ 0x200000000) }
    ensures { StoresExtras (base + pos) table.old first (ending left (many n (read_extra place)) d.now pos (length d.now)) table.new result }
{
    read_entries_whole(
        &ExtraEntries { place },
        d,
        base,
        pos,
        d.len(),
        n,
        left,
        table,
        first,
    )
}
