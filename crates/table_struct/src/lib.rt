// The way between the tables as a struct and the lent table. Every entry goes over, used or not, so that the two are inverse
// with no talk of counts.
#![tactic(auto)]

ghost use Rattle.std.specs.Prelude.{◌≡◌, ◌≤◌, length};
ghost use Rattle.table.specs.Region.{stored, listed};
ghost use Rattle.table.specs.Flat.{tables_from, flat};

use reference::Tables;
use std::array;
use table::{EXTRAS_USED, FlatTable, NAMES_USED, PROFILES_USED, TAPS_USED, TYPE_ID, put_front};
pub use table_entries::profile_at;
use table_entries::{Entry, view_at};

// ---- out of the lent table

fn entries_of<E: Entry, const N: usize>(s: &FlatTable) -> [E; N]
    requires { N ≤ E.region.size }
    ensures { result ≡ listed N (E.told s.now) }
{
    array::from_fn(|i| E::at(s, i))
}

#[tactic(auto, unfolding(table::specs::Flat::tables_from))]
pub fn tables_of(s: &FlatTable) -> Tables
    ensures { result ≡ tables_from s.now }
{
    Tables {
        type_id: view_at(s, TYPE_ID),
        profiles_used: s[PROFILES_USED],
        taps_used: s[TAPS_USED],
        names_used: s[NAMES_USED],
        extras_used: s[EXTRAS_USED],
        profiles: entries_of(s),
        taps: entries_of(s),
        names: entries_of(s),
        extras: entries_of(s),
    }
}

// ---- into the lent table

fn put_entries<E: Entry>(all: &[E], out: &mut FlatTable)
    requires { length all.now ≡ E.region.size }
    ensures { out.new ≡ stored E.region out.old 0 all.now }
{
    for (i, one) in all.iter().enumerate() {
        one.put(out, i);
    }
}

pub fn put_tables(t: Tables, out: &mut FlatTable)
    ensures { out.new ≡ flat t }
{
    put_entries(&t.profiles, out);
    put_entries(&t.taps, out);
    put_entries(&t.names, out);
    put_entries(&t.extras, out);
    put_front(
        t.type_id,
        t.profiles_used,
        t.taps_used,
        t.names_used,
        t.extras_used,
        out,
    );
}
