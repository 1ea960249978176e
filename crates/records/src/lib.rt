// Marked records of a cache (document 01, "Cache listing"): what stands at a place, and how many octets a record's head announces.
#![tactic(auto)]

ghost use Rattle.std.specs.Prelude.{◌≡◌};
ghost use Rattle.records.specs.Records.{record_at, announced};

use octets::be16;

// The octets 4F 52 that begin a record, as a number.
const MARK: u16 = 0x4F52;

// What stands at a place of a cache: a record, whose reference begins at `start` and ends before `stop`, where the next record begins;
// a wrong mark or a cut record; or nothing, at the end.
#[derive(Clone, Copy)]
pub enum Record {
    Got { start: usize, stop: usize },
    Broken,
    End,
}

// The record whose mark stands at `at`.
pub fn record_at(file: &[u8], at: usize) -> Record
    ensures { result ≡ record_at file.now at }
{
    let end = file.len();
    if end <= at {
        return Record::End;
    }
    if end - at < 4 {
        return Record::Broken;
    }
    if be16(file, at) != MARK {
        return Record::Broken;
    }
    let n = be16(file, at + 2) as usize;
    if end - at - 4 < n {
        return Record::Broken;
    }
    Record::Got {
        start: at + 4,
        stop: at + 4 + n,
    }
}

// How many octets a record's first four announce behind them: 0 where `head` is shorter or has a wrong mark.
pub fn announced_by(head: &[u8]) -> u16
    ensures { result ≡ announced head.now }
{
    if head.len() < 4 {
        return 0;
    }
    if be16(head, 0) != MARK {
        return 0;
    }
    be16(head, 2)
}
