// Document 01's places in words, for the lines that people read.
#![tactic(auto)]

ghost use Rattle.std.specs.Prelude.{◌+◌, ◌≤◌, length};
ghost use Rattle.text.specs.Written.{Written};
ghost use Rattle.place_words.specs.Words.{place_text};

use text::put_word;

// The words of each place from 0 on. Place 0 is what a length announced; 37 to 39 are no places.
const WORDS: [&str; 44] = [
    "data",
    "reference fixed fields",
    "profile count",
    "profile header",
    "reference leftover",
    "BIOP fixed fields",
    "ObjectLocation header",
    "ObjectLocation fixed fields",
    "ObjectLocation leftover",
    "ConnBinder header",
    "tap count",
    "tap fixed fields",
    "ConnBinder leftover",
    "BIOP extra header",
    "BIOP leftover",
    "LiteOptions fixed fields",
    "ServiceLocation header",
    "address length",
    "address",
    "name count",
    "id length",
    "kind length",
    "context length",
    "ServiceLocation leftover",
    "LiteOptions extra header",
    "LiteOptions leftover",
    "8-bit id length",
    "8-bit kind length",
    "BIOP order octet",
    "ObjectLocation tag",
    "ConnBinder tag",
    "LiteOptions order octet",
    "ServiceLocation tag",
    "type id length",
    "BIOP component count",
    "LiteOptions component count",
    "address length",
    "",
    "",
    "",
    "table of profiles",
    "table of taps",
    "table of names",
    "table of extras",
];

// The words of a place; nothing for a number that is none.
pub fn put_place(out: &mut [u8], at: usize, place: u8) -> usize
    requires { at + 27 ≤ length out.old }
    ensures { Written out.old at 27 (place_text place) out.new result }
{
    let i = place as usize;
    if WORDS.len() <= i {
        return at;
    }
    let words = WORDS[i].as_bytes();
    put_word(out, at, words)
}
