// Text in ASCII, put into a lent slice: each function stores at `at` and answers the position after what it stored. Text knows no reference.
#![tactic(auto)]

ghost use Rattle.std.specs.Prelude.{◌≡◌, [], ◌∷◌, ◌+◌, ◌*◌, ◌≤◌, ◌<◌, length};
ghost use Rattle.octets.specs.Octets.{octets};
ghost use Rattle.octets.specs.Put.{Put};
ghost use Rattle.text.specs.Text.{decimal, glyph, hex, hexes};
ghost use Rattle.text.specs.Written.{Written};

use octets::{copy, put_run};

pub fn put_octet(out: &mut [u8], at: usize, c: u8) -> usize
    requires { at < length out.old }
    ensures { Put out.old at 1 (c ∷ []) out.new result }
{
    put_run(out, at, [c])
}

// The octets of a word as they stand.
pub fn put_word(out: &mut [u8], at: usize, word: &[u8]) -> usize
    requires { at + length word.now ≤ length out.old }
    ensures { Put out.old at (length word.now) word.now out.new result }
{
    copy(word, 0, word.len(), out, at)
}

fn put_digits(out: &mut [u8], at: usize, v: u64) -> usize
    requires { at + length (decimal v) ≤ length out.old }
    ensures { Put out.old at (length (decimal v)) (decimal v) out.new result }
{
    if v < 10 {
        return put_octet(out, at, b'0' + v as u8);
    }
    let next = put_digits(out, at, v / 10);
    put_octet(out, next, b'0' + (v % 10) as u8)
}

// The decimal digits of v, with no zero in front.
pub fn put_decimal(out: &mut [u8], at: usize, v: u64) -> usize
    requires { at + 20 ≤ length out.old }
    ensures { Written out.old at 20 (decimal v) out.new result }
{
    put_digits(out, at, v)
}

// A space and the decimal digits of v.
pub fn put_spaced(out: &mut [u8], at: usize, v: u64) -> usize
    requires { at + 21 ≤ length out.old }
    ensures { Written out.old at 21 (32 ∷ decimal v) out.new result }
{
    let next = put_octet(out, at, b' ');
    put_decimal(out, next, v)
}

fn digit(v: u8) -> u8
    requires { v < 16 }
    ensures { result ≡ glyph v }
{
    if v < 10 { b'0' + v } else { b'a' - 10 + v }
}

// Two lowercase hexadecimal digits.
pub fn put_hex(out: &mut [u8], at: usize, v: u8) -> usize
    requires { at + 2 ≤ length out.old }
    ensures { Put out.old at 2 (hex v) out.new result }
{
    put_run(out, at, [digit(v / 16), digit(v % 16)])
}

// The hexadecimal digits of each octet of `s`.
pub fn put_hexes(out: &mut [u8], at: usize, s: &[u8]) -> usize
    requires { at + 2 * length s.now ≤ length out.old }
    ensures { Put out.old at (2 * length s.now) (hexes s.now) out.new result }
{
    let mut next = at;
    for v in s {
        next = put_hex(out, next, *v);
    }
    next
}

// Eight lowercase hexadecimal digits: the four octets of v.
pub fn put_hex32(out: &mut [u8], at: usize, v: u32) -> usize
    requires { at + 8 ≤ length out.old }
    ensures { Put out.old at 8 (hexes (octets 4 v)) out.new result }
{
    put_hexes(out, at, &v.to_be_bytes())
}
