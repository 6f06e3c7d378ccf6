// Bytes in hex: two digits a byte, the high one first, and `-` for none.
ghost use Rattle.std.specs.Prelude.{◌≡◌, Bool, true, false, ◌+◌, ◌*◌, ◌≤◌, ◌<◌, length, take, drop, IfSome, IsNone};
ghost use Rattle.text.specs.Hex.{glyph_of, digit_of, Digits, Pairs, Spells, Unhexes};

// The character of a digit below 16, in lower case; `?` for any other number.
pub fn glyph(d: u8) -> u8
    ensures { result ≡ glyph_of d }
{
    match d {
        0..=9 => b'0' + d,
        10..=15 => b'a' + (d - 10),
        _ => b'?',
    }
}

// What a digit in either case stands for.
fn value(c: u8) -> Option<u8>
    ensures some { IfSome result (λ v. (v ≡ digit_of c) × (v < 16)) }
    ensures none { IsNone result → digit_of c ≡ 16 }
{
    match c {
        b'0'..=b'9' => Some(c - b'0'),
        b'A'..=b'F' => Some(c - b'A' + 10),
        b'a'..=b'f' => Some(c - b'a' + 10),
        _ => None,
    }
}

// Whether every character of a word is a digit.
pub fn are_digits(word: &[u8]) -> bool
    ensures { Digits word.now result }
{
    word.iter().all(|c| c.is_ascii_hexdigit())
}

// The byte that two digits spell. (Each has a value, so no 0 is taken. With `unwrap` the compiler doesn't put many bytes at once.)
fn byte(high: u8, low: u8) -> u8
    requires high { digit_of high < 16 }
    requires low { digit_of low < 16 }
    ensures { result ≡ digit_of high * 16 + digit_of low }
{
    value(high).unwrap_or(0) * 16 + value(low).unwrap_or(0)
}

// Puts the bytes that pairs of digits spell at the front of a buffer.
fn put(word: &[u8], n: usize, out: &mut [u8])
    requires pairs { Pairs word.now n }
    requires n_in_bounds { n ≤ length out.old }
    ensures spells { Spells word.now (take n out.new) }
    ensures out_unchanged { drop n out.new ≡ drop n out.old }
{
    for i in 0..n {
        out[i] = byte(word[i * 2], word[i * 2 + 1]);
    }
}

// Puts the bytes that a word spells at the front of a buffer, and answers how many; or that it spells none for which there is room. All is
// tested before anything is written.
pub fn unhex(word: &[u8], out: &mut [u8]) -> Option<usize>
    ensures { Unhexes word.now out.old result out.new }
{
    if word == b"-".as_slice() {
        return Some(0);
    }
    let n = word.len() / 2;
    if word.is_empty() || word.len() % 2 == 1 || out.len() < n || !are_digits(word) {
        return None;
    }
    put(word, n, out);
    Some(n)
}
