// The parts of an answer.
use std::io::{Stderr, Stdout};
use stdio::Printer;
use xdr::Refusal;

// Standard output.
pub(crate) type Page = Printer<Stdout, Stderr, 65536>;

// A number, with a space in front.
pub(crate) fn number(page: &mut Page, n: usize) {
    page.say(b" ");
    page.number(n as u64);
}

pub(crate) fn numbers(page: &mut Page, all: &[usize]) {
    for &n in all {
        number(page, n);
    }
}

// A yes or no, with a space in front.
pub(crate) fn mark(page: &mut Page, yes: bool) {
    number(page, yes as usize);
}

// Bytes in hex, with a space in front. They are said in parts, since to say each byte alone takes longer.
pub(crate) fn hex(page: &mut Page, bytes: &[u8]) {
    page.say(b" ");
    if bytes.is_empty() {
        page.say(b"-");
    }
    for part in bytes.chunks(32) {
        let mut digits = [0u8; 64];
        for i in 0..part.len() {
            digits[2 * i] = text::glyph(part[i] / 16);
            digits[2 * i + 1] = text::glyph(part[i] % 16);
        }
        page.say(&digits[..2 * part.len()]);
    }
}

// What stands between two answers to one line.
pub(crate) fn parting(page: &mut Page) {
    page.say(b"; ");
}

// A refusal: its number, its place where it has one, and how many bytes it wants where it wants any.
pub(crate) fn refusal(page: &mut Page, r: Refusal) {
    page.say(b"refused");
    number(page, r.number() as usize);
    match r {
        Refusal::Ended { place, wanting } => numbers(page, &[place, wanting]),
        Refusal::Undeclared(place) | Refusal::LongPath(place) => number(page, place),
        _ => {}
    }
}

// What a writing left in a buffer: the place behind it, or a refusal.
pub(crate) fn written(page: &mut Page, w: Result<usize, Refusal>, buf: &[u8]) {
    match w {
        Ok(next) => {
            page.say(b"wrote");
            number(page, next);
        }
        Err(r) => refusal(page, r),
    }
    hex(page, buf);
}
