// The parts of a line.
use crate::make;
use std::io::{Stderr, Stdout};
use stdio::Printer;
use xdr::Refusal;

// Standard output.
pub(crate) type Page = Printer<Stdout, Stderr, 4096>;

// A number, with a space in front.
pub(crate) fn number(page: &mut Page, n: usize) {
    page.say(b" ");
    page.number(n as u64);
}

pub(crate) fn numbers(page: &mut Page, all: &[usize]) {
    for &n in all {
        number(page, n);
    }
}

// A refusal: its number, its place where it has one, and how many bytes it wants where it wants any.
pub(crate) fn refusal(page: &mut Page, r: Refusal) {
    page.say(b" refused");
    number(page, r.number() as usize);
    match r {
        Refusal::Ended { place, wanting } => numbers(page, &[place, wanting]),
        Refusal::Undeclared(place) => number(page, place),
        _ => {}
    }
}

pub(crate) fn written(page: &mut Page, w: Result<usize, Refusal>) {
    match w {
        Ok(next) => {
            page.say(b" wrote");
            number(page, next);
        }
        Err(r) => refusal(page, r),
    }
}

// The end of a line: the digest of what a buffer then holds.
pub(crate) fn end(page: &mut Page, buf: &[u8]) {
    page.say(b" ");
    page.number(make::digest(buf));
    page.say(b"\n");
}
