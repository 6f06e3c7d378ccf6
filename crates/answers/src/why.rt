// Why a line is not understood.
use crate::print::Page;

// A word that is none of those that may stand in its place, or what else is wrong with the line.
#[derive(Clone, Copy)]
pub(crate) enum Why<'a> {
    Question(&'a [u8]),
    Kind(&'a [u8]),
    Number(&'a [u8]),
    Mark(&'a [u8]),
    Bytes(&'a [u8]),
    // No name is listed without a kind of its number.
    NoKind,
    MoreWords,
    Room,
    LongLine,
}

impl<'a> Why<'a> {
    // An answer of `?`, a space and the reason.
    pub(crate) fn print(self, page: &mut Page) {
        page.say(b"? ");
        match self {
            Why::Question(word) => wrong(page, word, b"an empty line", b"no question named "),
            Why::Kind(word) => wrong(page, word, b"a kind is missing", b"no kind named "),
            Why::Number(word) => wrong(page, word, b"a number is missing", b"not a number: "),
            Why::Mark(word) => wrong(page, word, b"a mark is missing", b"neither 0 nor 1: "),
            Why::Bytes(word) => wrong_bytes(page, word),
            Why::NoKind => page.say(b"no such kind"),
            Why::MoreWords => page.say(b"more words than the line takes"),
            Why::Room => page.say(b"room for more than 1048576 bytes"),
            Why::LongLine => page.say(b"the line has more than 2200000 characters"),
        }
    }
}

// The word is missing, which an empty one counts as, or it is a wrong one.
fn wrong(page: &mut Page, word: &[u8], missing: &[u8], reason: &[u8]) {
    if word.is_empty() {
        page.say(missing);
        return;
    }
    page.say(reason);
    show(page, word);
}

// Characters are looked at before they are counted.
fn wrong_bytes(page: &mut Page, word: &[u8]) {
    if word.is_empty() || !text::are_digits(word) {
        wrong(page, word, b"bytes are missing", b"not hex: ");
    } else if word.len() % 2 == 1 {
        page.say(b"odd number of hex digits");
    } else {
        page.say(b"more than 1100000 bytes");
    }
}

// The first 32 characters of a word. A dot stands for one that cannot be seen.
fn show(page: &mut Page, word: &[u8]) {
    for &c in word.iter().take(32) {
        page.say(&[if c.is_ascii_graphic() { c } else { b'.' }]);
    }
}
