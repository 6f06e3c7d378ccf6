// What is said of a failure.
ghost use Rattle.std.specs.Prelude.{◌≤◌, length};

use crate::output::complain;
use std::io::{Cursor, Error, Write};

// Where the library says an error's number, which is not said again: ` (os error 28)` stands behind the C library's words.
fn words_end(text: &[u8]) -> usize
    ensures { result ≤ length text.now }
{
    let number = b" (os error ".as_slice();
    text.windows(number.len())
        .position(|part| part == number)
        .unwrap_or(text.len())
}

// Says on standard error what failed, and why. (A message of the C library's has a fraction of this room.)
pub(crate) fn fail<E: Write>(errors: &mut E, what: &str, why: &Error) {
    let mut line = Cursor::new([0u8; 512]);
    let Ok(()) = write!(line, "{what}: {why}") else {
        return complain(errors, what.as_bytes());
    };
    let count = line.position() as usize;
    let mut text = line.into_inner();
    if text.len() <= count {
        return complain(errors, &text);
    }
    let end = words_end(&text[..count]);
    text[end] = b'\n';
    complain(errors, &text[..end + 1]);
}
