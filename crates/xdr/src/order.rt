// What public readers and writers test first, in the order of docs/SCOPE.md (Refusals); the layers above use the same tests.
ghost use Rattle.std.specs.Prelude.{◌≡◌, true};
ghost use Rattle.xdr.specs.Meaning.Answer.{opened, took};
ghost use Rattle.xdr.specs.Meaning.Views.{view_opening, view_wrote};
ghost use Rattle.xdr.specs.Meaning.Order.{roomed, placing};
ghost use Rattle.xdr.specs.Meaning.Sources.{longer};

use crate::MOST;
use crate::refusal::Refusal;

// A reader: 3, then 9.
pub fn open_at(src: &[u8], at: usize) -> Result<(), Refusal>
    ensures { view_opening at result ≡ opened src.now at (took tt at true) }
{
    if MOST < src.len() {
        return Err(Refusal::TooLong);
    }
    if src.len() < at {
        return Err(Refusal::PastEnd);
    }
    Ok(())
}

// A writer of `size` bytes that have no source: 9, then 5.
pub fn room(len: usize, at: usize, size: usize) -> Result<usize, Refusal>
    ensures { view_wrote result ≡ roomed len at size }
{
    if len < at {
        return Err(Refusal::PastEnd);
    }
    if len - at < size {
        return Err(Refusal::NoRoom { needed: size });
    }
    Ok(at + size)
}

// The longer of two lengths: of the sources of a message whose pieces lie in two.
pub fn longer(a: usize, b: usize) -> usize
    ensures { result ≡ longer a b }
{
    a.max(b)
}

// Any writer: 9, 3 for the source, 4, 3 for the encoding, 5.
pub fn place(
    source: usize,
    inside: bool,
    size: usize,
    room: usize,
    at: usize,
) -> Result<usize, Refusal>
    ensures { view_wrote result ≡ placing source inside size room at }
{
    if room < at {
        return Err(Refusal::PastEnd);
    }
    if MOST < source {
        return Err(Refusal::TooLong);
    }
    if !inside {
        return Err(Refusal::Outside);
    }
    if MOST < size {
        return Err(Refusal::TooLong);
    }
    if room - at < size {
        return Err(Refusal::NoRoom { needed: size });
    }
    Ok(at + size)
}
