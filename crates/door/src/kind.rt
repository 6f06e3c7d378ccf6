// A kind of message, as copying it needs: how it is read and marked, and how it is written anew if it can be loose. What copying, judging and
// rewriting mean is proved once for the kinds that can be, and once for those that cannot.
ghost use Rattle.std.specs.Prelude.{◌≡◌, Bool, true, ℕ, List};
ghost use Rattle.xdr.specs.Meaning.Answer.{took};
ghost use Rattle.xdr.specs.Meaning.Public.{Answers, Writes};
ghost use Rattle.xdr.specs.Meaning.Marks.{MarksAre};
ghost use Rattle.xdr.specs.Meaning.Views.{view, view_marks, view_wrote};
ghost use Rattle.door.specs.Meaning.Copy as copies;
ghost use Rattle.door.specs.Meaning.Copy.{view_copied, Copies};
ghost use Rattle.door.specs.Meaning.Kinds.{kinds, CopiesOf};
ghost use Rattle.door.specs.Laws.Copy.{Was};

use crate::copy::{Copied, copied_to, write_span};
use xdr::{Marks, Refusal, Took};

pub(crate) trait Kind {
    // What the code holds of a message.
    type Value: Copy;

    ghost number: { ℕ };

    ghost held: { copies.Holding Self.Value };

    fn read(src: &[u8], at: usize) -> Result<Took<Self::Value>, Refusal>
        ensures { Answers held.format src.now at (view result) };

    fn marks(x: Self::Value) -> Marks
        ensures { MarksAre held.format x (view_marks result) };

    // It stands in the list of kinds under its number.
    ghost listed: { (s : List ℕ) (at start : ℕ) (o : List ℕ) (c : copies.Copy) (o' : List ℕ) → Copies held.format s at start o c o' → CopiesOf kinds number s at start o c o' };
}

// A kind that has loose forms.
pub(crate) trait Loose: Kind {
    // Writes what was read of the same source.
    fn write(src: &[u8], x: Self::Value, out: &mut [u8], at: usize) -> Result<usize, Refusal>
        requires { Was Self.held.format src.now x }
        ensures { Writes Self.held.format src.now x at out.old (view_wrote result) out.new };
}

// A kind that has none. It needs no writer.
pub(crate) trait Plain: Kind {
    // What is read of it came in published form.
    ghost plain: { (s : List ℕ) (p : ℕ) (x : Self.Value) (n : ℕ) (b : Bool) → Answers Self.held.format s p (took x n b) → b ≡ true };
}

// Reads a message from a place of one buffer and writes it, in published form, from a place of another. What came in that form is copied as it
// stands.
pub(crate) fn copy<K: Loose>(src: &[u8], at: usize, out: &mut [u8], start: usize) -> Copied
    ensures { Copies K.held.format src.now at start out.old (view_copied result) out.new }
{
    match K::read(src, at) {
        Err(r) => Copied::Unread(r),
        Ok(x) => {
            let marks = K::marks(x.value);
            if x.plain {
                return copied_to(
                    x.next,
                    x.plain,
                    marks,
                    write_span(src, at, x.next, out, start),
                );
            }
            copied_to(x.next, x.plain, marks, K::write(src, x.value, out, start))
        }
    }
}

// The same of a kind without loose forms: whatever was read is copied as it stands.
pub(crate) fn copy_plain<K: Plain>(src: &[u8], at: usize, out: &mut [u8], start: usize) -> Copied
    ensures { Copies K.held.format src.now at start out.old (view_copied result) out.new }
{
    match K::read(src, at) {
        Err(r) => Copied::Unread(r),
        Ok(x) => {
            let w = write_span(src, at, x.next, out, start);
            copied_to(x.next, true, K::marks(x.value), w)
        }
    }
}
