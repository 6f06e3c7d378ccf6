// What copying a message answers: it is read from one buffer and written, in published form, into another.
ghost use Rattle.std.specs.Prelude.{◌≡◌, [], ◌∷◌};
ghost use Rattle.xdr.specs.Meaning.Bytes.{part};
ghost use Rattle.xdr.specs.Meaning.Views.{view_marks, view_wrote};
ghost use Rattle.door.specs.Meaning.Copy.{Is, view_marking, view_copied, said_of, Span, Stands};

use xdr::order::room;
use xdr::{Marks, Refusal};

// The marks of a reading in one case, so that an answer holds them in one byte: those of no piece, of one and of two.
#[derive(Clone, Copy)]
pub enum Marking {
    None,
    Clean,
    Dirty,
    BothClean,
    SecondDirty,
    FirstDirty,
    BothDirty,
}

fn of_one(a: bool) -> Marking
    ensures { view_marking result ≡ a ∷ [] }
{
    if a { Marking::Clean } else { Marking::Dirty }
}

fn of_two(a: bool, b: bool) -> Marking
    ensures { view_marking result ≡ a ∷ b ∷ [] }
{
    if a {
        if b {
            Marking::BothClean
        } else {
            Marking::SecondDirty
        }
    } else {
        if b {
            Marking::FirstDirty
        } else {
            Marking::BothDirty
        }
    }
}

impl Marking {
    pub(crate) fn of(marks: Marks) -> Marking
        ensures { view_marking result ≡ view_marks marks }
    {
        match marks {
            Marks::None => Marking::None,
            Marks::One(a) => of_one(a),
            Marks::Two(a, b) => of_two(a, b),
        }
    }

    pub fn marks(self) -> Marks
        ensures { view_marks result ≡ view_marking self }
    {
        match self {
            Marking::None => Marks::None,
            Marking::Clean => Marks::One(true),
            Marking::Dirty => Marks::One(false),
            Marking::BothClean => Marks::Two(true, true),
            Marking::SecondDirty => Marks::Two(true, false),
            Marking::FirstDirty => Marks::Two(false, true),
            Marking::BothDirty => Marks::Two(false, false),
        }
    }
}

#[derive(Clone, Copy)]
pub enum Copied {
    // The kind has no such number.
    Unknown,
    // The reading was refused.
    Unread(Refusal),
    // The reading was taken, and the writing refused: the refusal, the place after what was read, whether that was in published form, and the
    // marks of its pieces.
    Unwritten {
        refusal: Refusal,
        next: usize,
        plain: bool,
        marks: Marking,
    },
    // The place after what was read, whether that was in published form, the place after what was written, and the marks of the pieces. They
    // come last: who does not ask for them then pays nothing for them.
    Done {
        next: usize,
        plain: bool,
        end: usize,
        marks: Marking,
    },
}

// The answer of a reading that was taken, by what its writer says.
pub(crate) fn copied_to(next: usize, plain: bool, marks: Marks, w: Result<usize, Refusal>) -> Copied
    ensures { Is (said_of next plain (view_marks marks)) (view_wrote w) (view_copied result) }
{
    let marks = Marking::of(marks);
    match w {
        Err(r) => Copied::Unwritten {
            refusal: r,
            next,
            plain,
            marks,
        },
        Ok(end) => Copied::Done {
            next,
            plain,
            end,
            marks,
        },
    }
}

// The bytes from a place up to the next, written as they stand: 9, then 5. What came in published form is its own rewriting.
pub(crate) fn write_span(
    src: &[u8],
    at: usize,
    next: usize,
    out: &mut [u8],
    start: usize,
) -> Result<usize, Refusal>
    requires { Span src.now at next }
    ensures { Stands (part src.now at next) start out.old (view_wrote result) out.new }
{
    let end = room(out.len(), start, next - at)?;
    let part = &src[at..next];
    out[start..end].copy_from_slice(part);
    Ok(end)
}
