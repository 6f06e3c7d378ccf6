// Which piece of a message was dirty: the marks of what is read of a kind, told as figures.
ghost use Rattle.std.specs.Prelude.{cond, ◌∷◌, ◌≤◌, length};
ghost use Rattle.door.specs.Meaning.Copy.{view_marking, view_copied};
ghost use Rattle.door.specs.Meaning.Figures.{Shown, Says};
ghost use Rattle.door.specs.Meaning.Exports.{size_code, judged_code};
ghost use Rattle.door.specs.Meaning.Marks.{mark_figures, unmade_figures, marks_figures, MarksCalled};

use crate::copy::{Copied, Marking};
use crate::exports::{SHORT_LIST, UNKNOWN_KIND};
use crate::figures::{bit, put_figures};
use crate::kinds::copy_kind;
use xdr::{Marks, Refusal};

// The place after what was read, 1 if that was in published form and else 0, how many pieces it has, and of the first and the second 1 if its
// padding was all zero, and else 0.
fn put_marks(next: usize, plain: bool, marking: Marking, info: &mut [u64])
    requires { 5 ≤ length info.old }
    ensures { Shown (next ∷ cond plain 1 0 ∷ mark_figures (view_marking marking)) info.old info.new }
{
    let p = bit(plain);
    match marking.marks() {
        Marks::None => put_figures(&[next as u64, p, 0], 2, info),
        Marks::One(a) => put_figures(&[next as u64, p, 1, bit(a)], 1, info),
        Marks::Two(a, b) => put_figures(&[next as u64, p, 2, bit(a), bit(b)], 0, info),
    }
}

// The rewriting was refused: for lack of room alone (5), and then the reading was taken; or otherwise, and then so are the marks.
fn tell_unmade(r: Refusal, next: usize, plain: bool, marks: Marking, info: &mut [u64]) -> u32
    requires { 5 ≤ length info.old }
    ensures { Says size_code (unmade_figures next plain (view_marking marks)) r info.old result info.new }
{
    let number = r.number();
    if number != 5 {
        put_figures(&[], 5, info);
        return number;
    }
    put_marks(next, plain, marks, info);
    0
}

fn tell_marks(c: Copied, info: &mut [u64]) -> u32
    requires { 5 ≤ length info.old }
    ensures { Says judged_code marks_figures (view_copied c) info.old result info.new }
{
    match c {
        Copied::Unknown => {
            put_figures(&[], 5, info);
            UNKNOWN_KIND
        }
        Copied::Unread(r) => {
            put_figures(&[r.place() as u64, r.wanting() as u64], 3, info);
            r.number()
        }
        Copied::Unwritten {
            refusal,
            next,
            plain,
            marks,
        } => tell_unmade(refusal, next, plain, marks, info),
        Copied::Done {
            next,
            plain,
            end: _,
            marks,
        } => {
            put_marks(next, plain, marks, info);
            0
        }
    }
}

// Reads a message of a kind from place `at` of src, as judging does. 0: info holds the place after what was read, 1 if that was in published
// form and else 0, how many pieces it has, and their marks. A refusal: its place, how many bytes it wants, and zeros.
pub fn yugerzat_marks(kind: u32, src: &[u8], at: usize, info: &mut [u64]) -> u32
    ensures { MarksCalled kind src.now at info.old result info.new }
{
    if info.len() < 5 {
        return SHORT_LIST;
    }
    let mut none: [u8; 1] = [0];
    let c = copy_kind(kind, src, at, &mut none[0..0], 0);
    tell_marks(c, info)
}
