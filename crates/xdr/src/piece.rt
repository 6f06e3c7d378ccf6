// Pieces: what is held of the bytes inside a message.
ghost use Rattle.std.specs.Prelude.{◌≡◌, [], ◌∷◌};
ghost use Rattle.xdr.specs.Meaning.Pieces.{Part, part_of, part_place, is_inside, words_part_of, words_place, are_inside, word_of};
ghost use Rattle.xdr.specs.Meaning.Views.{view_option, view_marks};

use crate::number::word_here;

// A part of a message: the place of its first byte, and how many bytes it has, or words where it is a word list. `clean` is the mark that a
// reader sets: whether the padding behind it was all zero. It is no part of what the piece means, and a writer does not look at it.
#[derive(Clone, Copy)]
pub struct Piece {
    pub at: usize,
    pub count: usize,
    pub clean: bool,
}

// The marks of a value's pieces, in the order of its fields. No value has more than two.
#[derive(Clone, Copy)]
pub enum Marks {
    None,
    One(bool),
    Two(bool, bool),
}

impl Piece {
    pub fn marks(self) -> Marks
        ensures { view_marks result ≡ self.clean ∷ [] }
    {
        Marks::One(self.clean)
    }
}

// Whether a piece lies inside a message, for every place and count.
pub fn inside(src: &[u8], x: Piece) -> bool
    ensures { result ≡ is_inside src.now x }
{
    x.count <= src.len() && x.at <= src.len() - x.count
}

// The part of a message that a piece is: the empty part at the start where it does not lie inside.
pub fn part(src: &[u8], x: Piece) -> &[u8]
    ensures { Part src.entry.ref_ptr (part_of src.now x) (part_place src.now x) result.ref_ptr result.now }
{
    if !inside(src, x) {
        return &src[..0];
    }
    let end = x.at + x.count;
    &src[x.at..end]
}

// Whether a word list's piece lies inside a message.
pub fn words_inside(src: &[u8], x: Piece) -> bool
    ensures { result ≡ are_inside src.now x }
{
    x.count <= src.len() / 4 && x.at <= src.len() - x.count * 4
}

// The bytes of a word list's piece.
pub fn words_part(src: &[u8], x: Piece) -> &[u8]
    ensures { Part src.entry.ref_ptr (words_part_of src.now x) (words_place src.now x) result.ref_ptr result.now }
{
    if !words_inside(src, x) {
        return &src[..0];
    }
    let end = x.at + x.count * 4;
    &src[x.at..end]
}

// The i-th word of a word list, counted from 0: none where the list does not lie inside, or has no such word.
pub fn word_of(src: &[u8], x: Piece, i: usize) -> Option<u32>
    ensures { view_option result ≡ word_of src.now x i }
{
    if words_inside(src, x) && i < x.count {
        Some(word_here(src, x.at + i * 4))
    } else {
        None
    }
}
