// XDR (RFC 4506), as the crate nfsserve reads and writes it: items, pieces and refusals.
//
// `read_X(src, at)` reads an X of a message from a place on; `write_X(.., out, at)` writes one into a buffer from a place on.
// Every input gets an answer. What the answers mean stands in specs/Meaning.
#![tactic(auto)]

pub mod answer;
mod copy;
pub mod inner;
mod number;
pub mod order;
pub mod piece;
mod read;
pub mod refusal;
mod write;

pub use answer::Took;
pub use piece::{Marks, Piece, inside, part, word_of, words_inside, words_part};
pub use read::{
    read_bool, read_eight, read_i32, read_i64, read_opaque, read_u32, read_u64, read_words,
};
pub use refusal::Refusal;
pub use write::{
    write_bool, write_eight, write_i32, write_i64, write_opaque, write_u32, write_u64, write_words,
};

// The longest message, source or encoding that is taken.
pub const MOST: usize = 1048576;
