// What a step hands back: the reader, moved to the next place or where it was, and what was read, or why nothing was.
use crate::Reader;
use xdr::{Refusal, Took};

#[derive(Clone, Copy)]
pub struct Step<'a, T> {
    pub reader: Reader<'a>,
    pub answer: Result<Took<T>, Refusal>,
}
