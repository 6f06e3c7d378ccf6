// The public readers: refusal 3, refusal 9, then the item.
ghost use Rattle.xdr.specs.Meaning.Items.{word, hyper, flag, int, long};
ghost use Rattle.xdr.specs.Meaning.Format.{exactly};
ghost use Rattle.xdr.specs.Meaning.Formats.{eight_bytes, bytes, word_list};
ghost use Rattle.xdr.specs.Meaning.Public.{Answers};
ghost use Rattle.xdr.specs.Meaning.Views.{view};

use crate::answer::Took;
use crate::inner::{bool_at, eight_at, i32_at, i64_at, opaque_at, u32_at, u64_at, words_at};
use crate::order::open_at;
use crate::piece::Piece;
use crate::refusal::Refusal;

// A word.
pub fn read_u32(src: &[u8], at: usize) -> Result<Took<u32>, Refusal>
    ensures { Answers (exactly word) src.now at (view result) }
{
    open_at(src, at)?;
    u32_at(src, at)
}

// A hyper.
pub fn read_u64(src: &[u8], at: usize) -> Result<Took<u64>, Refusal>
    ensures { Answers (exactly hyper) src.now at (view result) }
{
    open_at(src, at)?;
    u64_at(src, at)
}

// A signed word.
pub fn read_i32(src: &[u8], at: usize) -> Result<Took<i32>, Refusal>
    ensures { Answers (exactly int) src.now at (view result) }
{
    open_at(src, at)?;
    i32_at(src, at)
}

// A signed hyper.
pub fn read_i64(src: &[u8], at: usize) -> Result<Took<i64>, Refusal>
    ensures { Answers (exactly long) src.now at (view result) }
{
    open_at(src, at)?;
    i64_at(src, at)
}

// A flag: each nonzero word is true, and only 0 and 1 are plain.
pub fn read_bool(src: &[u8], at: usize) -> Result<Took<bool>, Refusal>
    ensures { Answers (exactly flag) src.now at (view result) }
{
    open_at(src, at)?;
    bool_at(src, at)
}

// Eight fixed bytes, as the number that they write.
pub fn read_eight(src: &[u8], at: usize) -> Result<Took<u64>, Refusal>
    ensures { Answers eight_bytes src.now at (view result) }
{
    open_at(src, at)?;
    eight_at(src, at)
}

// Opaque bytes (`Vec<u8>`, `nfsstring`), as a piece of the message; plain if the padding is zero.
pub fn read_opaque(src: &[u8], at: usize) -> Result<Took<Piece>, Refusal>
    ensures { Answers bytes src.now at (view result) }
{
    open_at(src, at)?;
    opaque_at(src, at)
}

// A list of words (`Vec<u32>`), as a piece of the message that counts words.
pub fn read_words(src: &[u8], at: usize) -> Result<Took<Piece>, Refusal>
    ensures { Answers word_list src.now at (view result) }
{
    open_at(src, at)?;
    words_at(src, at)
}
