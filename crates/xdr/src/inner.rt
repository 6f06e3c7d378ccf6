// For the crates above, and no door for users: items of a message whose length and start were tested already, and items laid at the front
// of a lent buffer whose room was. Each is total all the same, and exact; it only leaves out refusals 3 and 9.
ghost use Rattle.std.specs.Prelude.{◌≡◌, cond, eqb, ◌+◌, ◌-◌, ◌<◌, ◌≤◌, length, ◌++◌};
ghost use Rattle.xdr.specs.Meaning.Bytes.{number_at, padding};
ghost use Rattle.xdr.specs.Meaning.Items.{word, hyper, word_pair, hyper_pair, flag, int, long, opaque, words};
ghost use Rattle.xdr.specs.Meaning.Pieces.{piece_answer, opaque_size, size_up_to, words_up_to};
ghost use Rattle.xdr.specs.Meaning.Formats.{eight_held, piece_held, words_held, bytes, word_list};
ghost use Rattle.xdr.specs.Meaning.Public.{laid, laid_of};
ghost use Rattle.xdr.specs.Meaning.Views.{view};
ghost use Rattle.xdr.specs.declared.refusal.Refusal.TheVariants.{Ended};
ghost use Rattle.xdr.specs.Laws.Answers.{pair_end};
ghost use Rattle.xdr.specs.Laws.Write.{Put};
ghost use Rattle.xdr.specs.Laws.Padding.{last_zeros, limit_of};

use crate::MOST;
use crate::answer::Took;
use crate::copy::copy;
use crate::number::{
    hyper_here, raw_here, signed32, signed64, swap, swap64, unsigned32, unsigned64, wide64,
    word_here,
};
use crate::piece::{Piece, inside, words_inside};
use crate::refusal::Refusal;

// Of `size` bytes that begin at a place, a message of `len` bytes has fewer: the rest is wanting.
fn cut_short(len: usize, at: usize, size: usize) -> Refusal
    requires { len - at < size }
    ensures { result ≡ Ended at (size - (len - at)) }
{
    if len < at {
        return Refusal::Ended {
            place: at,
            wanting: size,
        };
    }
    Refusal::Ended {
        place: at,
        wanting: size - (len - at),
    }
}

pub fn u32_at(src: &[u8], at: usize) -> Result<Took<u32>, Refusal>
    ensures { view result ≡ word.kind.read src.now at }
{
    if src.len() < 4 {
        return Err(cut_short(src.len(), at, 4));
    }
    if src.len() - 4 < at {
        return Err(cut_short(src.len(), at, 4));
    }
    Ok(Took {
        value: word_here(src, at),
        next: at + 4,
        plain: true,
    })
}

pub fn u64_at(src: &[u8], at: usize) -> Result<Took<u64>, Refusal>
    ensures { view result ≡ hyper.kind.read src.now at }
{
    if src.len() < 8 {
        return Err(cut_short(src.len(), at, 8));
    }
    if src.len() - 8 < at {
        return Err(cut_short(src.len(), at, 8));
    }
    Ok(Took {
        value: hyper_here(src, at),
        next: at + 8,
        plain: true,
    })
}

// The refusal of the first of two numbers that is not whole.
fn pair_end(src: &[u8], at: usize, width: usize) -> Refusal
    requires { length src.now - at < width + width }
    ensures { result ≡ pair_end width src.now at }
{
    if src.len() < width {
        return cut_short(src.len(), at, width);
    }
    if src.len() - width < at {
        return cut_short(src.len(), at, width);
    }
    cut_short(src.len(), at + width, width)
}

// Two words that stand together, with one test of room for both.
pub fn u32_pair_at(src: &[u8], at: usize) -> Result<Took<(u32, u32)>, Refusal>
    ensures { view result ≡ word_pair.kind.read src.now at }
{
    if src.len() < 8 {
        return Err(pair_end(src, at, 4));
    }
    if src.len() - 8 < at {
        return Err(pair_end(src, at, 4));
    }
    Ok(Took {
        value: (word_here(src, at), word_here(src, at + 4)),
        next: at + 8,
        plain: true,
    })
}

pub fn u64_pair_at(src: &[u8], at: usize) -> Result<Took<(u64, u64)>, Refusal>
    ensures { view result ≡ hyper_pair.kind.read src.now at }
{
    if src.len() < 16 {
        return Err(pair_end(src, at, 8));
    }
    if src.len() - 16 < at {
        return Err(pair_end(src, at, 8));
    }
    Ok(Took {
        value: (hyper_here(src, at), hyper_here(src, at + 8)),
        next: at + 16,
        plain: true,
    })
}

pub fn i32_at(src: &[u8], at: usize) -> Result<Took<i32>, Refusal>
    ensures { view result ≡ int.kind.read src.now at }
{
    let word = u32_at(src, at)?;
    Ok(Took {
        value: signed32(word.value),
        next: word.next,
        plain: true,
    })
}

pub fn i64_at(src: &[u8], at: usize) -> Result<Took<i64>, Refusal>
    ensures { view result ≡ long.kind.read src.now at }
{
    let hyper = u64_at(src, at)?;
    Ok(Took {
        value: signed64(hyper.value),
        next: hyper.next,
        plain: true,
    })
}

// Each nonzero flag is true.
pub fn bool_at(src: &[u8], at: usize) -> Result<Took<bool>, Refusal>
    ensures { view result ≡ flag.kind.read src.now at }
{
    let word = u32_at(src, at)?;
    Ok(Took {
        value: word.value != 0,
        next: word.next,
        plain: word.value < 2,
    })
}

// Eight fixed bytes, as the number that they write.
pub fn eight_at(src: &[u8], at: usize) -> Result<Took<u64>, Refusal>
    ensures { view result ≡ eight_held.read src.now at }
{
    u64_at(src, at)
}

// What a word in the other order is below exactly if the bytes behind its first j are zero. 0 stands for all four: every word is below that.
fn limit(j: usize) -> u64
    ensures { result ≡ limit_of j }
{
    match j {
        0 => 4294967296,
        1 => 256,
        2 => 65536,
        _ => 16777216,
    }
}

fn if_none(k: usize, a: usize, b: usize) -> usize
    ensures { result ≡ cond (eqb k 0) a b }
{
    if k == 0 { a } else { b }
}

// Whether the pad of n bytes, whose last word is at a place, is zero. Names have all lengths, so n is not foreseen, and there is no branch on
// it. If there is no pad, another word is read: that one may be content.
fn pad_zeros(src: &[u8], other: usize, at: usize, n: usize) -> bool
    requires other_in_bounds { other + 4 ≤ length src.now }
    requires at_in_bounds { at + 4 ≤ length src.now }
    ensures { result ≡ last_zeros (number_at 4 src.now at) (padding n) }
{
    wide64(raw_here(src, if_none(n % 4, other, at))) < limit(n % 4)
}

// The n bytes of content and their pad, of an opaque that begins at a place that has its length word. The pad is the end of a word.
fn body_at(src: &[u8], at: usize, n: u32) -> Result<Took<Piece>, Refusal>
    requires { at + 4 ≤ length src.now }
    ensures { view result ≡ piece_answer src.now at n }
{
    let n = n as usize;
    let m = (n + 3) / 4 * 4;
    if src.len() - at - 4 < m {
        return Err(cut_short(src.len(), at, 4 + m));
    }
    let clean = pad_zeros(src, at, at + m, n);
    Ok(Took {
        value: Piece {
            at: at + 4,
            count: n,
            clean,
        },
        next: at + 4 + m,
        plain: clean,
    })
}

pub fn opaque_at(src: &[u8], at: usize) -> Result<Took<Piece>, Refusal>
    ensures { view result ≡ piece_held.read src.now at }
{
    let count = u32_at(src, at)?;
    body_at(src, at, count.value)
}

// The same of a body that is whole words as a rule, as a credential's is. That is foreseen, and then there is no pad to look at.
fn whole_body_at(src: &[u8], at: usize, n: u32) -> Result<Took<Piece>, Refusal>
    requires { at + 4 ≤ length src.now }
    ensures { view result ≡ piece_answer src.now at n }
{
    if n % 4 != 0 {
        return body_at(src, at, n);
    }
    let n = n as usize;
    if src.len() - at - 4 < n {
        return Err(cut_short(src.len(), at, 4 + n));
    }
    Ok(Took {
        value: Piece {
            at: at + 4,
            count: n,
            clean: true,
        },
        next: at + 4 + n,
        plain: true,
    })
}

pub fn whole_opaque_at(src: &[u8], at: usize) -> Result<Took<Piece>, Refusal>
    ensures { view result ≡ piece_held.read src.now at }
{
    let count = u32_at(src, at)?;
    whole_body_at(src, at, count.value)
}

// A list of words: its count, then as many words.
pub fn words_at(src: &[u8], at: usize) -> Result<Took<Piece>, Refusal>
    ensures { view result ≡ words_held.read src.now at }
{
    let count = u32_at(src, at)?;
    let n = count.value as usize;
    let p = count.next;
    let all = n * 4;
    if src.len() - p < all {
        return Err(cut_short(src.len(), at, 4 + all));
    }
    Ok(Took {
        value: Piece {
            at: p,
            count: n,
            clean: true,
        },
        next: p + all,
        plain: true,
    })
}

// A word at the front of a buffer, which is left as it was where it has no four bytes.
pub fn put_u32(v: u32, out: &mut [u8])
    ensures { out.new ≡ laid (word.kind.write v) out.old }
{
    if out.len() < 4 {
        return;
    }
    let s = swap(v);
    out[0] = (s % 256) as u8;
    out[1] = (s / 256 % 256) as u8;
    out[2] = (s / 65536 % 256) as u8;
    out[3] = (s / 16777216) as u8;
}

pub fn put_u64(v: u64, out: &mut [u8])
    ensures { out.new ≡ laid (hyper.kind.write v) out.old }
{
    if out.len() < 8 {
        return;
    }
    let s = swap64(v);
    out[0] = (s % 256) as u8;
    out[1] = (s / 256 % 256) as u8;
    out[2] = (s / 65536 % 256) as u8;
    out[3] = (s / 16777216 % 256) as u8;
    out[4] = (s / 4294967296 % 256) as u8;
    out[5] = (s / 1099511627776 % 256) as u8;
    out[6] = (s / 281474976710656 % 256) as u8;
    out[7] = (s / 72057594037927936) as u8;
}

pub fn put_u32_pair(first: u32, second: u32, out: &mut [u8])
    ensures { out.new ≡ laid (word_pair.kind.write (first, second)) out.old }
{
    if out.len() < 8 {
        return;
    }
    put_u32(first, &mut out[0..]);
    put_u32(second, &mut out[4..]);
}

pub fn put_u64_pair(first: u64, second: u64, out: &mut [u8])
    ensures { out.new ≡ laid (hyper_pair.kind.write (first, second)) out.old }
{
    if out.len() < 16 {
        return;
    }
    put_u64(first, &mut out[0..]);
    put_u64(second, &mut out[8..]);
}

// Twelve bytes that stand together: three words, or a word and a hyper.
pub fn put_u32_three(first: u32, second: u32, third: u32, out: &mut [u8])
    ensures { out.new ≡ laid (word.kind.write first ++ word_pair.kind.write (second, third)) out.old }
{
    if out.len() < 12 {
        return;
    }
    put_u32(first, &mut out[0..]);
    put_u32_pair(second, third, &mut out[4..]);
}

pub fn put_u32_u64(first: u32, second: u64, out: &mut [u8])
    ensures { out.new ≡ laid (word.kind.write first ++ hyper.kind.write second) out.old }
{
    if out.len() < 12 {
        return;
    }
    put_u32(first, &mut out[0..]);
    put_u64(second, &mut out[4..]);
}

pub fn put_i32(v: i32, out: &mut [u8])
    ensures { out.new ≡ laid (int.kind.write v) out.old }
{
    put_u32(unsigned32(v), out);
}

pub fn put_i64(v: i64, out: &mut [u8])
    ensures { out.new ≡ laid (long.kind.write v) out.old }
{
    put_u64(unsigned64(v), out);
}

pub fn put_bool(v: bool, out: &mut [u8])
    ensures { out.new ≡ laid (flag.kind.write v) out.old }
{
    if v {
        put_u32(1, out);
    } else {
        put_u32(0, out);
    }
}

// How many bytes an opaque of n bytes takes; 0 where n is over the limit.
pub fn opaque_size(n: usize) -> usize
    ensures { result ≡ size_up_to n }
{
    if MOST < n {
        return 0;
    }
    4 + (n + 3) / 4 * 4
}

// The same of a list of n words.
pub fn words_size(n: usize) -> usize
    ensures { result ≡ words_up_to n }
{
    if MOST < n {
        return 0;
    }
    4 + n * 4
}

// Bytes as they stand at the front of a buffer, which is left as it was where there is no room.
pub fn put_bytes(run: &[u8], out: &mut [u8])
    ensures { out.new ≡ laid run.now out.old }
{
    if out.len() < run.len() {
        return;
    }
    copy(run, out);
}

// An opaque at the front of a buffer that has room. The last word is zeroed first, so that what the bytes leave of it is the pad.
fn lay_opaque(body: &[u8], out: &mut [u8])
    requires body_len_bound { length body.now ≤ 1048576 }
    requires body_in_bounds { opaque_size (length body.now) ≤ length out.old }
    ensures { Put out.old out.new (opaque_size (length body.now)) (opaque.kind.write body.now) }
{
    let n = body.len();
    let m = (n + 3) / 4 * 4;
    put_u32(0, &mut out[m..]);
    put_u32(n as u32, &mut out[0..]);
    copy(body, &mut out[4..]);
}

// An opaque, whose bytes are a piece of a source, at the front of a buffer, which is left as it was where the source is too long, the piece
// lies outside it, or there is no room.
pub fn put_opaque(src: &[u8], x: Piece, out: &mut [u8])
    ensures { out.new ≡ laid_of bytes src.now x out.old }
{
    if MOST < src.len() {
        return;
    }
    if !inside(src, x) {
        return;
    }
    let from = x.at;
    let n = x.count;
    if out.len() < 4 + (n + 3) / 4 * 4 {
        return;
    }
    let to = from + n;
    lay_opaque(&src[from..to], out);
}

// A word list at the front of a buffer that has room: its count, then the words as they stand in the source.
fn lay_words(body: &[u8], n: usize, out: &mut [u8])
    requires n_bound { n ≤ 1048576 }
    requires body_in_bounds { 4 + length body.now ≤ length out.old }
    ensures { Put out.old out.new (4 + length body.now) (word.kind.write n ++ body.now) }
{
    put_u32(n as u32, &mut out[0..]);
    copy(body, &mut out[4..]);
}

pub fn put_words(src: &[u8], x: Piece, out: &mut [u8])
    ensures { out.new ≡ laid_of word_list src.now x out.old }
{
    if MOST < src.len() {
        return;
    }
    if !words_inside(src, x) {
        return;
    }
    let from = x.at;
    let n = x.count;
    if out.len() < 4 + n * 4 {
        return;
    }
    let to = from + n * 4;
    lay_words(&src[from..to], n, out);
}
