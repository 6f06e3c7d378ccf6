// Numbers of four and eight bytes. A word is read little-endian and swapped, and written swapped, low byte first: the compiler makes one
// load or store and one byte swap of that.
ghost use Rattle.std.specs.Prelude.{◌≡◌, ◌+◌, ◌<◌, ◌≤◌, length};
ghost use Rattle.xdr.specs.Meaning.Bytes.{number_at, signed, unsigned};
ghost use Rattle.xdr.specs.Laws.Swap.{swapped, swapped64};

// A byte as a wider number.
fn wide(b: u8) -> u32
    ensures { (result ≡ b) × (result < 256) }
{
    b as u32
}

// A word as a wider number.
pub(crate) fn wide64(w: u32) -> u64
    ensures { (result ≡ w) × (result < 4294967296) }
{
    w as u64
}

// The four bytes of a word in the other order.
pub(crate) fn swap(v: u32) -> u32
    ensures { result ≡ swapped v }
{
    v % 256 * 16777216 + v / 256 % 256 * 65536 + v / 65536 % 256 * 256 + v / 16777216
}

// The same of the eight bytes of a hyper.
pub(crate) fn swap64(v: u64) -> u64
    ensures { result ≡ swapped64 v }
{
    let low = swap((v % 4294967296) as u32);
    let high = swap((v / 4294967296) as u32);
    wide64(low) * 4294967296 + wide64(high)
}

// The word at a place that has four bytes, in the other order: as it lies in memory.
pub(crate) fn raw_here(src: &[u8], at: usize) -> u32
    requires { at + 4 ≤ length src.now }
    ensures { swapped result ≡ number_at 4 src.now at }
{
    wide(src[at])
        + wide(src[at + 1]) * 256
        + wide(src[at + 2]) * 65536
        + wide(src[at + 3]) * 16777216
}

// The word at a place that has four bytes.
pub(crate) fn word_here(src: &[u8], at: usize) -> u32
    requires { at + 4 ≤ length src.now }
    ensures { result ≡ number_at 4 src.now at }
{
    swap(raw_here(src, at))
}

// The hyper at a place that has eight bytes.
pub(crate) fn hyper_here(src: &[u8], at: usize) -> u64
    requires { at + 8 ≤ length src.now }
    ensures { result ≡ number_at 8 src.now at }
{
    wide64(word_here(src, at)) * 4294967296 + wide64(word_here(src, at + 4))
}

// Two's complement.
pub(crate) fn signed32(word: u32) -> i32
    ensures { result ≡ signed 2147483648 word }
{
    word.cast_signed()
}

pub(crate) fn signed64(hyper: u64) -> i64
    ensures { result ≡ signed 9223372036854775808 hyper }
{
    hyper.cast_signed()
}

// And back.
pub(crate) fn unsigned32(int: i32) -> u32
    ensures { result ≡ unsigned 2147483648 int }
{
    int.cast_unsigned()
}

pub(crate) fn unsigned64(long: i64) -> u64
    ensures { result ≡ unsigned 9223372036854775808 long }
{
    long.cast_unsigned()
}
