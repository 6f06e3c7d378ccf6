// made by tools/generate from kinds.txt
// Each item, as a kind.
ghost use Rattle.xdr.specs.Meaning.Format.{exactly};
ghost use Rattle.xdr.specs.Meaning.Items.{flag, int, long, word, hyper};
ghost use Rattle.xdr.specs.Meaning.Formats.{eight_bytes, bytes, word_list};
ghost use Rattle.door.specs.Meaning.Copy.{held_as};
ghost use Rattle.door.specs.Laws.Still.{still-plain, still-int, still-long, still-word, still-hyper, still-eight};

use crate::kind::{Kind, Loose, Plain};
use xdr::{Marks, Piece, Refusal, Took};

pub(crate) struct Bool;

impl Kind for Bool {
    type Value = bool;

    ghost number = { 0 };

    ghost held = { held_as (exactly flag) };

    ghost listed = { λ s at start o c o' d. d };

    fn read(src: &[u8], at: usize) -> Result<Took<bool>, Refusal> {
        xdr::read_bool(src, at)
    }

    fn marks(_x: bool) -> Marks {
        Marks::None
    }
}

impl Loose for Bool {
    fn write(_src: &[u8], x: bool, out: &mut [u8], at: usize) -> Result<usize, Refusal> {
        xdr::write_bool(x, out, at)
    }
}

pub(crate) struct I32;

impl Kind for I32 {
    type Value = i32;

    ghost number = { 1 };

    ghost held = { held_as (exactly int) };

    ghost listed = { λ s at start o c o' d. d };

    fn read(src: &[u8], at: usize) -> Result<Took<i32>, Refusal> {
        xdr::read_i32(src, at)
    }

    fn marks(_x: i32) -> Marks {
        Marks::None
    }
}

impl Plain for I32 {
    ghost plain = { still-plain (exactly int) still-int };
}

pub(crate) struct I64;

impl Kind for I64 {
    type Value = i64;

    ghost number = { 2 };

    ghost held = { held_as (exactly long) };

    ghost listed = { λ s at start o c o' d. d };

    fn read(src: &[u8], at: usize) -> Result<Took<i64>, Refusal> {
        xdr::read_i64(src, at)
    }

    fn marks(_x: i64) -> Marks {
        Marks::None
    }
}

impl Plain for I64 {
    ghost plain = { still-plain (exactly long) still-long };
}

pub(crate) struct U32;

impl Kind for U32 {
    type Value = u32;

    ghost number = { 3 };

    ghost held = { held_as (exactly word) };

    ghost listed = { λ s at start o c o' d. d };

    fn read(src: &[u8], at: usize) -> Result<Took<u32>, Refusal> {
        xdr::read_u32(src, at)
    }

    fn marks(_x: u32) -> Marks {
        Marks::None
    }
}

impl Plain for U32 {
    ghost plain = { still-plain (exactly word) still-word };
}

pub(crate) struct U64;

impl Kind for U64 {
    type Value = u64;

    ghost number = { 4 };

    ghost held = { held_as (exactly hyper) };

    ghost listed = { λ s at start o c o' d. d };

    fn read(src: &[u8], at: usize) -> Result<Took<u64>, Refusal> {
        xdr::read_u64(src, at)
    }

    fn marks(_x: u64) -> Marks {
        Marks::None
    }
}

impl Plain for U64 {
    ghost plain = { still-plain (exactly hyper) still-hyper };
}

pub(crate) struct Eight;

impl Kind for Eight {
    type Value = u64;

    ghost number = { 5 };

    ghost held = { held_as eight_bytes };

    ghost listed = { λ s at start o c o' d. d };

    fn read(src: &[u8], at: usize) -> Result<Took<u64>, Refusal> {
        xdr::read_eight(src, at)
    }

    fn marks(_x: u64) -> Marks {
        Marks::None
    }
}

impl Plain for Eight {
    ghost plain = { still-plain eight_bytes still-eight };
}

pub(crate) struct Opaque;

impl Kind for Opaque {
    type Value = Piece;

    ghost number = { 6 };

    ghost held = { held_as bytes };

    ghost listed = { λ s at start o c o' d. d };

    fn read(src: &[u8], at: usize) -> Result<Took<Piece>, Refusal> {
        xdr::read_opaque(src, at)
    }

    fn marks(x: Piece) -> Marks {
        x.marks()
    }
}

impl Loose for Opaque {
    fn write(src: &[u8], x: Piece, out: &mut [u8], at: usize) -> Result<usize, Refusal> {
        xdr::write_opaque(src, x, out, at)
    }
}

pub(crate) struct Words;

impl Kind for Words {
    type Value = Piece;

    ghost number = { 8 };

    ghost held = { held_as word_list };

    ghost listed = { λ s at start o c o' d. d };

    fn read(src: &[u8], at: usize) -> Result<Took<Piece>, Refusal> {
        xdr::read_words(src, at)
    }

    fn marks(x: Piece) -> Marks {
        x.marks()
    }
}

impl Loose for Words {
    fn write(src: &[u8], x: Piece, out: &mut [u8], at: usize) -> Result<usize, Refusal> {
        xdr::write_words(src, x, out, at)
    }
}
