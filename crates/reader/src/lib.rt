// A reader over one message: the message, lent, and the place of what comes next in it. Thin over the plain functions of `xdr`, `rpc` and
// `nfs`: each step takes the reader apart and calls the plain function on the message and the place.
//
// Every input gets the plain function's answer. What a step means stands in specs/Meaning.
#![tactic(auto)]

ghost use Rattle.std.specs.Prelude.{◌≡◌, ◌-◌, length};
ghost use Rattle.nfsattr.specs.Meaning.Attr.{fattr};
ghost use Rattle.nfs.specs.Meaning.Dir.{nfs_fh, diropargs};
ghost use Rattle.nfs.specs.Meaning.Set.{sattr};
ghost use Rattle.rpc.specs.Meaning.Crate.{rpc-msg};
ghost use Rattle.xdr.specs.Meaning.Format.{exactly};
ghost use Rattle.xdr.specs.Meaning.Formats.{bytes};
ghost use Rattle.xdr.specs.Meaning.Items.{word, hyper, flag};
ghost use Rattle.xdr.specs.Meaning.Views.{view};
ghost use Rattle.reader.specs.Meaning.Step.{Stepped, onward};

use nfs::{
    diropargs3, fattr3, nfs_fh3, read_diropargs3, read_fattr3, read_nfs_fh3, read_sattr3, sattr3,
};
use rpc::{read_rpc_msg, rpc_msg};
use xdr::{Piece, Refusal, Took, read_bool, read_opaque, read_u32, read_u64};

pub mod call;
pub mod step;

pub use call::{Mkdir, read_mkdir};
pub use step::Step;

// A message and the place of what comes next in it.
#[derive(Clone, Copy)]
pub struct Reader<'a> {
    pub src: &'a [u8],
    pub at: usize,
}

// How many bytes of a message stand from a place on; none past its end.
fn left_of(src: &[u8], at: usize) -> usize
    ensures { result ≡ length src.now - at }
{
    if src.len() < at { 0 } else { src.len() - at }
}

// Where a reader stands after an answer.
fn place_after<T>(answer: &Result<Took<T>, Refusal>, at: usize) -> usize
    ensures { result ≡ onward (view answer.now) at }
{
    match answer {
        Ok(took) => took.next,
        Err(_) => at,
    }
}

impl<'a> Reader<'a> {
    // At the start of a message.
    pub fn new(src: &'a [u8]) -> Reader<'a>
        ensures { (result.src ≡ src.entry) × (result.at ≡ 0) }
    {
        Reader { src, at: 0 }
    }

    pub fn place(self) -> usize
        ensures { result ≡ self.entry.at }
    {
        self.at
    }

    // How many bytes are left.
    pub fn left(self) -> usize
        ensures { result ≡ length self.entry.src.now - self.entry.at }
    {
        left_of(self.src, self.at)
    }

    // Moves behind what was taken; after a refusal it stays.
    fn step<T: Copy>(self, answer: Result<Took<T>, Refusal>) -> Step<'a, T>
        ensures answer { result.answer ≡ answer }
        ensures src { result.reader.src ≡ self.entry.src }
        ensures at { result.reader.at ≡ onward (view answer) self.entry.at }
    {
        let at = place_after(&answer, self.at);
        Step {
            reader: Reader { src: self.src, at },
            answer,
        }
    }

    pub fn rpc_msg(self) -> Step<'a, rpc_msg>
        ensures { Stepped rpc-msg self.entry (view result.answer) result.reader }
    {
        self.step(read_rpc_msg(self.src, self.at))
    }

    pub fn u32(self) -> Step<'a, u32>
        ensures { Stepped (exactly word) self.entry (view result.answer) result.reader }
    {
        self.step(read_u32(self.src, self.at))
    }

    pub fn u64(self) -> Step<'a, u64>
        ensures { Stepped (exactly hyper) self.entry (view result.answer) result.reader }
    {
        self.step(read_u64(self.src, self.at))
    }

    pub fn bool(self) -> Step<'a, bool>
        ensures { Stepped (exactly flag) self.entry (view result.answer) result.reader }
    {
        self.step(read_bool(self.src, self.at))
    }

    pub fn opaque(self) -> Step<'a, Piece>
        ensures { Stepped bytes self.entry (view result.answer) result.reader }
    {
        self.step(read_opaque(self.src, self.at))
    }

    pub fn nfs_fh3(self) -> Step<'a, nfs_fh3>
        ensures { Stepped nfs_fh self.entry (view result.answer) result.reader }
    {
        self.step(read_nfs_fh3(self.src, self.at))
    }

    pub fn diropargs3(self) -> Step<'a, diropargs3>
        ensures { Stepped diropargs self.entry (view result.answer) result.reader }
    {
        self.step(read_diropargs3(self.src, self.at))
    }

    pub fn sattr3(self) -> Step<'a, sattr3>
        ensures { Stepped (exactly sattr) self.entry (view result.answer) result.reader }
    {
        self.step(read_sattr3(self.src, self.at))
    }

    pub fn fattr3(self) -> Step<'a, fattr3>
        ensures { Stepped (exactly fattr) self.entry (view result.answer) result.reader }
    {
        self.step(read_fattr3(self.src, self.at))
    }
}
