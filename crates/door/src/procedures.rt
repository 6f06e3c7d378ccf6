// made by tools/generate from kinds.txt
// The arguments and results of procedures of RFC 1813, as a kind.
ghost use Rattle.xdr.specs.Meaning.Format.{exactly};
ghost use Rattle.nfsfile.specs.Meaning.Setattr.{sattrguard, setattr_args, setattr_res};
ghost use Rattle.nfsfile.specs.Meaning.Getattr.{getattr_args, getattr_res};
ghost use Rattle.nfsfile.specs.Meaning.Lookup.{lookup_args, lookup_res};
ghost use Rattle.nfsdata.specs.Meaning.Write.{stable-how, write_args, write_res};
ghost use Rattle.nfsdata.specs.Meaning.Read.{read_args, read_res};
ghost use Rattle.door.specs.Meaning.Copy.{held_as};
ghost use Rattle.door.specs.Laws.Still.{still-plain, still-stable-how, still-getattr-res};

use crate::kind::{Kind, Loose, Plain};
use xdr::{Marks, Refusal, Took};

pub(crate) struct StableHow;

impl Kind for StableHow {
    type Value = nfsdata::stable_how;

    ghost number = { 47 };

    ghost held = { held_as (exactly stable-how) };

    ghost listed = { λ s at start o c o' d. d };

    fn read(src: &[u8], at: usize) -> Result<Took<nfsdata::stable_how>, Refusal> {
        nfsdata::read_stable_how(src, at)
    }

    fn marks(_x: nfsdata::stable_how) -> Marks {
        Marks::None
    }
}

impl Plain for StableHow {
    ghost plain = { still-plain (exactly stable-how) still-stable-how };
}

pub(crate) struct Sattrguard3;

impl Kind for Sattrguard3 {
    type Value = nfsfile::sattrguard3;

    ghost number = { 48 };

    ghost held = { held_as (exactly sattrguard) };

    ghost listed = { λ s at start o c o' d. d };

    fn read(src: &[u8], at: usize) -> Result<Took<nfsfile::sattrguard3>, Refusal> {
        nfsfile::read_sattrguard3(src, at)
    }

    fn marks(_x: nfsfile::sattrguard3) -> Marks {
        Marks::None
    }
}

impl Loose for Sattrguard3 {
    fn write(
        _src: &[u8],
        x: nfsfile::sattrguard3,
        out: &mut [u8],
        at: usize,
    ) -> Result<usize, Refusal> {
        nfsfile::write_sattrguard3(x, out, at)
    }
}

pub(crate) struct Getattr3args;

impl Kind for Getattr3args {
    type Value = nfsfile::GETATTR3args;

    ghost number = { 49 };

    ghost held = { held_as getattr_args };

    ghost listed = { λ s at start o c o' d. d };

    fn read(src: &[u8], at: usize) -> Result<Took<nfsfile::GETATTR3args>, Refusal> {
        nfsfile::read_getattr3args(src, at)
    }

    fn marks(x: nfsfile::GETATTR3args) -> Marks {
        x.marks()
    }
}

impl Loose for Getattr3args {
    fn write(
        src: &[u8],
        x: nfsfile::GETATTR3args,
        out: &mut [u8],
        at: usize,
    ) -> Result<usize, Refusal> {
        nfsfile::write_getattr3args(src, x, out, at)
    }
}

pub(crate) struct Getattr3res;

impl Kind for Getattr3res {
    type Value = nfsfile::GETATTR3res;

    ghost number = { 50 };

    ghost held = { held_as getattr_res };

    ghost listed = { λ s at start o c o' d. d };

    fn read(src: &[u8], at: usize) -> Result<Took<nfsfile::GETATTR3res>, Refusal> {
        nfsfile::read_getattr3res(src, at)
    }

    fn marks(x: nfsfile::GETATTR3res) -> Marks {
        x.marks()
    }
}

impl Plain for Getattr3res {
    ghost plain = { still-plain getattr_res still-getattr-res };
}

pub(crate) struct Setattr3args;

impl Kind for Setattr3args {
    type Value = nfsfile::SETATTR3args;

    ghost number = { 51 };

    ghost held = { held_as setattr_args };

    ghost listed = { λ s at start o c o' d. d };

    fn read(src: &[u8], at: usize) -> Result<Took<nfsfile::SETATTR3args>, Refusal> {
        nfsfile::read_setattr3args(src, at)
    }

    fn marks(x: nfsfile::SETATTR3args) -> Marks {
        x.marks()
    }
}

impl Loose for Setattr3args {
    fn write(
        src: &[u8],
        x: nfsfile::SETATTR3args,
        out: &mut [u8],
        at: usize,
    ) -> Result<usize, Refusal> {
        nfsfile::write_setattr3args(src, x, out, at)
    }
}

pub(crate) struct Setattr3res;

impl Kind for Setattr3res {
    type Value = nfsfile::SETATTR3res;

    ghost number = { 52 };

    ghost held = { held_as setattr_res };

    ghost listed = { λ s at start o c o' d. d };

    fn read(src: &[u8], at: usize) -> Result<Took<nfsfile::SETATTR3res>, Refusal> {
        nfsfile::read_setattr3res(src, at)
    }

    fn marks(x: nfsfile::SETATTR3res) -> Marks {
        x.marks()
    }
}

impl Loose for Setattr3res {
    fn write(
        src: &[u8],
        x: nfsfile::SETATTR3res,
        out: &mut [u8],
        at: usize,
    ) -> Result<usize, Refusal> {
        nfsfile::write_setattr3res(src, x, out, at)
    }
}

pub(crate) struct Lookup3args;

impl Kind for Lookup3args {
    type Value = nfsfile::LOOKUP3args;

    ghost number = { 53 };

    ghost held = { held_as lookup_args };

    ghost listed = { λ s at start o c o' d. d };

    fn read(src: &[u8], at: usize) -> Result<Took<nfsfile::LOOKUP3args>, Refusal> {
        nfsfile::read_lookup3args(src, at)
    }

    fn marks(x: nfsfile::LOOKUP3args) -> Marks {
        x.marks()
    }
}

impl Loose for Lookup3args {
    fn write(
        src: &[u8],
        x: nfsfile::LOOKUP3args,
        out: &mut [u8],
        at: usize,
    ) -> Result<usize, Refusal> {
        nfsfile::write_lookup3args(src, x, out, at)
    }
}

pub(crate) struct Lookup3res;

impl Kind for Lookup3res {
    type Value = nfsfile::LOOKUP3res;

    ghost number = { 54 };

    ghost held = { held_as lookup_res };

    ghost listed = { λ s at start o c o' d. d };

    fn read(src: &[u8], at: usize) -> Result<Took<nfsfile::LOOKUP3res>, Refusal> {
        nfsfile::read_lookup3res(src, at)
    }

    fn marks(x: nfsfile::LOOKUP3res) -> Marks {
        x.marks()
    }
}

impl Loose for Lookup3res {
    fn write(
        src: &[u8],
        x: nfsfile::LOOKUP3res,
        out: &mut [u8],
        at: usize,
    ) -> Result<usize, Refusal> {
        nfsfile::write_lookup3res(src, x, out, at)
    }
}

pub(crate) struct Read3args;

impl Kind for Read3args {
    type Value = nfsdata::READ3args;

    ghost number = { 55 };

    ghost held = { held_as read_args };

    ghost listed = { λ s at start o c o' d. d };

    fn read(src: &[u8], at: usize) -> Result<Took<nfsdata::READ3args>, Refusal> {
        nfsdata::read_read3args(src, at)
    }

    fn marks(x: nfsdata::READ3args) -> Marks {
        x.marks()
    }
}

impl Loose for Read3args {
    fn write(
        src: &[u8],
        x: nfsdata::READ3args,
        out: &mut [u8],
        at: usize,
    ) -> Result<usize, Refusal> {
        nfsdata::write_read3args(src, x, out, at)
    }
}

pub(crate) struct Read3res;

impl Kind for Read3res {
    type Value = nfsdata::READ3res;

    ghost number = { 56 };

    ghost held = { held_as read_res };

    ghost listed = { λ s at start o c o' d. d };

    fn read(src: &[u8], at: usize) -> Result<Took<nfsdata::READ3res>, Refusal> {
        nfsdata::read_read3res(src, at)
    }

    fn marks(x: nfsdata::READ3res) -> Marks {
        x.marks()
    }
}

impl Loose for Read3res {
    fn write(
        src: &[u8],
        x: nfsdata::READ3res,
        out: &mut [u8],
        at: usize,
    ) -> Result<usize, Refusal> {
        nfsdata::write_read3res(src, x, out, at)
    }
}

pub(crate) struct Write3args;

impl Kind for Write3args {
    type Value = nfsdata::WRITE3args;

    ghost number = { 57 };

    ghost held = { held_as write_args };

    ghost listed = { λ s at start o c o' d. d };

    fn read(src: &[u8], at: usize) -> Result<Took<nfsdata::WRITE3args>, Refusal> {
        nfsdata::read_write3args(src, at)
    }

    fn marks(x: nfsdata::WRITE3args) -> Marks {
        x.marks()
    }
}

impl Loose for Write3args {
    fn write(
        src: &[u8],
        x: nfsdata::WRITE3args,
        out: &mut [u8],
        at: usize,
    ) -> Result<usize, Refusal> {
        nfsdata::write_write3args(src, x, out, at)
    }
}

pub(crate) struct Write3res;

impl Kind for Write3res {
    type Value = nfsdata::WRITE3res;

    ghost number = { 58 };

    ghost held = { held_as write_res };

    ghost listed = { λ s at start o c o' d. d };

    fn read(src: &[u8], at: usize) -> Result<Took<nfsdata::WRITE3res>, Refusal> {
        nfsdata::read_write3res(src, at)
    }

    fn marks(x: nfsdata::WRITE3res) -> Marks {
        x.marks()
    }
}

impl Loose for Write3res {
    fn write(
        src: &[u8],
        x: nfsdata::WRITE3res,
        out: &mut [u8],
        at: usize,
    ) -> Result<usize, Refusal> {
        nfsdata::write_write3res(src, x, out, at)
    }
}
