// made by tools/generate from kinds.txt
// Each kind of the mount protocol and of the port mapper, as a kind.
ghost use Rattle.xdr.specs.Meaning.Format.{exactly};
ghost use Rattle.mount.specs.Meaning.Path.{dirpath};
ghost use Rattle.mount.specs.Meaning.Mnt.{mountstat, mountres};
ghost use Rattle.mount.specs.Meaning.Export.{exports};
ghost use Rattle.mount.specs.Meaning.Portmap.{port_mapping};
ghost use Rattle.door.specs.Meaning.Copy.{held_as};
ghost use Rattle.door.specs.Laws.Still.{still-plain, still-mountstat, still-mapping};

use crate::kind::{Kind, Loose, Plain};
use xdr::{Marks, Piece, Refusal, Took};

pub(crate) struct Dirpath;

impl Kind for Dirpath {
    type Value = Piece;

    ghost number = { 67 };

    ghost held = { held_as dirpath };

    ghost listed = { λ s at start o c o' d. d };

    fn read(src: &[u8], at: usize) -> Result<Took<Piece>, Refusal> {
        mount::read_dirpath(src, at)
    }

    fn marks(x: Piece) -> Marks {
        x.marks()
    }
}

impl Loose for Dirpath {
    fn write(src: &[u8], x: Piece, out: &mut [u8], at: usize) -> Result<usize, Refusal> {
        mount::write_dirpath(src, x, out, at)
    }
}

pub(crate) struct Mountstat3;

impl Kind for Mountstat3 {
    type Value = mount::mountstat3;

    ghost number = { 68 };

    ghost held = { held_as (exactly mountstat) };

    ghost listed = { λ s at start o c o' d. d };

    fn read(src: &[u8], at: usize) -> Result<Took<mount::mountstat3>, Refusal> {
        mount::read_mountstat3(src, at)
    }

    fn marks(_x: mount::mountstat3) -> Marks {
        Marks::None
    }
}

impl Plain for Mountstat3 {
    ghost plain = { still-plain (exactly mountstat) still-mountstat };
}

pub(crate) struct Mountres3;

impl Kind for Mountres3 {
    type Value = mount::mountres3;

    ghost number = { 69 };

    ghost held = { held_as mountres };

    ghost listed = { λ s at start o c o' d. d };

    fn read(src: &[u8], at: usize) -> Result<Took<mount::mountres3>, Refusal> {
        mount::read_mountres3(src, at)
    }

    fn marks(x: mount::mountres3) -> Marks {
        x.marks()
    }
}

impl Loose for Mountres3 {
    fn write(src: &[u8], x: mount::mountres3, out: &mut [u8], at: usize) -> Result<usize, Refusal> {
        mount::write_mountres3(src, x, out, at)
    }
}

pub(crate) struct Exports;

impl Kind for Exports {
    type Value = Piece;

    ghost number = { 70 };

    ghost held = { held_as exports };

    ghost listed = { λ s at start o c o' d. d };

    fn read(src: &[u8], at: usize) -> Result<Took<Piece>, Refusal> {
        mount::read_exports(src, at)
    }

    fn marks(x: Piece) -> Marks {
        x.marks()
    }
}

impl Loose for Exports {
    fn write(src: &[u8], x: Piece, out: &mut [u8], at: usize) -> Result<usize, Refusal> {
        mount::write_exports(src, x, out, at)
    }
}

pub(crate) struct Mapping;

impl Kind for Mapping {
    type Value = mount::mapping;

    ghost number = { 71 };

    ghost held = { held_as (exactly port_mapping) };

    ghost listed = { λ s at start o c o' d. d };

    fn read(src: &[u8], at: usize) -> Result<Took<mount::mapping>, Refusal> {
        mount::read_mapping(src, at)
    }

    fn marks(_x: mount::mapping) -> Marks {
        Marks::None
    }
}

impl Plain for Mapping {
    ghost plain = { still-plain (exactly port_mapping) still-mapping };
}
