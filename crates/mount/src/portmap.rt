// made by tools/generate from crates/mount/rfc/portmap.x
// The mapping of a program to its port, which the port mapper keeps (RFC 1057, appendix A).
ghost use Rattle.std.specs.Prelude.{◌≡◌, []};
ghost use Rattle.xdr.specs.Meaning.Items.{word};
ghost use Rattle.xdr.specs.Meaning.Format.{exactly, ◌⨟◌};
ghost use Rattle.xdr.specs.Meaning.Sizes.{OfSize};
ghost use Rattle.xdr.specs.Meaning.Public.{laid, Answers, Writes};
ghost use Rattle.xdr.specs.Meaning.Views.{view, view_wrote};
ghost use Rattle.xdr.specs.Laws.Fields.{Lays};
ghost use Rattle.mount.specs.Meaning.Portmap.{port_mapping};

use xdr::inner::{put_u32, u32_at};
use xdr::order::{open_at, room};
use xdr::{Refusal, Took};

#[derive(Clone, Copy)]
pub struct mapping {
    pub prog: u32,
    pub vers: u32,
    pub prot: u32,
    pub port: u32,
}

impl mapping {
    pub const SIZE: usize = 16;

    pub fn size() -> usize
        ensures { OfSize result port_mapping }
    {
        mapping::SIZE
    }
}

pub fn mapping_at(src: &[u8], at: usize) -> Result<Took<mapping>, Refusal>
    ensures { view result ≡ port_mapping.kind.read src.now at }
{
    let prog = u32_at(src, at)?;
    let vers = u32_at(src, prog.next)?;
    let prot = u32_at(src, vers.next)?;
    let port = u32_at(src, prot.next)?;
    Ok(Took {
        value: mapping {
            prog: prog.value,
            vers: vers.value,
            prot: prot.value,
            port: port.value,
        },
        next: port.next,
        plain: prog.plain & vers.plain & prot.plain & port.plain,
    })
}

fn put_mapping_3(f3: u32, f4: u32, out: &mut [u8])
    ensures { Lays (exactly word ⨟ exactly word) [] (f3, f4) out.old out.new }
{
    if out.len() < 4 {
        return;
    }
    put_u32(f3, &mut out[0..]);
    put_u32(f4, &mut out[4..]);
}

fn put_mapping_2(f2: u32, f3: u32, f4: u32, out: &mut [u8])
    ensures { Lays (exactly word ⨟ exactly word ⨟ exactly word) [] (f2, (f3, f4)) out.old out.new }
{
    if out.len() < 4 {
        return;
    }
    put_u32(f2, &mut out[0..]);
    put_mapping_3(f3, f4, &mut out[4..]);
}

fn put_mapping_1(f1: u32, f2: u32, f3: u32, f4: u32, out: &mut [u8])
    ensures { Lays (exactly word ⨟ exactly word ⨟ exactly word ⨟ exactly word) [] (f1, (f2, (f3, f4))) out.old out.new }
{
    if out.len() < 4 {
        return;
    }
    put_u32(f1, &mut out[0..]);
    put_mapping_2(f2, f3, f4, &mut out[4..]);
}

pub fn put_mapping(v: mapping, out: &mut [u8])
    ensures { out.new ≡ laid (port_mapping.kind.write v) out.old }
{
    if out.len() < mapping::SIZE {
        return;
    }
    let f1 = v.prog;
    let f2 = v.vers;
    let f3 = v.prot;
    let f4 = v.port;
    put_mapping_1(f1, f2, f3, f4, out);
}

pub fn read_mapping(src: &[u8], at: usize) -> Result<Took<mapping>, Refusal>
    ensures { Answers (exactly port_mapping) src.now at (view result) }
{
    open_at(src, at)?;
    mapping_at(src, at)
}

pub fn write_mapping(v: mapping, out: &mut [u8], at: usize) -> Result<usize, Refusal>
    ensures { Writes (exactly port_mapping) [] v at out.old (view_wrote result) out.new }
{
    let end = room(out.len(), at, mapping::SIZE)?;
    put_mapping(v, &mut out[at..]);
    Ok(end)
}
