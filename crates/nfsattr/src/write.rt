// The public writers, from any place of a larger buffer: refusal 9, 3 for the source, 4, 3 for the encoding, 5. A refusal leaves the buffer
// as it was, and a writing leaves every byte but its own.
ghost use Rattle.std.specs.Prelude.{[]};
ghost use Rattle.nfsattr.specs.Meaning.Stat.{nfsstat};
ghost use Rattle.nfsattr.specs.Meaning.Attr.{ftype, specdata, nfstime, fattr, wcc-attr, pre-op-attr, post-op-attr, wcc-data, fsinfo};
ghost use Rattle.xdr.specs.Meaning.Format.{exactly};
ghost use Rattle.xdr.specs.Meaning.Public.{Writes};
ghost use Rattle.xdr.specs.Meaning.Views.{view_wrote};

use crate::attr::{
    fattr3, fsinfo3, ftype3, nfstime3, post_op_attr, pre_op_attr, specdata3, wcc_attr, wcc_data,
};
use crate::put::attr::{
    fsinfo3_size, post_op_attr_size, pre_op_attr_size, put_fattr3, put_fsinfo3, put_nfstime3,
    put_post_op_attr, put_pre_op_attr, put_specdata3, put_wcc_attr, put_wcc_data, wcc_data_size,
};
use crate::stat::nfsstat3;
use xdr::order::room;
use xdr::{Refusal, write_u32};

pub fn write_nfsstat3(v: nfsstat3, out: &mut [u8], at: usize) -> Result<usize, Refusal>
    ensures { Writes (exactly nfsstat) [] v at out.old (view_wrote result) out.new }
{
    write_u32(v.number(), out, at)
}

pub fn write_ftype3(v: ftype3, out: &mut [u8], at: usize) -> Result<usize, Refusal>
    ensures { Writes (exactly ftype) [] v at out.old (view_wrote result) out.new }
{
    write_u32(v.number(), out, at)
}

pub fn write_specdata3(v: specdata3, out: &mut [u8], at: usize) -> Result<usize, Refusal>
    ensures { Writes (exactly specdata) [] v at out.old (view_wrote result) out.new }
{
    let end = room(out.len(), at, specdata3::SIZE)?;
    put_specdata3(v, &mut out[at..]);
    Ok(end)
}

pub fn write_nfstime3(v: nfstime3, out: &mut [u8], at: usize) -> Result<usize, Refusal>
    ensures { Writes (exactly nfstime) [] v at out.old (view_wrote result) out.new }
{
    let end = room(out.len(), at, nfstime3::SIZE)?;
    put_nfstime3(v, &mut out[at..]);
    Ok(end)
}

pub fn write_fattr3(v: fattr3, out: &mut [u8], at: usize) -> Result<usize, Refusal>
    ensures { Writes (exactly fattr) [] v at out.old (view_wrote result) out.new }
{
    let end = room(out.len(), at, fattr3::SIZE)?;
    put_fattr3(v, &mut out[at..]);
    Ok(end)
}

pub fn write_wcc_attr(v: wcc_attr, out: &mut [u8], at: usize) -> Result<usize, Refusal>
    ensures { Writes (exactly wcc-attr) [] v at out.old (view_wrote result) out.new }
{
    let end = room(out.len(), at, wcc_attr::SIZE)?;
    put_wcc_attr(v, &mut out[at..]);
    Ok(end)
}

pub fn write_pre_op_attr(v: pre_op_attr, out: &mut [u8], at: usize) -> Result<usize, Refusal>
    ensures { Writes (exactly pre-op-attr) [] v at out.old (view_wrote result) out.new }
{
    let end = room(out.len(), at, pre_op_attr_size(v))?;
    put_pre_op_attr(v, &mut out[at..]);
    Ok(end)
}

pub fn write_post_op_attr(v: post_op_attr, out: &mut [u8], at: usize) -> Result<usize, Refusal>
    ensures { Writes (exactly post-op-attr) [] v at out.old (view_wrote result) out.new }
{
    let end = room(out.len(), at, post_op_attr_size(v))?;
    put_post_op_attr(v, &mut out[at..]);
    Ok(end)
}

pub fn write_wcc_data(v: wcc_data, out: &mut [u8], at: usize) -> Result<usize, Refusal>
    ensures { Writes (exactly wcc-data) [] v at out.old (view_wrote result) out.new }
{
    let end = room(out.len(), at, wcc_data_size(v))?;
    put_wcc_data(v, &mut out[at..]);
    Ok(end)
}

pub fn write_fsinfo3(v: fsinfo3, out: &mut [u8], at: usize) -> Result<usize, Refusal>
    ensures { Writes (exactly fsinfo) [] v at out.old (view_wrote result) out.new }
{
    let end = room(out.len(), at, fsinfo3_size(v))?;
    put_fsinfo3(v, &mut out[at..]);
    Ok(end)
}
