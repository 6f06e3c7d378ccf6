// The public readers: refusal 3, refusal 9, then the kind.
ghost use Rattle.nfsattr.specs.Meaning.Stat.{nfsstat};
ghost use Rattle.nfsattr.specs.Meaning.Attr.{ftype, specdata, nfstime, fattr, wcc-attr, pre-op-attr, post-op-attr, wcc-data, fsinfo};
ghost use Rattle.xdr.specs.Meaning.Format.{exactly};
ghost use Rattle.xdr.specs.Meaning.Public.{Answers};
ghost use Rattle.xdr.specs.Meaning.Views.{view};

use crate::attr::{
    fattr3, fsinfo3, ftype3, nfstime3, post_op_attr, pre_op_attr, specdata3, wcc_attr, wcc_data,
};
use crate::inner::attr::{
    fattr3_at, fsinfo3_at, ftype3_at, nfstime3_at, post_op_attr_at, pre_op_attr_at, specdata3_at,
    wcc_attr_at, wcc_data_at,
};
use crate::inner::stat::nfsstat3_at;
use crate::stat::nfsstat3;
use xdr::order::open_at;
use xdr::{Refusal, Took};

pub fn read_nfsstat3(src: &[u8], at: usize) -> Result<Took<nfsstat3>, Refusal>
    ensures { Answers (exactly nfsstat) src.now at (view result) }
{
    open_at(src, at)?;
    nfsstat3_at(src, at)
}

pub fn read_ftype3(src: &[u8], at: usize) -> Result<Took<ftype3>, Refusal>
    ensures { Answers (exactly ftype) src.now at (view result) }
{
    open_at(src, at)?;
    ftype3_at(src, at)
}

pub fn read_specdata3(src: &[u8], at: usize) -> Result<Took<specdata3>, Refusal>
    ensures { Answers (exactly specdata) src.now at (view result) }
{
    open_at(src, at)?;
    specdata3_at(src, at)
}

pub fn read_nfstime3(src: &[u8], at: usize) -> Result<Took<nfstime3>, Refusal>
    ensures { Answers (exactly nfstime) src.now at (view result) }
{
    open_at(src, at)?;
    nfstime3_at(src, at)
}

pub fn read_fattr3(src: &[u8], at: usize) -> Result<Took<fattr3>, Refusal>
    ensures { Answers (exactly fattr) src.now at (view result) }
{
    open_at(src, at)?;
    fattr3_at(src, at)
}

pub fn read_wcc_attr(src: &[u8], at: usize) -> Result<Took<wcc_attr>, Refusal>
    ensures { Answers (exactly wcc-attr) src.now at (view result) }
{
    open_at(src, at)?;
    wcc_attr_at(src, at)
}

pub fn read_pre_op_attr(src: &[u8], at: usize) -> Result<Took<pre_op_attr>, Refusal>
    ensures { Answers (exactly pre-op-attr) src.now at (view result) }
{
    open_at(src, at)?;
    pre_op_attr_at(src, at)
}

pub fn read_post_op_attr(src: &[u8], at: usize) -> Result<Took<post_op_attr>, Refusal>
    ensures { Answers (exactly post-op-attr) src.now at (view result) }
{
    open_at(src, at)?;
    post_op_attr_at(src, at)
}

pub fn read_wcc_data(src: &[u8], at: usize) -> Result<Took<wcc_data>, Refusal>
    ensures { Answers (exactly wcc-data) src.now at (view result) }
{
    open_at(src, at)?;
    wcc_data_at(src, at)
}

pub fn read_fsinfo3(src: &[u8], at: usize) -> Result<Took<fsinfo3>, Refusal>
    ensures { Answers (exactly fsinfo) src.now at (view result) }
{
    open_at(src, at)?;
    fsinfo3_at(src, at)
}
