// The kinds of one size.
ghost use Rattle.nfsattr.specs.Meaning.Sizes.{SizesHold};

use crate::attr::{fattr3, ftype3, nfstime3, specdata3, wcc_attr};
use crate::stat::nfsstat3;

// The constant `SIZE` of each.
#[derive(Clone, Copy)]
pub struct FixedSizes {
    pub nfsstat3: usize,
    pub ftype3: usize,
    pub specdata3: usize,
    pub nfstime3: usize,
    pub fattr3: usize,
    pub wcc_attr: usize,
}

// The contract holds each constant to the bytes that every form of its kind has.
pub fn fixed_sizes() -> FixedSizes
    ensures { SizesHold result }
{
    FixedSizes {
        nfsstat3: nfsstat3::SIZE,
        ftype3: ftype3::SIZE,
        specdata3: specdata3::SIZE,
        nfstime3: nfstime3::SIZE,
        fattr3: fattr3::SIZE,
        wcc_attr: wcc_attr::SIZE,
    }
}
