// A fattr3 read straight into the list of its figures: each group of fields is put where it stays as soon as it is read. The reader of `nfs`
// makes a value of them all, more than the registers hold.
// As with a sattr3, nothing is said of what is refused.
ghost use Rattle.std.specs.Prelude.{◌≡◌, [], ◌∷◌, ◌+◌, ◌≤◌, length};
ghost use Rattle.std.proofs.lemmas.List.Edits.{sets};
ghost use Rattle.nfsattr.specs.Meaning.Attr.{fattr};
ghost use Rattle.nfsattr.specs.Laws.Groups.{ids, sizes, times};
ghost use Rattle.door.specs.Meaning.Values.{fattr3_figures};
ghost use Rattle.door.specs.Laws.Taken.{Takes, Whole, WholeAnswers};
ghost use Rattle.door.specs.Laws.TakenFattr.{ids_figures, sizes_figures, times_figures};

use crate::figures::{put_three, put_two};
use crate::sattr3::Step;
use nfs::fattr3;
use nfsattr::inner::attr::ftype3_at;
use xdr::inner::{u32_at, u64_pair_at};
use xdr::order::open_at;

// Six figures from the k-th on.
fn put_six(a: u64, b: u64, c: u64, d: u64, e: u64, f: u64, info: &mut [u64], k: usize)
    requires { k + 6 ≤ length info.old }
    ensures { info.new ≡ sets info.old k (a ∷ b ∷ c ∷ d ∷ e ∷ f ∷ []) }
{
    put_three(a, b, c, info, k);
    put_three(d, e, f, info, k + 3);
}

// The figures of a fattr3 stand from the third of the list on: five, six and six.
fn take_ids(src: &[u8], at: usize, info: &mut [u64]) -> Option<Step>
    requires { 19 ≤ length info.old }
    ensures { Takes ids ids_figures src.now at 2 info.old result info.new }
{
    let Ok(ftype) = ftype3_at(src, at) else {
        return None;
    };
    let Ok(mode) = u32_at(src, ftype.next) else {
        return None;
    };
    let Ok(nlink) = u32_at(src, mode.next) else {
        return None;
    };
    let Ok(uid) = u32_at(src, nlink.next) else {
        return None;
    };
    let Ok(gid) = u32_at(src, uid.next) else {
        return None;
    };
    let kind = ftype.value;
    put_two(kind.number() as u64, mode.value as u64, info, 2);
    put_three(
        nlink.value as u64,
        uid.value as u64,
        gid.value as u64,
        info,
        4,
    );
    Some(Step {
        next: gid.next,
        plain: ftype.plain & (mode.plain & nlink.plain) & (uid.plain & gid.plain),
    })
}

// Each word is read by itself, here and in the other groups: two words that one answer holds, or one value, the compiler packs into one, and
// takes it apart again.
fn take_sizes(src: &[u8], at: usize, info: &mut [u64]) -> Option<Step>
    requires { 19 ≤ length info.old }
    ensures { Takes sizes sizes_figures src.now at 7 info.old result info.new }
{
    let Ok(sizes) = u64_pair_at(src, at) else {
        return None;
    };
    let Ok(specdata1) = u32_at(src, sizes.next) else {
        return None;
    };
    let Ok(specdata2) = u32_at(src, specdata1.next) else {
        return None;
    };
    let Ok(file) = u64_pair_at(src, specdata2.next) else {
        return None;
    };
    put_six(
        sizes.value.0,
        sizes.value.1,
        specdata1.value as u64,
        specdata2.value as u64,
        file.value.0,
        file.value.1,
        info,
        7,
    );
    Some(Step {
        next: file.next,
        plain: sizes.plain & (specdata1.plain & specdata2.plain) & file.plain,
    })
}

fn take_times(src: &[u8], at: usize, info: &mut [u64]) -> Option<Step>
    requires { 19 ≤ length info.old }
    ensures { Takes times times_figures src.now at 13 info.old result info.new }
{
    let Ok(atime_s) = u32_at(src, at) else {
        return None;
    };
    let Ok(atime_ns) = u32_at(src, atime_s.next) else {
        return None;
    };
    let Ok(mtime_s) = u32_at(src, atime_ns.next) else {
        return None;
    };
    let Ok(mtime_ns) = u32_at(src, mtime_s.next) else {
        return None;
    };
    let Ok(ctime_s) = u32_at(src, mtime_ns.next) else {
        return None;
    };
    let Ok(ctime_ns) = u32_at(src, ctime_s.next) else {
        return None;
    };
    put_six(
        atime_s.value as u64,
        atime_ns.value as u64,
        mtime_s.value as u64,
        mtime_ns.value as u64,
        ctime_s.value as u64,
        ctime_ns.value as u64,
        info,
        13,
    );
    Some(Step {
        next: ctime_ns.next,
        plain: (atime_s.plain & atime_ns.plain)
            & (mtime_s.plain & mtime_ns.plain)
            & (ctime_s.plain & ctime_ns.plain),
    })
}

fn take_groups(src: &[u8], at: usize, info: &mut [u64]) -> Option<Step>
    requires { 19 ≤ length info.old }
    ensures { Whole fattr fattr3_figures 17 src.now at info.old result info.new }
{
    let ids = take_ids(src, at, info)?;
    let sizes = take_sizes(src, ids.next, info)?;
    let times = take_times(src, sizes.next, info)?;
    Some(Step {
        next: times.next,
        plain: ids.plain & (sizes.plain & times.plain),
    })
}

// Where all of it is there, one test of room will do: the compiler then drops the others.
pub(crate) fn take_fattr3(src: &[u8], at: usize, info: &mut [u64]) -> Option<Step>
    requires { 19 ≤ length info.old }
    ensures { WholeAnswers fattr fattr3_figures 17 src.now at info.old result info.new }
{
    if src.len() < fattr3::SIZE {
        return None;
    }
    if src.len() - fattr3::SIZE < at {
        return None;
    }
    let Ok(()) = open_at(src, at) else {
        return None;
    };
    take_groups(src, at, info)
}
