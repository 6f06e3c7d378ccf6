// A sattr3 walked over: where it ends, and whether it is in published form, is known without keeping a value of it.
// As with one that is read into a list, nothing is said of what is refused.
ghost use Rattle.xdr.specs.Meaning.Items.{word, hyper, option};
ghost use Rattle.nfs.specs.Meaning.Set.{set_time};
ghost use Rattle.door.specs.Laws.Walked.{Walks, from_atime, from_size, from_gid, from_uid, six_fields, SixWalks};

use crate::sattr3::Step;
use nfsattr::inner::attr::nfstime3_at;
use xdr::inner::{bool_at, u32_at, u64_at};
use xdr::order::open_at;

// A flag, and the word or hyper that it sets. `plain` is of what stands before.
fn walk_word(src: &[u8], at: usize, plain: bool) -> Option<Step>
    ensures { Walks (option word) src.now at plain result }
{
    let Ok(flag) = bool_at(src, at) else {
        return None;
    };
    if !flag.value {
        return Some(Step {
            next: flag.next,
            plain: plain & flag.plain,
        });
    }
    let Ok(word) = u32_at(src, flag.next) else {
        return None;
    };
    Some(Step {
        next: word.next,
        plain: plain & (flag.plain & word.plain),
    })
}

fn walk_hyper(src: &[u8], at: usize, plain: bool) -> Option<Step>
    ensures { Walks (option hyper) src.now at plain result }
{
    let Ok(flag) = bool_at(src, at) else {
        return None;
    };
    if !flag.value {
        return Some(Step {
            next: flag.next,
            plain: plain & flag.plain,
        });
    }
    let Ok(hyper) = u64_at(src, flag.next) else {
        return None;
    };
    Some(Step {
        next: hyper.next,
        plain: plain & (flag.plain & hyper.plain),
    })
}

// A tag, and the time that it sets.
fn walk_time(src: &[u8], at: usize, plain: bool) -> Option<Step>
    ensures { Walks set_time src.now at plain result }
{
    let Ok(tag) = u32_at(src, at) else {
        return None;
    };
    if tag.value == 2 {
        let Ok(time) = nfstime3_at(src, tag.next) else {
            return None;
        };
        return Some(Step {
            next: time.next,
            plain: plain & time.plain,
        });
    }
    if tag.value < 2 {
        return Some(Step {
            next: tag.next,
            plain,
        });
    }
    None
}

// All that stands from a field on.
fn walk_from_atime(src: &[u8], at: usize, plain: bool) -> Option<Step>
    ensures { Walks from_atime src.now at plain result }
{
    let atime = walk_time(src, at, plain)?;
    walk_time(src, atime.next, atime.plain)
}

fn walk_from_size(src: &[u8], at: usize, plain: bool) -> Option<Step>
    ensures { Walks from_size src.now at plain result }
{
    let size = walk_hyper(src, at, plain)?;
    walk_from_atime(src, size.next, size.plain)
}

fn walk_from_gid(src: &[u8], at: usize, plain: bool) -> Option<Step>
    ensures { Walks from_gid src.now at plain result }
{
    let gid = walk_word(src, at, plain)?;
    walk_from_size(src, gid.next, gid.plain)
}

fn walk_from_uid(src: &[u8], at: usize, plain: bool) -> Option<Step>
    ensures { Walks from_uid src.now at plain result }
{
    let uid = walk_word(src, at, plain)?;
    walk_from_gid(src, uid.next, uid.plain)
}

fn walk_fields(src: &[u8], at: usize, plain: bool) -> Option<Step>
    ensures { Walks six_fields src.now at plain result }
{
    let mode = walk_word(src, at, plain)?;
    walk_from_uid(src, mode.next, mode.plain)
}

pub(crate) fn walk_sattr3(src: &[u8], at: usize) -> Option<Step>
    ensures { SixWalks src.now at result }
{
    let Ok(()) = open_at(src, at) else {
        return None;
    };
    walk_fields(src, at, true)
}
