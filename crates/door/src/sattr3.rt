// A sattr3 read straight into the list of its figures: each is put where it stays as soon as it is read. The reader of `nfs` makes a value of
// six enums, which the compiler packs into words and takes apart again.
// Nothing is said of what is refused: who asks then has it read once more, by the reader that says why.
ghost use Rattle.std.specs.Prelude.{◌+◌, ◌≤◌, length};
ghost use Rattle.xdr.specs.Meaning.Items.{word, hyper, option};
ghost use Rattle.nfs.specs.Meaning.Set.{set_time, sattr};
ghost use Rattle.door.specs.Meaning.Values.{option_figures, time_figures, sattr3_figures};
ghost use Rattle.door.specs.Laws.Taken.{Takes, OwnerTakes, ChangeTakes, Whole, WholeAnswers};

use crate::figures::{put_three, put_two};
use nfsattr::inner::attr::nfstime3_at;
use xdr::inner::{bool_at, u32_at, u64_at};
use xdr::order::open_at;

// Where a reading ended, and whether it was of published form: `None` where it is refused.
#[derive(Clone, Copy)]
pub(crate) struct Step {
    pub next: usize,
    pub plain: bool,
}

// A flag, and the word or hyper that it sets.
fn take_word(src: &[u8], at: usize, info: &mut [u64], k: usize) -> Option<Step>
    requires { k + 2 ≤ length info.old }
    ensures { Takes (option word) option_figures src.now at k info.old result info.new }
{
    let Ok(flag) = bool_at(src, at) else {
        return None;
    };
    if !flag.value {
        put_two(0, 0, info, k);
        return Some(Step {
            next: flag.next,
            plain: flag.plain,
        });
    }
    let Ok(word) = u32_at(src, flag.next) else {
        return None;
    };
    put_two(1, word.value as u64, info, k);
    Some(Step {
        next: word.next,
        plain: flag.plain & word.plain,
    })
}

fn take_hyper(src: &[u8], at: usize, info: &mut [u64], k: usize) -> Option<Step>
    requires { k + 2 ≤ length info.old }
    ensures { Takes (option hyper) option_figures src.now at k info.old result info.new }
{
    let Ok(flag) = bool_at(src, at) else {
        return None;
    };
    if !flag.value {
        put_two(0, 0, info, k);
        return Some(Step {
            next: flag.next,
            plain: flag.plain,
        });
    }
    let Ok(hyper) = u64_at(src, flag.next) else {
        return None;
    };
    put_two(1, hyper.value, info, k);
    Some(Step {
        next: hyper.next,
        plain: flag.plain & hyper.plain,
    })
}

// A tag, and the time that it sets.
fn take_time(src: &[u8], at: usize, info: &mut [u64], k: usize) -> Option<Step>
    requires { k + 3 ≤ length info.old }
    ensures { Takes set_time time_figures src.now at k info.old result info.new }
{
    let Ok(tag) = u32_at(src, at) else {
        return None;
    };
    if tag.value == 2 {
        let Ok(time) = nfstime3_at(src, tag.next) else {
            return None;
        };
        put_three(
            2,
            time.value.seconds as u64,
            time.value.nseconds as u64,
            info,
            k,
        );
        return Some(Step {
            next: time.next,
            plain: time.plain,
        });
    }
    if tag.value < 2 {
        put_three(tag.value as u64, 0, 0, info, k);
        return Some(Step {
            next: tag.next,
            plain: true,
        });
    }
    None
}

// The figures of a sattr3 stand from the third of the list on: six for mode, uid and gid, then eight for size, atime and mtime.
fn take_owner(src: &[u8], at: usize, info: &mut [u64]) -> Option<Step>
    requires { 16 ≤ length info.old }
    ensures { OwnerTakes src.now at info.old result info.new }
{
    let mode = take_word(src, at, info, 2)?;
    let uid = take_word(src, mode.next, info, 4)?;
    let gid = take_word(src, uid.next, info, 6)?;
    Some(Step {
        next: gid.next,
        plain: mode.plain & (uid.plain & gid.plain),
    })
}

fn take_change(src: &[u8], at: usize, info: &mut [u64]) -> Option<Step>
    requires { 16 ≤ length info.old }
    ensures { ChangeTakes src.now at info.old result info.new }
{
    let size = take_hyper(src, at, info, 8)?;
    let atime = take_time(src, size.next, info, 10)?;
    let mtime = take_time(src, atime.next, info, 13)?;
    Some(Step {
        next: mtime.next,
        plain: size.plain & (atime.plain & mtime.plain),
    })
}

fn take_fields(src: &[u8], at: usize, info: &mut [u64]) -> Option<Step>
    requires { 16 ≤ length info.old }
    ensures { Whole sattr sattr3_figures 14 src.now at info.old result info.new }
{
    let owner = take_owner(src, at, info)?;
    let change = take_change(src, owner.next, info)?;
    Some(Step {
        next: change.next,
        plain: owner.plain & change.plain,
    })
}

pub(crate) fn take_sattr3(src: &[u8], at: usize, info: &mut [u64]) -> Option<Step>
    requires { 16 ≤ length info.old }
    ensures { WholeAnswers sattr sattr3_figures 14 src.now at info.old result info.new }
{
    let Ok(()) = open_at(src, at) else {
        return None;
    };
    take_fields(src, at, info)
}
