// A sattr3 copied as it stands, and its flags then written anew: nothing else in it can be loose, so nothing else of it need be known.
ghost use Rattle.std.specs.Prelude.{◌-◌, ◌≤◌, length};
ghost use Rattle.door.specs.Laws.Walked.{from_size, from_gid, from_uid, six_fields, SixWalked};
ghost use Rattle.door.specs.Laws.Settled.{FlagSettled, Settled};
ghost use Rattle.door.specs.Laws.Recast.{Recast};
ghost use Rattle.door.specs.Meaning.Copy.{Span};
ghost use Rattle.door.specs.Meaning.Exports.{RewriteCalled};

use crate::exports::{SHORT_LIST, tell_copied};
use crate::figures::{bit, put_three};
use crate::files::Sattr3;
use crate::kind::copy;
use crate::walk::walk_sattr3;
use xdr::inner::{bool_at, put_bool, put_bytes};

// The flag at a place. The answer is the place after what it sets, which has `size` bytes.
fn settle_flag(out: &mut [u8], at: usize, size: usize) -> usize
    requires out_len_bound { length out.old ≤ 1048576 }
    requires size_bound { size ≤ 8 }
    ensures { FlagSettled size at out.old result out.new }
{
    let Ok(flag) = bool_at(out, at) else {
        return at;
    };
    put_bool(flag.value, &mut out[at..]);
    if flag.value {
        return flag.next + size;
    }
    flag.next
}

// The flags from a field on.
fn settle_from_size(out: &mut [u8], at: usize)
    requires { length out.old ≤ 1048576 }
    ensures { Settled from_size at out.old out.new }
{
    settle_flag(out, at, 8);
}

fn settle_from_gid(out: &mut [u8], at: usize)
    requires { length out.old ≤ 1048576 }
    ensures { Settled from_gid at out.old out.new }
{
    let n = settle_flag(out, at, 4);
    settle_from_size(out, n);
}

fn settle_from_uid(out: &mut [u8], at: usize)
    requires { length out.old ≤ 1048576 }
    ensures { Settled from_uid at out.old out.new }
{
    let n = settle_flag(out, at, 4);
    settle_from_gid(out, n);
}

fn settle_fields(out: &mut [u8])
    requires { length out.old ≤ 1048576 }
    ensures { Settled six_fields 0 out.old out.new }
{
    let n = settle_flag(out, 0, 4);
    settle_from_uid(out, n);
}

// What was walked over up to `next`, at the front of a buffer that has room.
fn recast_sattr3(src: &[u8], at: usize, next: usize, plain: bool, out: &mut [u8])
    requires span { Span src.now at next }
    requires src_len_bound { length src.now ≤ 1048576 }
    requires at_in_bounds { next - at ≤ length out.old }
    ensures { Recast src.now at next plain out.old out.new }
{
    put_bytes(&src[at..next], out);
    if plain {
        return;
    }
    let n = next - at;
    settle_fields(&mut out[0..n]);
}

// Where it is refused, or there is no room: by the values that it has. It is lent slices of its own.
fn rewrite_sattr3_carefully(src: &[u8], at: usize, out: &mut [u8], info: &mut [u64]) -> u32
    requires { 3 ≤ length info.old }
    ensures { RewriteCalled 44 src.now at out.old info.old result out.new info.new }
{
    let c = copy::<Sattr3>(src, at, out, 0);
    tell_copied(c, info)
}

// What was walked over, if there is room for it.
fn rewrite_walked(
    src: &[u8],
    at: usize,
    next: usize,
    plain: bool,
    out: &mut [u8],
    info: &mut [u64],
) -> u32
    requires six_walked { SixWalked src.now at next plain }
    requires in_bounds { 3 ≤ length info.old }
    ensures { RewriteCalled 44 src.now at out.old info.old result out.new info.new }
{
    let n = next - at;
    if out.len() < n {
        return rewrite_sattr3_carefully(&src[0..], at, &mut out[0..], &mut info[0..]);
    }
    recast_sattr3(src, at, next, plain, out);
    put_three(next as u64, bit(plain), n as u64, info, 0);
    0
}

pub(crate) fn rewrite_sattr3(src: &[u8], at: usize, out: &mut [u8], info: &mut [u64]) -> u32
    ensures { RewriteCalled 44 src.now at out.old info.old result out.new info.new }
{
    if info.len() < 3 {
        return SHORT_LIST;
    }
    let Some(walked) = walk_sattr3(src, at) else {
        return rewrite_sattr3_carefully(&src[0..], at, &mut out[0..], &mut info[0..]);
    };
    rewrite_walked(src, at, walked.next, walked.plain, out, info)
}
