// Copying the bytes of an opaque. A loop over bytes is slow for the few of a name or a handle, so up to sixty-four go as runs of four, eight or
// sixteen, which overlap where there are fewer. A run is loaded whole before it is stored, so that it is one wide move: the compiler need not know
// that the buffers are apart. From sixteen on there is no branch on the length, which is not foreseen.
ghost use Rattle.std.specs.Prelude.{◌≡◌, ◌++◌, ◌+◌, ◌≤◌, ◌<◌, min, length, take, drop};
ghost use Rattle.xdr.specs.Meaning.Public.{laid};

// A run of N bytes from a place on.
fn run_over<const N: usize>(src: &[u8], at: usize, out: &mut [u8])
    requires at_in_bounds { at + N ≤ length src.now }
    requires in_bounds { N ≤ length out.old }
    ensures { out.new ≡ laid (take N (drop at src.now)) out.old }
{
    out[..N].copy_from_slice(&src[at..at + N]);
}

// The first, the middle one and the last, of at most three.
fn copy_few(src: &[u8], out: &mut [u8])
    requires src_len_bound { length src.now ≤ 3 }
    requires src_in_bounds { length src.now ≤ length out.old }
    ensures { out.new ≡ take (length src.now) src.now ++ drop (length src.now) out.old }
{
    let n = src.len();
    if n == 0 {
        return;
    }
    out[0] = src[0];
    out[n / 2] = src[n / 2];
    out[n - 1] = src[n - 1];
}

// The first N bytes and the last, of N to twice as many.
fn copy_ends<const N: usize>(src: &[u8], out: &mut [u8])
    requires in_bounds { N ≤ length src.now }
    requires src_len_bound { length src.now ≤ N + N }
    requires src_in_bounds { length src.now ≤ length out.old }
    ensures { out.new ≡ take (length src.now) src.now ++ drop (length src.now) out.old }
{
    let last = src.len() - N;
    run_over::<N>(src, 0, &mut out[0..]);
    run_over::<N>(src, last, &mut out[last..]);
}

// The first thirty-two bytes, or all of fewer.
fn copy_front(src: &[u8], out: &mut [u8])
    requires in_bounds { 16 ≤ length src.now }
    requires src_in_bounds { length src.now ≤ length out.old }
    ensures { out.new ≡ take (min (length src.now) 32) src.now ++ drop (min (length src.now) 32) out.old }
{
    let second = (src.len() - 16).min(16);
    run_over::<16>(src, 0, &mut out[0..]);
    run_over::<16>(src, second, &mut out[second..]);
}

fn copy_runs(src: &[u8], out: &mut [u8])
    requires in_bounds { 16 ≤ length src.now }
    requires src_len_bound { length src.now ≤ 64 }
    requires src_in_bounds { length src.now ≤ length out.old }
    ensures { out.new ≡ take (length src.now) src.now ++ drop (length src.now) out.old }
{
    let last = src.len() - 16;
    let third = last.min(32);
    copy_front(src, out);
    run_over::<16>(src, third, &mut out[third..]);
    run_over::<16>(src, last, &mut out[last..]);
}

fn copy_short(src: &[u8], out: &mut [u8])
    requires src_len_bound { length src.now < 16 }
    requires src_in_bounds { length src.now ≤ length out.old }
    ensures { out.new ≡ take (length src.now) src.now ++ drop (length src.now) out.old }
{
    let n = src.len();
    if n < 4 {
        copy_few(src, out);
        return;
    }
    if n < 8 {
        copy_ends::<4>(src, out);
        return;
    }
    copy_ends::<8>(src, out);
}

pub(crate) fn copy(src: &[u8], out: &mut [u8])
    requires { length src.now ≤ length out.old }
    ensures { out.new ≡ take (length src.now) src.now ++ drop (length src.now) out.old }
{
    let n = src.len();
    if n < 16 {
        copy_short(src, out);
        return;
    }
    if n < 65 {
        copy_runs(src, out);
        return;
    }
    out[..n].copy_from_slice(src);
}
