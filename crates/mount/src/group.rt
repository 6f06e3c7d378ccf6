// Groups of an export (RFC 1813, appendix I): a list of names, each behind a true flag, and a false flag at its end. A list is held as the place
// of its first flag and the count of its names, with one mark over them all.
ghost use Rattle.std.specs.Prelude.{◌≡◌, true, ◌+◌, ◌≤◌};
ghost use Rattle.xdr.specs.Meaning.Items.{flag};
ghost use Rattle.xdr.specs.Meaning.Format.{exactly, ◌⨟◌};
ghost use Rattle.xdr.specs.Meaning.Formats.{bytes};
ghost use Rattle.xdr.specs.Meaning.Public.{Answers};
ghost use Rattle.xdr.specs.Meaning.Views.{view};
ghost use Rattle.xdr.specs.Laws.Fields.{Lays};
ghost use Rattle.xdr.specs.Laws.Laying.{LaysFrom};
ghost use Rattle.mount.specs.Laws.Group.{names_on};
ghost use Rattle.mount.specs.Meaning.Group.{groups, next-group};

use xdr::inner::{bool_at, opaque_at, put_bool, put_opaque};
use xdr::order::open_at;
use xdr::{Piece, Refusal, Took};

// What stands at a place of a list of names: a name, or none at its end.
pub fn next_group_at(src: &[u8], at: usize) -> Result<Took<Option<Piece>>, Refusal>
    ensures { view result ≡ next-group.held.read src.now at }
{
    let more = bool_at(src, at)?;
    if !more.value {
        return Ok(Took {
            value: None,
            next: more.next,
            plain: more.plain,
        });
    }
    let name = opaque_at(src, more.next)?;
    Ok(Took {
        value: Some(name.value),
        next: name.next,
        plain: more.plain & name.plain,
    })
}

// All names from the second on, which stands at a place if there is one: a loop, and no recursion, so a long list needs no stack. It is no
// `for`: each step says where the next stands.
fn names_behind(
    src: &[u8],
    at: usize,
    from: usize,
    first: bool,
    mark: bool,
) -> Result<Took<Piece>, Refusal>
    requires at_value { groups.held.read src.now at ≡ names_on src.now at from 1 first mark }
    requires at_bound { at + 1 ≤ from }
    ensures { view result ≡ groups.held.read src.now at }
{
    let mut here = from;
    let mut count: usize = 1;
    let mut plain = first;
    let mut clean = mark;
    loop {
        let step = next_group_at(src, here)?;
        let Some(name) = step.value else {
            return Ok(Took {
                value: Piece { at, count, clean },
                next: step.next,
                plain: plain & step.plain,
            });
        };
        here = step.next;
        count += 1;
        plain = plain & step.plain;
        clean = clean & name.clean;
    }
}

// All names from a place on. Most exports have none, so what stands first is asked before the loop.
pub fn groups_at(src: &[u8], at: usize) -> Result<Took<Piece>, Refusal>
    ensures { view result ≡ groups.held.read src.now at }
{
    let step = next_group_at(src, at)?;
    let Some(name) = step.value else {
        return Ok(Took {
            value: Piece {
                at,
                count: 0,
                clean: true,
            },
            next: step.next,
            plain: step.plain,
        });
    };
    names_behind(src, at, step.next, step.plain, name.clean)
}

// The name at a place of a list, and where the next one stands. A list that was read is walked by it from its place on.
pub fn next_group(src: &[u8], at: usize) -> Result<Took<Option<Piece>>, Refusal>
    ensures { Answers next-group src.now at (view result) }
{
    open_at(src, at)?;
    next_group_at(src, at)
}

// A name behind its flag, at the front of a buffer.
fn put_name(src: &[u8], x: Piece, out: &mut [u8])
    ensures { Lays (exactly flag ⨟ bytes) src.now (true, x) out.old out.new }
{
    if out.len() < 4 {
        return;
    }
    put_bool(true, &mut out[0..]);
    put_opaque(src, x, &mut out[4..]);
}

fn put_next_group(src: &[u8], x: Option<Piece>, out: &mut [u8])
    ensures { Lays next-group src.now x out.old out.new }
{
    match x {
        None => put_bool(false, out),
        Some(name) => put_name(src, name, out),
    }
}

// The list that is read at a place of a source, name by name, at the front of a buffer. A form of a list is as long as what is written, so
// each name goes as far behind the buffer's start as it stands behind the list's.
pub(crate) fn put_groups(src: &[u8], at: usize, out: &mut [u8])
    ensures { LaysFrom bytes src.now at out.old out.new }
{
    let mut here = at;
    loop {
        let Ok(step) = next_group_at(src, here) else {
            return;
        };
        if out.len() < step.next - at {
            return;
        }
        let to = here - at;
        put_next_group(src, step.value, &mut out[to..]);
        let Some(_) = step.value else {
            return;
        };
        here = step.next;
    }
}
