// Export lists (RFC 1813, appendix I): the results of EXPORT. A list is held as the place of its first flag and the count of its entries, and is
// walked with `next_export`. A path above 1,024 bytes is refused with 10 once the whole list is read.
ghost use Rattle.std.specs.Prelude.{◌≡◌, ◌+◌, ◌-◌, ◌≤◌, true, length};
ghost use Rattle.xdr.specs.Meaning.Items.{flag};
ghost use Rattle.xdr.specs.Meaning.Format.{exactly, ◌⨟◌};
ghost use Rattle.xdr.specs.Meaning.Formats.{bytes};
ghost use Rattle.xdr.specs.Meaning.Public.{Answers};
ghost use Rattle.xdr.specs.Meaning.Within.{WritesWithin};
ghost use Rattle.xdr.specs.Meaning.Views.{view, view_wrote};
ghost use Rattle.xdr.specs.Laws.Fields.{Lays};
ghost use Rattle.xdr.specs.Laws.Laying.{LaysFrom};
ghost use Rattle.mount.specs.Meaning.Group.{groups};
ghost use Rattle.mount.specs.Laws.Export.{over_bound};
ghost use Rattle.mount.specs.Meaning.Export.{node, nodes, long_list, next_node, next-export, exports, or_long, finished, walk_of, WalkedWithin, NodesTo};

use crate::group::{groups_at, put_groups};
use crate::path::MNTPATHLEN;
use xdr::inner::{bool_at, opaque_at, opaque_size, put_bool, put_opaque};
use xdr::order::{open_at, place};
use xdr::{Piece, Refusal, Took};

// An export: its path, and its groups, which are a list of names.
#[derive(Clone, Copy)]
pub struct exportnode {
    pub ex_dir: Piece,
    pub ex_groups: Piece,
}

// An export list: the place of its first flag, and the count of its entries, with one mark over them all.
pub type exports = Piece;

// A list from its first flag to its end: whether all its paths are within the bound, or where the first is that is not. `clean` is its mark.
// Both are lists that were read, each with its own figures, so it is no `Option`.
#[derive(Clone, Copy)]
pub enum Walked {
    Within {
        count: usize,
        next: usize,
        plain: bool,
        clean: bool,
    },
    Over {
        count: usize,
        place: usize,
    },
}

// An entry behind its flag, whatever the length of its path.
pub fn exportnode_at(src: &[u8], at: usize) -> Result<Took<exportnode>, Refusal>
    ensures { view result ≡ node.held.read src.now at }
{
    let ex_dir = opaque_at(src, at)?;
    let ex_groups = groups_at(src, ex_dir.next)?;
    Ok(Took {
        value: exportnode {
            ex_dir: ex_dir.value,
            ex_groups: ex_groups.value,
        },
        next: ex_groups.next,
        plain: ex_dir.plain & ex_groups.plain,
    })
}

// What stands at a place of a list: an entry, whatever the length of its path, or none at its end.
pub fn next_node_at(src: &[u8], at: usize) -> Result<Took<Option<exportnode>>, Refusal>
    ensures { view result ≡ next_node.held.read src.now at }
{
    let more = bool_at(src, at)?;
    if !more.value {
        return Ok(Took {
            value: None,
            next: more.next,
            plain: more.plain,
        });
    }
    let entry = exportnode_at(src, more.next)?;
    Ok(Took {
        value: Some(entry.value),
        next: entry.next,
        plain: more.plain & entry.plain,
    })
}

// Where the first path over the bound stands, once an entry is read whose flag stands at a place, and whose path has n bytes; `long` is where
// it stood before that, if there was one.
fn or_long(long: Option<usize>, here: usize, n: usize, next: usize) -> Option<usize>
    requires { here + 4 ≤ next }
    ensures { result ≡ or_long long here n }
{
    if n <= MNTPATHLEN {
        return long;
    }
    if let Some(place) = long {
        return Some(place);
    }
    Some(here + 4)
}

// All entries from a place on: a loop, and no recursion, so a long list needs no stack. It is no `for`: each step says where the next stands.
pub fn walk(src: &[u8], at: usize) -> Result<Walked, Refusal>
    ensures { result ≡ walk_of src.now at }
{
    let mut here = at;
    let mut count: usize = 0;
    let mut plain = true;
    let mut clean = true;
    let mut long: Option<usize> = None;
    loop {
        let step = next_node_at(src, here)?;
        let Some(entry) = step.value else {
            return Ok(finish(long, count, step.next, plain & step.plain, clean));
        };
        let dir = entry.ex_dir;
        let groups = entry.ex_groups;
        long = or_long(long, here, dir.count, step.next);
        here = step.next;
        count += 1;
        plain = plain & step.plain;
        clean = clean & dir.clean & groups.clean;
    }
}

fn finish(long: Option<usize>, count: usize, next: usize, plain: bool, clean: bool) -> Walked
    ensures { result ≡ finished long count next plain clean }
{
    match long {
        None => Walked::Within {
            count,
            next,
            plain,
            clean,
        },
        Some(place) => Walked::Over { count, place },
    }
}

pub fn exports_at(src: &[u8], at: usize) -> Result<Took<Piece>, Refusal>
    ensures { view result ≡ exports.held.read src.now at }
{
    let list = walk(src, at)?;
    match list {
        Walked::Within {
            count,
            next,
            plain,
            clean,
        } => Ok(Took {
            value: Piece { at, count, clean },
            next,
            plain,
        }),
        Walked::Over { count: _, place } => Err(Refusal::LongPath(place)),
    }
}

pub fn read_exports(src: &[u8], at: usize) -> Result<Took<Piece>, Refusal>
    ensures { Answers exports src.now at (view result) }
{
    open_at(src, at)?;
    exports_at(src, at)
}

pub fn next_export_at(src: &[u8], at: usize) -> Result<Took<Option<exportnode>>, Refusal>
    ensures { view result ≡ next-export.held.read src.now at }
{
    let step = next_node_at(src, at)?;
    let Some(entry) = step.value else {
        return Ok(step);
    };
    if MNTPATHLEN < entry.ex_dir.count {
        return Err(Refusal::LongPath(at + 4));
    }
    Ok(step)
}

// The entry at a place of a list, and where the next one stands. A list that was read is walked by it from its place on.
pub fn next_export(src: &[u8], at: usize) -> Result<Took<Option<exportnode>>, Refusal>
    ensures { Answers next-export src.now at (view result) }
{
    open_at(src, at)?;
    next_export_at(src, at)
}

// An entry at the front of a buffer: its path, and behind it its groups.
fn put_node_1(src: &[u8], f1: Piece, f2: Piece, out: &mut [u8])
    ensures { Lays (bytes ⨟ groups) src.now (f1, f2) out.old out.new }
{
    let n = opaque_size(f1.count);
    if out.len() < n {
        return;
    }
    put_opaque(src, f1, &mut out[0..]);
    put_groups(src, f2.at, &mut out[n..]);
}

fn put_node(src: &[u8], x: exportnode, out: &mut [u8])
    ensures { Lays node src.now x out.old out.new }
{
    let f1 = x.ex_dir;
    let f2 = x.ex_groups;
    put_node_1(src, f1, f2, out);
}

// The same behind its flag.
fn put_entry(src: &[u8], x: exportnode, out: &mut [u8])
    ensures { Lays (exactly flag ⨟ node) src.now (true, x) out.old out.new }
{
    if out.len() < 4 {
        return;
    }
    put_bool(true, &mut out[0..]);
    put_node(src, x, &mut out[4..]);
}

fn put_next_node(src: &[u8], x: Option<exportnode>, out: &mut [u8])
    ensures { Lays next_node src.now x out.old out.new }
{
    match x {
        None => put_bool(false, out),
        Some(entry) => put_entry(src, entry, out),
    }
}

// The list that is read at a place of a source, entry by entry, at the front of a buffer. A form of a list is as long as what is written, so
// each entry goes as far behind the buffer's start as it stands behind the list's.
fn put_exports(src: &[u8], at: usize, out: &mut [u8])
    ensures { LaysFrom node src.now at out.old out.new }
{
    let mut here = at;
    loop {
        let Ok(step) = next_node_at(src, here) else {
            return;
        };
        if out.len() < step.next - at {
            return;
        }
        let to = here - at;
        put_next_node(src, step.value, &mut out[to..]);
        let Some(_) = step.value else {
            return;
        };
        here = step.next;
    }
}

// The same of a list that was walked, where there is room for it. What came in published form is its own rewriting, so it is copied as it stands.
fn lay_exports(src: &[u8], at: usize, next: usize, plain: bool, out: &mut [u8])
    requires nodes_to { NodesTo src.now at next plain }
    requires at_in_bounds { next - at ≤ length out.old }
    ensures { LaysFrom node src.now at out.old out.new }
{
    if plain {
        let n = next - at;
        let part = &src[at..next];
        out[..n].copy_from_slice(part);
        return;
    }
    put_exports(src, at, out);
}

// A list that does not read, or in which a path is over the bound: 9, 3 for the source, 4, and then 10.
fn refuse_long(source: usize, inside: bool, room: usize, at: usize) -> Result<usize, Refusal>
    ensures { view_wrote result ≡ over_bound source inside room at }
{
    place(source, inside, 0, room, at)?;
    Err(Refusal::LongPath(0))
}

// A list that was walked, and is within the bound.
fn write_walked(
    src: &[u8],
    x: Piece,
    count: usize,
    next: usize,
    plain: bool,
    out: &mut [u8],
    at: usize,
) -> Result<usize, Refusal>
    requires { WalkedWithin src.now x.at count next plain }
    ensures { WritesWithin nodes long_list src.now x at out.old (view_wrote result) out.new }
{
    let end = place(src.len(), count == x.count, next - x.at, out.len(), at)?;
    lay_exports(src, x.at, next, plain, &mut out[at..]);
    Ok(end)
}

// 4 where the list does not read with its count at its place; 10 right after it.
pub fn write_exports(src: &[u8], x: Piece, out: &mut [u8], at: usize) -> Result<usize, Refusal>
    ensures { WritesWithin nodes long_list src.now x at out.old (view_wrote result) out.new }
{
    let Ok(list) = walk(src, x.at) else {
        return refuse_long(src.len(), false, out.len(), at);
    };
    match list {
        Walked::Within {
            count,
            next,
            plain,
            clean: _,
        } => write_walked(src, x, count, next, plain, out, at),
        Walked::Over { count, place: _ } => refuse_long(src.len(), count == x.count, out.len(), at),
    }
}
