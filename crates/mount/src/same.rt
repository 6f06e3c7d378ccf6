// Comparing export lists, entry by entry: as messages, so odd flags and padding that is not zero make no difference.
ghost use Rattle.std.specs.Prelude.{◌≡◌, true};
ghost use Rattle.xdr.specs.Meaning.Formats.{bytes};
ghost use Rattle.mount.specs.Meaning.Group.{groups, next-group};
ghost use Rattle.mount.specs.Meaning.Export.{node, nodes, next_node};
ghost use Rattle.mount.specs.Meaning.Same.{Alike, with_count, worse, standing_of, Compares};

use crate::export::{Walked, exportnode, next_node_at, walk};
use crate::group::next_group_at;
use xdr::{MOST, Piece, Refusal};

// How a held list stands in its source: it does not read with its count at its place, it has a path over the bound, or neither. Of these three
// outcomes two refuse, and the first goes before the second.
#[derive(Clone, Copy)]
pub enum Standing {
    Outside,
    Long,
    Within,
}

// What was found of a list counts only if it has as many entries as were read.
fn with_count(count: usize, n: usize, found: Standing) -> Standing
    ensures { result ≡ with_count count n found }
{
    if count == n {
        return found;
    }
    Standing::Outside
}

fn stands(src: &[u8], x: Piece) -> Standing
    ensures { result ≡ standing_of src.now x }
{
    let at = x.at;
    let n = x.count;
    let Ok(list) = walk(src, at) else {
        return Standing::Outside;
    };
    match list {
        Walked::Within {
            count,
            next: _,
            plain: _,
            clean: _,
        } => with_count(count, n, Standing::Within),
        Walked::Over { count, place: _ } => with_count(count, n, Standing::Long),
    }
}

// The refusal of two lists is the earlier of theirs.
fn both(u: Standing, v: Standing) -> Standing
    ensures { result ≡ worse u v }
{
    match u {
        Standing::Outside => Standing::Outside,
        Standing::Long => match v {
            Standing::Outside => Standing::Outside,
            Standing::Long => Standing::Long,
            Standing::Within => Standing::Long,
        },
        Standing::Within => v,
    }
}

// Two pieces of bytes. Lengths first: a piece that is the front of another is not the same. The bytes are compared here, one by one: comparing two
// slices would be a call in the archive for C.
fn same_bytes(a: &[u8], p: Piece, b: &[u8], q: Piece) -> bool
    requires p_value { bytes.held.inside a.now p ≡ true }
    requires q_value { bytes.held.inside b.now q ≡ true }
    ensures { Alike bytes a.now p b.now q result }
{
    let n = p.count;
    if n != q.count {
        return false;
    }
    let i = p.at;
    let j = q.at;
    for k in 0..n {
        if a[i + k] != b[j + k] {
            return false;
        }
    }
    true
}

fn same_next_group(a: &[u8], u: Option<Piece>, b: &[u8], v: Option<Piece>) -> bool
    requires u_value { next-group.held.inside a.now u ≡ true }
    requires v_value { next-group.held.inside b.now v ≡ true }
    ensures { Alike next-group a.now u b.now v result }
{
    match (u, v) {
        (Some(p), Some(q)) => same_bytes(a, p, b, q),
        (Some(_), None) => false,
        (None, Some(_)) => false,
        (None, None) => true,
    }
}

// Two lists of names that read. Neither step is refused, since what is left of either list reads too.
fn same_groups(a: &[u8], x: Piece, b: &[u8], y: Piece) -> bool
    requires x_value { groups.held.inside a.now x ≡ true }
    requires y_value { groups.held.inside b.now y ≡ true }
    ensures { Alike groups a.now x b.now y result }
{
    let mut i = x.at;
    let mut j = y.at;
    loop {
        let Ok(s) = next_group_at(a, i) else {
            return false;
        };
        let Ok(t) = next_group_at(b, j) else {
            return false;
        };
        if !same_next_group(a, s.value, b, t.value) {
            return false;
        }
        let Some(_) = s.value else {
            return true;
        };
        i = s.next;
        j = t.next;
    }
}

fn same_node(a: &[u8], x: exportnode, b: &[u8], y: exportnode) -> bool
    requires x_value { node.held.inside a.now x ≡ true }
    requires y_value { node.held.inside b.now y ≡ true }
    ensures { Alike node a.now x b.now y result }
{
    let p = x.ex_dir;
    let q = y.ex_dir;
    if !same_bytes(a, p, b, q) {
        return false;
    }
    let g = x.ex_groups;
    let h = y.ex_groups;
    same_groups(a, g, b, h)
}

fn same_next_node(a: &[u8], u: Option<exportnode>, b: &[u8], v: Option<exportnode>) -> bool
    requires u_value { next_node.held.inside a.now u ≡ true }
    requires v_value { next_node.held.inside b.now v ≡ true }
    ensures { Alike next_node a.now u b.now v result }
{
    match (u, v) {
        (Some(p), Some(q)) => same_node(a, p, b, q),
        (Some(_), None) => false,
        (None, Some(_)) => false,
        (None, None) => true,
    }
}

// Two lists that read, as with names.
fn same_nodes(a: &[u8], x: Piece, b: &[u8], y: Piece) -> bool
    requires x_value { nodes.held.inside a.now x ≡ true }
    requires y_value { nodes.held.inside b.now y ≡ true }
    ensures { Alike nodes a.now x b.now y result }
{
    let mut i = x.at;
    let mut j = y.at;
    loop {
        let Ok(s) = next_node_at(a, i) else {
            return false;
        };
        let Ok(t) = next_node_at(b, j) else {
            return false;
        };
        if !same_next_node(a, s.value, b, t.value) {
            return false;
        }
        let Some(_) = s.value else {
            return true;
        };
        i = s.next;
        j = t.next;
    }
}

// Whether two export lists are the same message, each held in its own source; they are refused with 3, then 4, then 10.
pub fn same_exports(a: &[u8], x: Piece, b: &[u8], y: Piece) -> Result<bool, Refusal>
    ensures { Compares a.now x b.now y result }
{
    if MOST < a.len() {
        return Err(Refusal::TooLong);
    }
    if MOST < b.len() {
        return Err(Refusal::TooLong);
    }
    let u = stands(a, x);
    let v = stands(b, y);
    match both(u, v) {
        Standing::Outside => Err(Refusal::Outside),
        Standing::Long => Err(Refusal::LongPath(0)),
        Standing::Within => Ok(same_nodes(a, x, b, y)),
    }
}
