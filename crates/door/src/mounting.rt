// What C and Rust programs call for mounts and ports: calls that are answered or handed on, and export lists.
ghost use Rattle.std.specs.Prelude.{◌∷◌, ◌≤◌, length, true, cond};
ghost use Rattle.xdr.specs.Meaning.Formats.{bytes};
ghost use Rattle.xdr.specs.Meaning.Views.{view_option};
ghost use Rattle.mount.specs.Meaning.Path.{long_path};
ghost use Rattle.mount.specs.Meaning.Export.{nodes, long_list};
ghost use Rattle.mount.specs.Meaning.Views.{view_asked};
ghost use Rattle.door.specs.Meaning.Figures.{Shown, Shows, Says};
ghost use Rattle.door.specs.Meaning.Values.{piece_figures};
ghost use Rattle.door.specs.Meaning.Mounting.{turn_figures, asked_code, asked_figures, AskCalled, ExportsCalled, next_export_figures, NextExportCalled, next_group_figures, NextGroupCalled, WithinCalled, compared_code, compared_figures, SameCalled};

use crate::exports::{SHORT_LIST, tell_wrote};
use crate::figures::{bit, put_figures};
use crate::values_read::tell_refused;
use mount::{
    Asked, ask, exportnode, next_export, next_group, read_exports, same_exports, write_dirpath,
    write_exports,
};
use rpc::auth_unix;
use xdr::{Piece, Refusal, Took};

// Four figures of a call and the place behind its arguments, then 1 and the seven of the auth_unix, or zeros.
fn tell_turn(
    a: u64,
    b: u64,
    c: u64,
    d: u64,
    next: usize,
    caller: Option<auth_unix>,
    info: &mut [u64],
)
    requires { 13 ≤ length info.old }
    ensures { Shows (turn_figures a b c d next) (view_option caller) info.old info.new }
{
    match caller {
        None => put_figures(&[a, b, c, d, next as u64], 8, info),
        Some(u) => {
            let name = u.machinename;
            let gids = u.gids;
            put_figures(
                &[
                    a,
                    b,
                    c,
                    d,
                    next as u64,
                    1,
                    u.stamp as u64,
                    name.at as u64,
                    name.count as u64,
                    u.uid as u64,
                    u.gid as u64,
                    gids.at as u64,
                    gids.count as u64,
                ],
                0,
                info,
            )
        }
    }
}

// The number of an answer to a call, and its figures.
fn tell_asked(c: Asked, info: &mut [u64]) -> u32
    requires { 13 ≤ length info.old }
    ensures { Says asked_code asked_figures (view_asked c) info.old result info.new }
{
    match c {
        Asked::Refused(r) => {
            put_figures(&[r.place() as u64, r.wanting() as u64], 11, info);
            r.number()
        }
        Asked::Replied(n) => {
            put_figures(&[n as u64], 12, info);
            101
        }
        Asked::Silent => {
            put_figures(&[], 13, info);
            102
        }
        Asked::HandOver {
            prog,
            vers,
            proc,
            caller,
            arguments,
        } => {
            tell_turn(
                prog as u64,
                vers as u64,
                proc as u64,
                arguments as u64,
                0,
                caller,
                info,
            );
            100
        }
        Asked::Mnt { caller, path, next } => {
            tell_turn(path.at as u64, path.count as u64, 0, 0, next, caller, info);
            105
        }
        Asked::Umnt { caller, path, next } => {
            tell_turn(path.at as u64, path.count as u64, 0, 0, next, caller, info);
            106
        }
        Asked::Export { caller, next } => {
            tell_turn(0, 0, 0, 0, next, caller, info);
            107
        }
        Asked::Getport {
            caller,
            value,
            next,
        } => {
            tell_turn(
                value.prog as u64,
                value.vers as u64,
                value.prot as u64,
                value.port as u64,
                next,
                caller,
                info,
            );
            108
        }
    }
}

// Answers a call to the programs mount and port mapper, or hands it on; seen is 0 where it did not come before. 100: another program is to
// answer; info holds program, version, procedure, the place of the arguments and 0. 105 MNT and 106 UMNT: place and count of the path, two
// zeros and the place behind it. 107 EXPORT: four zeros and the place of the arguments. 108 GETPORT: program, version, protocol, port and the
// place behind them. Then, in these, 1 with stamp, place and count of the name, uid, gid, place and count of the gids, or 0 with zeros.
// 101: a reply of info[0] bytes stands at the start of out. 102: silence. A refusal: info holds its place and how many bytes it wants.
pub fn yugerzat_ask(message: &[u8], seen: u32, out: &mut [u8], info: &mut [u64]) -> u32
    ensures { AskCalled message.now seen out.old info.old result out.new info.new }
{
    if info.len() < 13 {
        return SHORT_LIST;
    }
    let c = ask(message, seen != 0, out);
    tell_asked(c, info)
}

fn put_list(v: Piece, next: usize, plain: bool, info: &mut [u64])
    requires { 4 ≤ length info.old }
    ensures { Shown (next ∷ cond plain 1 0 ∷ piece_figures v) info.old info.new }
{
    put_figures(
        &[next as u64, bit(plain), v.at as u64, v.count as u64],
        0,
        info,
    );
}

// The figures of an export list: the place of its first flag, and the count of its entries.
pub fn yugerzat_read_exports(src: &[u8], at: usize, info: &mut [u64]) -> u32
    ensures { ExportsCalled src.now at info.old result info.new }
{
    if info.len() < 4 {
        return SHORT_LIST;
    }
    let v = read_exports(src, at);
    match v {
        Err(r) => tell_refused(r, 2, info),
        Ok(Took { value, next, plain }) => {
            put_list(value, next, plain, info);
            0
        }
    }
}

fn put_next_export(v: Option<exportnode>, next: usize, plain: bool, info: &mut [u64])
    requires { 7 ≤ length info.old }
    ensures { Shown (next ∷ cond plain 1 0 ∷ next_export_figures v) info.old info.new }
{
    match v {
        None => put_figures(&[next as u64, bit(plain)], 5, info),
        Some(e) => {
            let dir = e.ex_dir;
            let groups = e.ex_groups;
            put_figures(
                &[
                    next as u64,
                    bit(plain),
                    1,
                    dir.at as u64,
                    dir.count as u64,
                    groups.at as u64,
                    groups.count as u64,
                ],
                0,
                info,
            )
        }
    }
}

// The figures of what stands at a place of an export list: 1 with place and count of the path, and the place of the first flag and the count
// of the names of its groups; or zeros at its end.
pub fn yugerzat_next_export(src: &[u8], at: usize, info: &mut [u64]) -> u32
    ensures { NextExportCalled src.now at info.old result info.new }
{
    if info.len() < 7 {
        return SHORT_LIST;
    }
    let v = next_export(src, at);
    match v {
        Err(r) => tell_refused(r, 5, info),
        Ok(Took { value, next, plain }) => {
            put_next_export(value, next, plain, info);
            0
        }
    }
}

fn put_next_group(v: Option<Piece>, next: usize, plain: bool, info: &mut [u64])
    requires { 5 ≤ length info.old }
    ensures { Shown (next ∷ cond plain 1 0 ∷ next_group_figures v) info.old info.new }
{
    match v {
        None => put_figures(&[next as u64, bit(plain)], 3, info),
        Some(x) => put_figures(
            &[next as u64, bit(plain), 1, x.at as u64, x.count as u64],
            0,
            info,
        ),
    }
}

// The figures of what stands at a place of a list of names: 1 with place and count of the name, or zeros at its end.
pub fn yugerzat_next_group(src: &[u8], at: usize, info: &mut [u64]) -> u32
    ensures { NextGroupCalled src.now at info.old result info.new }
{
    if info.len() < 5 {
        return SHORT_LIST;
    }
    let v = next_group(src, at);
    match v {
        Err(r) => tell_refused(r, 3, info),
        Ok(Took { value, next, plain }) => {
            put_next_group(value, next, plain, info);
            0
        }
    }
}

// Writes a path, which is a piece of src, from place `start` of out. 0: info holds the place after it. After refusal 5 it holds how many
// bytes are needed, after the others 0.
pub fn yugerzat_write_dirpath(
    src: &[u8],
    place: usize,
    count: usize,
    out: &mut [u8],
    start: usize,
    info: &mut [u64],
) -> u32
    ensures { WithinCalled bytes long_path src.now (record { at = place; count = count; clean = true }) start out.old info.old result out.new info.new }
{
    if info.len() < 1 {
        return SHORT_LIST;
    }
    let w = write_dirpath(
        src,
        Piece {
            at: place,
            count,
            clean: true,
        },
        out,
        start,
    );
    tell_wrote(w, info)
}

// Writes an export list, whose first flag stands at a place of src and which has so many entries, in the same way.
pub fn yugerzat_write_exports(
    src: &[u8],
    place: usize,
    count: usize,
    out: &mut [u8],
    start: usize,
    info: &mut [u64],
) -> u32
    ensures { WithinCalled nodes long_list src.now (record { at = place; count = count; clean = true }) start out.old info.old result out.new info.new }
{
    if info.len() < 1 {
        return SHORT_LIST;
    }
    let w = write_exports(
        src,
        Piece {
            at: place,
            count,
            clean: true,
        },
        out,
        start,
    );
    tell_wrote(w, info)
}

fn tell_compared(c: Result<bool, Refusal>, info: &mut [u64]) -> u32
    requires { 1 ≤ length info.old }
    ensures { Says compared_code compared_figures c info.old result info.new }
{
    match c {
        Err(r) => {
            put_figures(&[], 1, info);
            r.number()
        }
        Ok(same) => {
            put_figures(&[bit(same)], 0, info);
            0
        }
    }
}

// Compares two export lists, each of so many entries behind a place of its own buffer. 0: info holds 1 if both mean the same list, whatever
// their flags and padding, and else 0. 3, 4, 10: one of them is no list that could be written.
pub fn yugerzat_same_exports(
    a: &[u8],
    a_place: usize,
    a_count: usize,
    b: &[u8],
    b_place: usize,
    b_count: usize,
    info: &mut [u64],
) -> u32
    ensures { SameCalled a.now (record { at = a_place; count = a_count; clean = true }) b.now (record { at = b_place; count = b_count; clean = true }) info.old result info.new }
{
    if info.len() < 1 {
        return SHORT_LIST;
    }
    let c = same_exports(
        a,
        Piece {
            at: a_place,
            count: a_count,
            clean: true,
        },
        b,
        Piece {
            at: b_place,
            count: b_count,
            clean: true,
        },
    );
    tell_compared(c, info)
}
