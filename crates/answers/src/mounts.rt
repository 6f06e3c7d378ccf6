// The lines about mounts and ports: `ask`, which goes on where `choose` hands over; and `path` and `list`, which write a path and an export
// list.
ghost use Rattle.std.specs.Prelude.{◌≤◌, IfOk};

use crate::buffers::{Buffers, cleared};
use crate::print;
use crate::print::Page;
use crate::programs::{Call, print_hand_over};
use crate::why::Why;
use crate::words::Words;
use mount::Asked;
use xdr::{Piece, Refusal};

fn print_asked(page: &mut Page, asked: Asked) {
    match asked {
        Asked::Refused(refusal) => print::refusal(page, refusal),
        Asked::Replied(length) => {
            page.say(b"reply");
            print::number(page, length);
        }
        Asked::Silent => page.say(b"silence"),
        Asked::HandOver {
            prog,
            vers,
            proc,
            caller,
            arguments,
        } => print_hand_over(page, prog, vers, proc, caller, arguments),
        Asked::Mnt { path, next, .. } => {
            page.say(b"mnt");
            print::numbers(page, &[path.at, path.count, next]);
        }
        Asked::Umnt { path, next, .. } => {
            page.say(b"umnt");
            print::numbers(page, &[path.at, path.count, next]);
        }
        Asked::Export { next, .. } => {
            page.say(b"export");
            print::number(page, next);
        }
        Asked::Getport { value, next, .. } => {
            page.say(b"getport");
            print::numbers(
                page,
                &[
                    value.prog as usize,
                    value.vers as usize,
                    value.prot as usize,
                    value.port as usize,
                    next,
                ],
            );
        }
    }
}

// ask SEEN ROOM HEX
pub(crate) fn ask<'a>(
    words: &mut Words<'a>,
    buffers: &mut Buffers,
    page: &mut Page,
) -> Result<(), Why<'a>> {
    let call = Call::of(words, buffers)?;
    let buf = cleared(&mut buffers.room, call.room)?;
    let asked = mount::ask(&buffers.message[..call.count], call.seen, buf);
    print_asked(page, asked);
    print::hex(page, buf);
    Ok(())
}

// HEX PLACE COUNT ROOM START
#[derive(Clone, Copy)]
struct Writing {
    // How many bytes are at the front of the message.
    count: usize,
    piece: Piece,
    room: usize,
    start: usize,
}

impl Writing {
    fn of<'a>(words: &mut Words<'a>, buffers: &mut Buffers) -> Result<Writing, Why<'a>>
        ensures { IfOk result (λ writing. writing.count ≤ 1100000) }
    {
        let writing = Writing {
            count: words.bytes(&mut buffers.message)?,
            piece: Piece {
                at: words.number()?,
                count: words.number()?,
                clean: true,
            },
            room: words.number()?,
            start: words.number()?,
        };
        words.end()?;
        Ok(writing)
    }
}

// A refusal to write has no place, so it is its number alone.
fn print_written(page: &mut Page, written: Result<usize, Refusal>, buf: &[u8]) {
    match written {
        Ok(next) => {
            page.say(b"wrote");
            print::number(page, next);
        }
        Err(refusal) => {
            page.say(b"refused");
            print::number(page, refusal.number() as usize);
        }
    }
    print::hex(page, buf);
}

// path HEX PLACE COUNT ROOM START
pub(crate) fn path<'a>(
    words: &mut Words<'a>,
    buffers: &mut Buffers,
    page: &mut Page,
) -> Result<(), Why<'a>> {
    let w = Writing::of(words, buffers)?;
    let buf = cleared(&mut buffers.room, w.room)?;
    let written = mount::write_dirpath(&buffers.message[..w.count], w.piece, buf, w.start);
    print_written(page, written, buf);
    Ok(())
}

// list HEX PLACE COUNT ROOM START
pub(crate) fn list<'a>(
    words: &mut Words<'a>,
    buffers: &mut Buffers,
    page: &mut Page,
) -> Result<(), Why<'a>> {
    let w = Writing::of(words, buffers)?;
    let buf = cleared(&mut buffers.room, w.room)?;
    let written = mount::write_exports(&buffers.message[..w.count], w.piece, buf, w.start);
    print_written(page, written, buf);
    Ok(())
}
