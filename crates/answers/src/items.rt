// The lines about one message: `read`, `marks`, `write`, `part` and `words`.
use crate::buffers::{Buffers, cleared};
use crate::print;
use crate::print::Page;
use crate::why::Why;
use crate::words::Words;
use door::Copied;
use xdr::{Marks, Piece};

// KIND AT HEX: that kind at that place of those bytes, read, and written to the front of the room.
fn copied<'a>(words: &mut Words<'a>, buffers: &mut Buffers) -> Result<Copied, Why<'a>> {
    let kind = words.kind()?;
    let place = words.number()?;
    let count = words.bytes(&mut buffers.message)?;
    words.end()?;
    Ok(door::copy_kind(kind, &buffers.message[..count], place, &mut buffers.room, 0))
}

// The place after what was read, and whether that was in published form.
fn took(page: &mut Page, next: usize, plain: bool) {
    page.say(b"took");
    print::number(page, next);
    page.say(if plain { b" plain" } else { b" loose" });
}

// read KIND AT HEX: what was read, and what it is written as.
pub(crate) fn read<'a>(
    words: &mut Words<'a>,
    buffers: &mut Buffers,
    page: &mut Page,
) -> Result<(), Why<'a>> {
    match copied(words, buffers)? {
        Copied::Unknown => return Err(Why::NoKind),
        Copied::Unread(refusal) | Copied::Unwritten { refusal, .. } => {
            print::refusal(page, refusal);
        }
        Copied::Done {
            next,
            plain,
            end,
            ..
        } => {
            took(page, next, plain);
            print::hex(page, front(&buffers.room, end));
        }
    }
    Ok(())
}

// The first bytes of a buffer. (A writing does not end behind it.)
pub(crate) fn front(buf: &[u8], count: usize) -> &[u8] {
    buf.get(..count).unwrap_or(&[])
}

// A letter for each piece: c for a clean one, d for a dirty one.
fn letter(clean: bool) -> u8 {
    if clean { b'c' } else { b'd' }
}

// marks KIND AT HEX: what was read, and the marks of its pieces in the order of the fields.
pub(crate) fn marks<'a>(
    words: &mut Words<'a>,
    buffers: &mut Buffers,
    page: &mut Page,
) -> Result<(), Why<'a>> {
    match copied(words, buffers)? {
        Copied::Unknown => return Err(Why::NoKind),
        Copied::Unread(refusal) | Copied::Unwritten { refusal, .. } => {
            print::refusal(page, refusal);
        }
        Copied::Done {
            next,
            plain,
            marks,
            ..
        } => {
            took(page, next, plain);
            match marks.marks() {
                Marks::None => page.say(b" -"),
                Marks::One(a) => page.say(&[b' ', letter(a)]),
                Marks::Two(a, b) => page.say(&[b' ', letter(a), letter(b)]),
            }
        }
    }
    Ok(())
}

// write KIND AT HEX ROOM START
pub(crate) fn write<'a>(
    words: &mut Words<'a>,
    buffers: &mut Buffers,
    page: &mut Page,
) -> Result<(), Why<'a>> {
    let kind = words.kind()?;
    let place = words.number()?;
    let count = words.bytes(&mut buffers.message)?;
    let length = words.number()?;
    let start = words.number()?;
    words.end()?;
    let buf = cleared(&mut buffers.room, length)?;
    match door::copy_kind(kind, &buffers.message[..count], place, buf, start) {
        Copied::Unknown => return Err(Why::NoKind),
        Copied::Unread(refusal) => print::refusal(page, refusal),
        Copied::Unwritten { refusal, .. } => print::written(page, Err(refusal), buf),
        Copied::Done { end, .. } => print::written(page, Ok(end), buf),
    }
    Ok(())
}

// HEX PLACE COUNT: those bytes, which are then at the front of the message, and the piece there.
fn piece<'a>(words: &mut Words<'a>, buffers: &mut Buffers) -> Result<(usize, Piece), Why<'a>> {
    let count = words.bytes(&mut buffers.message)?;
    let x = Piece {
        at: words.number()?,
        count: words.number()?,
        clean: true,
    };
    words.end()?;
    Ok((count, x))
}

fn inside(page: &mut Page, is_inside: bool, bytes: &[u8]) {
    page.say(if is_inside {
        b"inside".as_slice()
    } else {
        b"outside".as_slice()
    });
    print::hex(page, bytes);
}

// part HEX PLACE COUNT
pub(crate) fn part<'a>(
    words: &mut Words<'a>,
    buffers: &mut Buffers,
    page: &mut Page,
) -> Result<(), Why<'a>> {
    let (count, x) = piece(words, buffers)?;
    let src = front(&buffers.message, count);
    inside(page, xdr::inside(src, x), xdr::part(src, x));
    Ok(())
}

// words HEX PLACE COUNT
pub(crate) fn words<'a>(
    words: &mut Words<'a>,
    buffers: &mut Buffers,
    page: &mut Page,
) -> Result<(), Why<'a>> {
    let (count, x) = piece(words, buffers)?;
    let src = front(&buffers.message, count);
    inside(page, xdr::words_inside(src, x), xdr::words_part(src, x));
    Ok(())
}
