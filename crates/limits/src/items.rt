// The questions about one message: `read`, `write` and `choose`.
use crate::cases::{
    BOOL, Choosing, OPAQUE, READ3RES, RPC_MSG, Reading, WORDS, WRITE3ARGS, Writing,
};
use crate::make::Buffers;
use crate::print::Page;
use crate::{make, print};
use door::Copied;
use rpc::auth_unix;
use rpcwire::Choice;
use xdr::{Piece, Refusal};

fn print_kind(page: &mut Page, kind: u32) {
    match kind {
        BOOL => page.say(b" bool"),
        OPAQUE => page.say(b" opaque"),
        WORDS => page.say(b" words"),
        RPC_MSG => page.say(b" rpc_msg"),
        READ3RES => page.say(b" read3res"),
        WRITE3ARGS => page.say(b" write3args"),
        _ => page.say(b" ?"),
    }
}

// The first bytes of a buffer.
pub(crate) fn front(buf: &[u8], length: usize) -> &[u8] {
    buf.get(..length).unwrap_or(&[])
}

fn print_copied(page: &mut Page, copied: Copied) {
    match copied {
        Copied::Unknown => page.say(b" ?"),
        Copied::Unread(refusal) | Copied::Unwritten { refusal, .. } => {
            print::refusal(page, refusal);
        }
        Copied::Done {
            next,
            plain,
            end,
            ..
        } => {
            page.say(b" took");
            print::number(page, next);
            page.say(if plain { b" plain" } else { b" loose" });
            print::number(page, end);
        }
    }
}

impl Reading {
    // A message whose first word is given; its other bytes go by the rule, or make a call, its arguments or its results.
    fn prepare(&self, message: &mut [u8]) {
        match self.kind {
            RPC_MSG => make::call(message, 0),
            READ3RES => make::read_results(message),
            WRITE3ARGS => make::write_arguments(message),
            _ => {
                make::rule(message);
                make::word(message, 0, self.first);
            }
        }
    }

    pub(crate) fn ask(&self, buffers: &mut Buffers, page: &mut Page) {
        page.say(b"read");
        print_kind(page, self.kind);
        print::numbers(page, &[self.first as usize, self.at, self.length]);
        page.say(b":");
        self.prepare(&mut buffers.message);
        make::empty(&mut buffers.room);
        let message = front(&buffers.message, self.length);
        let copied = door::copy_kind(self.kind, message, self.at, &mut buffers.room, 0);
        print_copied(page, copied);
        print::end(page, &buffers.room);
    }
}

impl Writing {
    fn write(&self, source: &[u8], x: Piece, buf: &mut [u8]) -> Result<usize, Refusal> {
        if self.kind == WORDS {
            return xdr::write_words(source, x, buf, self.start);
        }
        xdr::write_opaque(source, x, buf, self.start)
    }

    pub(crate) fn ask(&self, buffers: &mut Buffers, page: &mut Page) {
        page.say(b"write");
        print_kind(page, self.kind);
        print::numbers(
            page,
            &[self.length, self.piece, self.count, self.room, self.start],
        );
        page.say(b":");
        let Some(buf) = buffers.room.get_mut(..self.room) else {
            return;
        };
        make::rule(&mut buffers.message);
        make::empty(buf);
        let x = Piece {
            at: self.piece,
            count: self.count,
            clean: true,
        };
        let written = self.write(front(&buffers.message, self.length), x, buf);
        print::written(page, written);
        print::end(page, buf);
    }
}

fn print_caller(page: &mut Page, caller: Option<auth_unix>) {
    match caller {
        None => page.say(b" none"),
        Some(a) => print::numbers(page, &[a.gids.at, a.gids.count]),
    }
}

fn print_choice(page: &mut Page, choice: Choice) {
    match choice {
        Choice::Refused(refusal) => print::refusal(page, refusal),
        Choice::Replied(_) => page.say(b" reply"),
        Choice::Silent => page.say(b" silence"),
        Choice::HandOver {
            prog,
            vers,
            proc,
            caller,
            arguments,
        } => {
            page.say(b" handover");
            print::numbers(
                page,
                &[prog as usize, vers as usize, proc as usize, arguments],
            );
            print_caller(page, caller);
        }
    }
}

impl Choosing {
    pub(crate) fn ask(&self, buffers: &mut Buffers, page: &mut Page) {
        page.say(b"choose");
        print::numbers(page, &[self.flavor as usize, self.length]);
        page.say(b":");
        let Some(buf) = buffers.room.get_mut(..24) else {
            return;
        };
        make::call(&mut buffers.message, self.flavor);
        make::empty(buf);
        let choice = rpcwire::choose(front(&buffers.message, self.length), false, buf);
        print_choice(page, choice);
        print::end(page, buf);
    }
}
