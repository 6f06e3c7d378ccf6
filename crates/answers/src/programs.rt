// The lines about calls: `choose`, and `current_choose` in the current reading.
ghost use Rattle.std.specs.Prelude.{◌≤◌, IfOk};

use crate::buffers::{Buffers, cleared};
use crate::print;
use crate::print::Page;
use crate::why::Why;
use crate::words::Words;
use rpc::auth_unix;
use rpcwire::Choice;

// SEEN ROOM HEX
#[derive(Clone, Copy)]
pub(crate) struct Call {
    pub seen: bool,
    pub room: usize,
    // How many bytes are at the front of the message.
    pub count: usize,
}

impl Call {
    pub(crate) fn of<'a>(words: &mut Words<'a>, buffers: &mut Buffers) -> Result<Call, Why<'a>>
        ensures { IfOk result (λ call. call.count ≤ 1100000) }
    {
        let call = Call {
            seen: words.mark()?,
            room: words.number()?,
            count: words.bytes(&mut buffers.message)?,
        };
        words.end()?;
        Ok(call)
    }
}

fn print_unix(page: &mut Page, a: auth_unix) {
    print::numbers(
        page,
        &[
            a.stamp as usize,
            a.machinename.at,
            a.machinename.count,
            a.uid as usize,
            a.gid as usize,
            a.gids.at,
            a.gids.count,
        ],
    );
}

fn print_caller(page: &mut Page, caller: Option<auth_unix>) {
    match caller {
        None => page.say(b" none"),
        Some(a) => {
            page.say(b" unix");
            print_unix(page, a);
        }
    }
}

// A call that is handed over to a program.
pub(crate) fn print_hand_over(
    page: &mut Page,
    prog: u32,
    vers: u32,
    proc: u32,
    caller: Option<auth_unix>,
    arguments: usize,
) {
    page.say(b"handover");
    print::numbers(
        page,
        &[prog as usize, vers as usize, proc as usize, arguments],
    );
    print_caller(page, caller);
}

fn print_choice(page: &mut Page, choice: Choice) {
    match choice {
        Choice::Refused(refusal) => print::refusal(page, refusal),
        Choice::Replied(length) => {
            page.say(b"reply");
            print::number(page, length);
        }
        Choice::Silent => page.say(b"silence"),
        Choice::HandOver {
            prog,
            vers,
            proc,
            caller,
            arguments,
        } => print_hand_over(page, prog, vers, proc, caller, arguments),
    }
}

// choose SEEN ROOM HEX
pub(crate) fn choose<'a>(
    words: &mut Words<'a>,
    buffers: &mut Buffers,
    page: &mut Page,
) -> Result<(), Why<'a>> {
    let call = Call::of(words, buffers)?;
    let buf = cleared(&mut buffers.room, call.room)?;
    let choice = rpcwire::choose(&buffers.message[..call.count], call.seen, buf);
    print_choice(page, choice);
    print::hex(page, buf);
    Ok(())
}

// current_choose SEEN ROOM HEX
pub(crate) fn current_choose<'a>(
    words: &mut Words<'a>,
    buffers: &mut Buffers,
    page: &mut Page,
) -> Result<(), Why<'a>> {
    let call = Call::of(words, buffers)?;
    let buf = cleared(&mut buffers.room, call.room)?;
    let choice = rpcwire::current_choose(&buffers.message[..call.count], call.seen, buf);
    print_choice(page, choice);
    print::hex(page, buf);
    Ok(())
}
