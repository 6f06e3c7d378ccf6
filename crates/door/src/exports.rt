// What C and Rust programs call, by the crate door_c, which exports it. Every call gets an answer: a number, 0 or from 100 on where
// something is handed over, 1 to 10 for a refusal (docs/SCOPE.md, Refusals), and these two.
ghost use Rattle.std.specs.Prelude.{◌≤◌, length};
ghost use Rattle.xdr.specs.Meaning.Views.{view_wrote, view_option};
ghost use Rattle.door.specs.Meaning.Copy.{view_copied};
ghost use Rattle.rpc.specs.Meaning.Crate.{crate};
ghost use Rattle.rpc.specs.Meaning.Current.{current};
ghost use Rattle.rpcwire.specs.Meaning.Views.{view_choice, view_fed};
ghost use Rattle.door.specs.Meaning.Figures.{Shown, Shows, Says};
ghost use Rattle.door.specs.Meaning.Exports.{code_of, figures, RewriteCalled, size_code, size_figures, judged_code, judged_figures, JudgeCalled, wrote_code, wrote_figures, FragmentCalled, chosen_code, chosen_figures, handed_figures, ChooseCalled, state_list, fed_code, fed_figures, fed_state, FeedCalled};

use crate::copy::Copied;
use crate::figures::{bit, put_figures};
use crate::kinds::copy_kind;
use crate::values_read::tell_refused;
use rpc::auth_unix;
use rpcwire::{Assembler, Choice, Fed, choose, current_choose, feed, write_fragment};
use xdr::Refusal;

// The list for the figures is too short.
pub const SHORT_LIST: u32 = 254;
// There is no kind of that number.
pub const UNKNOWN_KIND: u32 = 255;

// The number of a copy's answer, and its figures.
pub(crate) fn tell_copied(c: Copied, info: &mut [u64]) -> u32
    requires { 3 ≤ length info.old }
    ensures { Says code_of figures (view_copied c) info.old result info.new }
{
    match c {
        Copied::Unknown => {
            put_figures(&[], 3, info);
            UNKNOWN_KIND
        }
        Copied::Unread(r) => tell_refused(r, 1, info),
        Copied::Unwritten {
            refusal,
            next: _,
            plain: _,
            marks: _,
        } => {
            put_figures(&[0, 0, refusal.needed() as u64], 0, info);
            refusal.number()
        }
        Copied::Done {
            next,
            plain,
            end,
            marks: _,
        } => {
            put_figures(&[next as u64, bit(plain), end as u64], 0, info);
            0
        }
    }
}

// A kind by its place in the list of kinds: `yugerzat_rewrite` asks so where the number is no kind's.
pub(crate) fn rewrite_any(kind: u32, src: &[u8], at: usize, out: &mut [u8], info: &mut [u64]) -> u32
    ensures { RewriteCalled kind src.now at out.old info.old result out.new info.new }
{
    if info.len() < 3 {
        return SHORT_LIST;
    }
    let c = copy_kind(kind, src, at, out, 0);
    tell_copied(c, info)
}

// The rewriting was refused: for lack of room alone (5), which tells its size and is what was asked; or otherwise, and then so is judging.
fn tell_size(r: Refusal, next: usize, plain: bool, info: &mut [u64]) -> u32
    requires { 3 ≤ length info.old }
    ensures { Says size_code (size_figures next plain) r info.old result info.new }
{
    let number = r.number();
    if number != 5 {
        put_figures(&[], 3, info);
        return number;
    }
    put_figures(&[next as u64, bit(plain), r.needed() as u64], 0, info);
    0
}

// What judging tells, by a copy into an empty buffer: refusal 5 there tells the size of the rewriting.
pub(crate) fn tell_judged(c: Copied, info: &mut [u64]) -> u32
    requires { 3 ≤ length info.old }
    ensures { Says judged_code judged_figures (view_copied c) info.old result info.new }
{
    match c {
        Copied::Unknown => {
            put_figures(&[], 3, info);
            UNKNOWN_KIND
        }
        Copied::Unread(r) => tell_refused(r, 1, info),
        Copied::Unwritten {
            refusal,
            next,
            plain,
            marks: _,
        } => tell_size(refusal, next, plain, info),
        Copied::Done {
            next,
            plain,
            end,
            marks: _,
        } => {
            put_figures(&[next as u64, bit(plain), end as u64], 0, info);
            0
        }
    }
}

// The same for `yugerzat_judge`.
pub(crate) fn judge_any(kind: u32, src: &[u8], at: usize, info: &mut [u64]) -> u32
    ensures { JudgeCalled kind src.now at info.old result info.new }
{
    if info.len() < 3 {
        return SHORT_LIST;
    }
    let mut none: [u8; 1] = [0];
    let c = copy_kind(kind, src, at, &mut none[0..0], 0);
    tell_judged(c, info)
}

// The number of a writer's answer, and its figure.
pub(crate) fn tell_wrote(w: Result<usize, Refusal>, info: &mut [u64]) -> u32
    requires { 1 ≤ length info.old }
    ensures { Says wrote_code wrote_figures (view_wrote w) info.old result info.new }
{
    match w {
        Ok(n) => {
            put_figures(&[n as u64], 0, info);
            0
        }
        Err(r) => {
            put_figures(&[r.needed() as u64], 0, info);
            r.number()
        }
    }
}

// Writes a message as a record's only fragment, from place `start` of out. 0: info holds the place after it. After
// refusal 5 it holds how many bytes are needed, after the others 0.
pub fn yugerzat_fragment(message: &[u8], out: &mut [u8], start: usize, info: &mut [u64]) -> u32
    ensures { FragmentCalled message.now start out.old info.old result out.new info.new }
{
    if info.len() < 1 {
        return SHORT_LIST;
    }
    let w = write_fragment(message, out, start);
    tell_wrote(w, info)
}

// The number of a choice, and its figures.
fn tell_chosen(c: Choice, info: &mut [u64]) -> u32
    requires { 12 ≤ length info.old }
    ensures { Says chosen_code chosen_figures (view_choice c) info.old result info.new }
{
    match c {
        Choice::Refused(r) => {
            put_figures(&[r.place() as u64, r.wanting() as u64], 10, info);
            r.number()
        }
        Choice::Replied(n) => {
            put_figures(&[n as u64], 11, info);
            101
        }
        Choice::Silent => {
            put_figures(&[], 12, info);
            102
        }
        Choice::HandOver {
            prog,
            vers,
            proc,
            caller,
            arguments,
        } => {
            tell_hand_over(prog, vers, proc, caller, arguments, info);
            100
        }
    }
}

// The figures of a hand_over: program, version, procedure, the place of the arguments, then 1 and the seven of the auth_unix, or zeros.
fn tell_hand_over(
    prog: u32,
    vers: u32,
    proc: u32,
    caller: Option<auth_unix>,
    arguments: usize,
    info: &mut [u64],
)
    requires { 12 ≤ length info.old }
    ensures { Shows (handed_figures prog vers proc arguments) (view_option caller) info.old info.new }
{
    match caller {
        None => put_figures(
            &[prog as u64, vers as u64, proc as u64, arguments as u64],
            8,
            info,
        ),
        Some(a) => {
            let name = a.machinename;
            let gids = a.gids;
            put_figures(
                &[
                    prog as u64,
                    vers as u64,
                    proc as u64,
                    arguments as u64,
                    1,
                    a.stamp as u64,
                    name.at as u64,
                    name.count as u64,
                    a.uid as u64,
                    a.gid as u64,
                    gids.at as u64,
                    gids.count as u64,
                ],
                0,
                info,
            )
        }
    }
}

// Chooses what to answer to a message; seen is 0 where the call did not come before. 100: a hand_over; info holds program, version,
// procedure, the place of the arguments, then 1 with stamp, place and count of the name, uid, gid, place and count of the gids, or 0 with
// zeros. 101: a reply of info[0] bytes stands at the start of out. 102: silence. A refusal: info holds its place and how many bytes it
// wants.
pub fn yugerzat_choose(message: &[u8], seen: u32, out: &mut [u8], info: &mut [u64]) -> u32
    ensures { ChooseCalled crate message.now seen out.old info.old result out.new info.new }
{
    if info.len() < 12 {
        return SHORT_LIST;
    }
    let c = choose(message, seen != 0, out);
    tell_chosen(c, info)
}

// The same in the current reading, whose server names 2 and 2 in the reply to another version of RPC.
pub fn yugerzat_current_choose(message: &[u8], seen: u32, out: &mut [u8], info: &mut [u64]) -> u32
    ensures { ChooseCalled current message.now seen out.old info.old result out.new info.new }
{
    if info.len() < 12 {
        return SHORT_LIST;
    }
    let c = current_choose(message, seen != 0, out);
    tell_chosen(c, info)
}

// The seven numbers of an assembler's state, at the front of a list.
fn put_state(s: Assembler, list: &mut [u64])
    requires { 7 ≤ length list.old }
    ensures { Shown (state_list s) list.old list.new }
{
    put_figures(
        &[
            s.capacity as u64,
            s.placed as u64,
            s.header_count as u64,
            s.header_value as u64,
            s.left as u64,
            bit(s.last),
            bit(s.stopped),
        ],
        0,
        list,
    );
}

// The number of a feed's answer, its state and its figures.
fn tell_fed(f: Fed, list: &mut [u64], info: &mut [u64]) -> u32
    requires { (7 ≤ length list.old) × (2 ≤ length info.old) }
    ensures { Shows (λ s. state_list (fed_state s)) (view_fed f) list.old list.new × Says fed_code fed_figures (view_fed f) info.old result info.new }
{
    match f {
        Fed::Refused {
            refusal,
            state,
            used,
        } => {
            put_state(state, list);
            put_figures(&[used as u64], 1, info);
            refusal.number()
        }
        Fed::More { state, used } => {
            put_state(state, list);
            put_figures(&[used as u64], 1, info);
            103
        }
        Fed::Complete {
            length,
            state,
            used,
        } => {
            put_state(state, list);
            put_figures(&[used as u64, length as u64], 0, info);
            104
        }
    }
}

// Feeds a run of bytes to an assembler, whose state is seven numbers: capacity, bytes placed, header bytes so far and their value, bytes
// left, last and stopped (0 or not). 103: more. 104: complete. Or refusal 6 or 7. info holds the bytes used, and the length of a complete
// record; the state is the one to go on with.
pub fn yugerzat_feed(state: &mut [u64], run: &[u8], buf: &mut [u8], info: &mut [u64]) -> u32
    ensures { FeedCalled state.old run.now buf.old info.old result state.new buf.new info.new }
{
    if state.len() < 7 {
        return SHORT_LIST;
    }
    if info.len() < 2 {
        return SHORT_LIST;
    }
    let s = Assembler {
        capacity: state[0] as usize,
        placed: state[1] as usize,
        header_count: state[2] as usize,
        header_value: state[3] as usize,
        left: state[4] as usize,
        last: state[5] != 0,
        stopped: state[6] != 0,
    };
    let f = feed(s, run, buf);
    tell_fed(f, state, info)
}
