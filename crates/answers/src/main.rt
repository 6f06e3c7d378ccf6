// Answers lines: each names a function of the library, its input and its buffers, and gets what the function answers, as one line.
//
// The program reads and prints. What the answers are is the business of the crates below, which prove it.
#![tactic(auto)]

mod buffers;
mod items;
mod kinds;
mod line;
mod mounts;
mod print;
mod programs;
mod records;
mod streams;
mod usage;
mod verb;
mod why;
mod words;

use buffers::Buffers;
use line::Line;
use print::Page;
use std::env::{Env, FillError};
use stdio::{Got, Input, Stream};
use verb::Verb;
use why::Why;
use words::Words;

// The answer to the line that is held, without its end.
fn answer<'a>(line: &'a Line, buffers: &mut Buffers, page: &mut Page) -> Result<(), Why<'a>> {
    let mut words = Words::new(line.text()?);
    match words.verb()? {
        Verb::Read => items::read(&mut words, buffers, page),
        Verb::Marks => items::marks(&mut words, buffers, page),
        Verb::Write => items::write(&mut words, buffers, page),
        Verb::Part => items::part(&mut words, buffers, page),
        Verb::Words => items::words(&mut words, buffers, page),
        Verb::Fragment => records::fragment(&mut words, buffers, page),
        Verb::Feed => records::feed(&mut words, buffers, page),
        Verb::State => records::state(&mut words, buffers, page),
        Verb::Stream => streams::stream(&mut words, buffers, page),
        Verb::Choose => programs::choose(&mut words, buffers, page),
        Verb::CurrentChoose => programs::current_choose(&mut words, buffers, page),
        Verb::Ask => mounts::ask(&mut words, buffers, page),
        Verb::Path => mounts::path(&mut words, buffers, page),
        Verb::List => mounts::list(&mut words, buffers, page),
    }
}

// The line of output for the line that is held: its answer, or why it has none.
fn answer_line(line: &Line, buffers: &mut Buffers, page: &mut Page) {
    if let Err(why) = answer(line, buffers, page) {
        why.print(page);
    }
    page.say(b"\n");
}

// Some of the input.
fn take(input: &[u8], line: &mut Line, buffers: &mut Buffers, page: &mut Page) {
    for part in input.split_inclusive(|&c| c == b'\n') {
        if let Some((b'\n', text)) = part.split_last() {
            line.push(text);
            answer_line(line, buffers, page);
            line.clear();
        } else {
            line.push(part);
        }
    }
    page.flush();
}

// Input is read as long as its answers can be written. A line that a failure cuts off gets no answer. (A proved loop ends, and nothing says
// that the input does: so the turns are counted to a number that no run reaches.)
fn answer_all(
    from: &mut Input,
    input: &mut [u8],
    line: &mut Line,
    buffers: &mut Buffers,
    page: &mut Page,
) {
    for _ in 0..u64::MAX {
        match stdio::read(from, input) {
            Got::Bytes(n) => take(&input[..n], line, buffers, page),
            Got::Failed => return,
            Got::End => break,
        }
        if page.at.lost {
            return;
        }
    }
    // a last line without an end
    if !line.is_empty() {
        answer_line(line, buffers, page);
        page.flush();
    }
}

// Whether the program was called with so many words behind its name, or more.
fn has_word(rt: &HostRuntime, i: usize) -> bool {
    let mut word = [0u8; 4096];
    !matches!(rt.arg(i, &mut word), Err(FillError::NotPresent))
}

// Whether the first word behind the program's name asks how to use it.
fn asks_for_help(rt: &HostRuntime) -> bool {
    let mut word = [0u8; 4096];
    match rt.arg(1, &mut word) {
        Ok(n) => matches!(&word[..n], b"--help" | b"-h"),
        Err(_) => false,
    }
}

// What stands behind the program's name: only `--help` is understood.
fn option(rt: &HostRuntime, page: &mut Page) {
    if !has_word(rt, 2) && asks_for_help(rt) {
        usage::print(page);
        return;
    }
    stdio::complain(
        &mut page.to.errors,
        b"only the option --help is understood; questions are lines of standard input\n",
    );
}

fn main(rt: HostRuntime) {
    let mut page = Page::new(Stream::new(rt.stdout(), rt.stderr()));
    if has_word(&rt, 1) {
        option(&rt, &mut page);
        return;
    }
    let mut from = Stream::new(rt.stdin(), rt.stderr());
    let mut input = [0u8; 65536];
    let mut text = buffers::line();
    let mut line = Line::new(&mut text);
    let mut buffers = Buffers {
        message: buffers::message(),
        room: buffers::largest(),
    };
    answer_all(&mut from, &mut input, &mut line, &mut buffers, &mut page);
}
