// The words of a line are parted by one space each. The first starts at 0, and the next where the one before it ended, plus one: so a line
// has no more words where that is past its end.
ghost use Rattle.std.specs.Prelude.{◌≡◌, ◌==◌, ◌+◌, ◌-◌, ◌≤◌, length, drop};
ghost use Rattle.std.specs.List.{position_or_len};

// Where the first space of some text is, or its end.
fn first_space(text: &[u8]) -> usize
    ensures value { result ≡ position_or_len (λ c. c == 32) text.now }
    ensures bound { result ≤ length text.now }
{
    text.iter().position(|&c| c == b' ').unwrap_or(text.len())
}

// Where the word that starts at a place ends: at the first space from there on, or at the line's end. A word that starts past the end is
// empty.
pub fn word_end(line: &[u8], start: usize) -> usize
    ensures value { result ≡ start + position_or_len (λ c. c == 32) (drop start line.now) }
    ensures lower_bound { (start ≤ result) × (result ≤ length line.now + (start - length line.now)) }
{
    match line.get(start..) {
        Some(rest) => start + first_space(rest),
        None => start,
    }
}
