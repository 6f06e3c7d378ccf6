// What a line asks for, by its first word.

#[derive(Clone, Copy, Debug, PartialEq, Eq)]
pub(crate) enum Verb {
    Read,
    Marks,
    Write,
    Part,
    Words,
    Fragment,
    Feed,
    State,
    Stream,
    Choose,
    CurrentChoose,
    Ask,
    Path,
    List,
}

impl Verb {
    pub(crate) fn named(word: &[u8]) -> Option<Verb> {
        match word {
            b"read" => Some(Verb::Read),
            b"marks" => Some(Verb::Marks),
            b"write" => Some(Verb::Write),
            b"part" => Some(Verb::Part),
            b"words" => Some(Verb::Words),
            b"fragment" => Some(Verb::Fragment),
            b"feed" => Some(Verb::Feed),
            b"state" => Some(Verb::State),
            b"stream" => Some(Verb::Stream),
            b"choose" => Some(Verb::Choose),
            b"current_choose" => Some(Verb::CurrentChoose),
            b"ask" => Some(Verb::Ask),
            b"path" => Some(Verb::Path),
            b"list" => Some(Verb::List),
            _ => None,
        }
    }
}
