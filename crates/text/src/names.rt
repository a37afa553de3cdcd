// Names: the words that a section lists, numbered by their position.
ghost use Rattle.std.specs.Prelude.{◌≡◌, ◌^◌, ◌<◌, ◌≤◌, [], length, IfSome};
ghost use Rattle.text.specs.Report.{event_name};
ghost use Rattle.text.specs.ProfileText.{texts, mode_word, index_of, more_names, read_names, named};

use crate::fault::{Fault, ProfileCause};
use crate::reader::Reader;
use crate::sections::{keyword, number, word_due};
use crate::words::Due;
use arrayvec::ArrayVec;
use profile::Mode;

// At most N names, each a part of the text.
pub(crate) type Names<'a, const N: usize> = ArrayVec<&'a [u8], N>;

// The names of the events, from event 0 on.
pub(crate) const EVENTS: [&[u8]; 12] = [
    b"trigger", b"calib", b"upload", b"service", b"sample", b"gap", b"resend", b"clock", b"end",
    b"caldone", b"sent", b"leave",
];

// The word for a mode. A function: `Mode` is another crate's, which knows no words, so that no `From` can stand here.
pub(crate) fn mode_word(mode: Mode) -> &'static [u8]
    ensures word { result.now ≡ mode_word mode }
    ensures bound { length result.now ≤ 4 }
{
    match mode {
        Mode::May => b"may",
        Mode::Must => b"must",
    }
}

// The name of an event; no bytes where there is no such event. A number, since a rule may hold one that is no event's.
pub(crate) fn event_name(event: u8) -> &'static [u8]
    ensures word { result.now ≡ event_name event }
    ensures bound { length result.now ≤ 7 }
{
    EVENTS.get(usize::from(event)).copied().unwrap_or(b"")
}

// The number of a name: its position among the names.
pub(crate) fn position(names: &[&[u8]], name: &[u8]) -> Option<usize>
    ensures value { result ≡ index_of (texts names.now) name.now }
    ensures bound { IfSome result (λ i. i < length names.now) }
{
    names.iter().position(|n| *n == name)
}

// Reads `n` names, none of them twice: the text says how many.
fn name_list<'a, const N: usize>(reader: &mut Reader<'a>, n: usize) -> Result<Names<'a, N>, Fault>
    requires { n ≤ N }
    ensures { named result reader.new ≡ more_names n [] reader.old }
{
    let mut names = ArrayVec::new();
    for _ in 0..n {
        let word = word_due(reader, Due::Name)?;
        if position(names.as_slice(), word.bytes()).is_some() {
            return Err(Fault::new(ProfileCause::NameTwice, word.place()));
        }
        names.push(word.bytes());
    }
    Ok(names)
}

// Reads a section of names: its heading, a count from 1 to N, and that many names.
pub(crate) fn name_section<'a, const N: usize>(
    reader: &mut Reader<'a>,
    heading: &[u8],
) -> Result<Names<'a, N>, Fault>
    requires { N < 2 ^ 16 }
    ensures { named result reader.new ≡ read_names heading.now N reader.old }
{
    keyword(reader, heading)?;
    let n = number(reader, 1, N as u16)?;
    name_list(reader, usize::from(n))
}
