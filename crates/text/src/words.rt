// Words (layer 1): runs of visible bytes between blanks, each a part of the text that was handed over.
ghost use Rattle.std.specs.Prelude.{◌≡◌, ◌^◌, ◌<◌, ◌≤◌, IfOk, OnErr};
ghost use Rattle.text.specs.Faults.{place_at};
ghost use Rattle.text.specs.Words.{is_blank, run_end, word_at, next_word, begun, length_judged, spelled, taken, seen, text_end, GoesOn, BlanksGone, WordIsPart};

use crate::fault::{Fault, Place, WordCause};
use crate::reader::Reader;

// What the reader of a text has to come to next. Words have no class of their own: what is due decides how one is read.
#[derive(Clone, Copy, PartialEq, Eq, Debug)]
pub enum Due {
    Keyword,
    Number,
    Name,
}

// A word, as what it is due: its bytes, which are a part of the text, and its place. A case for each due, so that a
// match sees what the word was read as.
#[derive(Clone, Copy)]
pub enum Word<'a> {
    Keyword(&'a [u8], Place),
    Number(&'a [u8], Place),
    Name(&'a [u8], Place),
}

impl<'a> Word<'a> {
    pub(crate) fn new(due: Due, bytes: &'a [u8], place: Place) -> Word<'a>
        ensures { spelled result ≡ record { kind = due; bytes = bytes.now; place = place } }
    {
        match due {
            Due::Keyword => Word::Keyword(bytes, place),
            Due::Number => Word::Number(bytes, place),
            Due::Name => Word::Name(bytes, place),
        }
    }

    // Words are an enum: a rule of the project. Its bytes and its place are one pattern each.
    pub fn bytes(self) -> &'a [u8]
        ensures { result.now ≡ (spelled self.entry).bytes }
    {
        match self {
            Word::Keyword(bytes, _) | Word::Number(bytes, _) | Word::Name(bytes, _) => bytes,
        }
    }

    pub fn place(self) -> Place
        ensures { result ≡ (spelled self.entry).place }
    {
        match self {
            Word::Keyword(_, place) | Word::Number(_, place) | Word::Name(_, place) => place,
        }
    }
}

// A name of its own: runs and skips both end by it.
fn is_blank(b: u8) -> bool
    ensures { result ≡ is_blank b }
{
    matches!(b, b' ' | b'\n')
}

// Refuses a text of over 20,000 bytes, before any of it is read.
pub fn judge_length(text: &[u8]) -> Result<(), Fault<WordCause>>
    ensures { result ≡ length_judged text.now }
{
    if text.len() > 20000 {
        return Err(Fault::new(WordCause::TextTooLong, Place { offset: 0 }));
    }
    Ok(())
}

impl<'a> Reader<'a> {
    // Begins to read a text.
    pub fn new(text: &'a [u8]) -> Reader<'a>
        ensures { result ≡ begun text.now }
    {
        Reader { rest: text, at: 0 }
    }

    // The place where the text ends.
    pub fn end(&self) -> Place
        ensures value { result ≡ place_at (text_end self.now) }
        ensures bound { text_end self.now < 2 ^ 64 }
    {
        Place {
            offset: self.at + self.rest.len(),
        }
    }

    // The offset where the run of bytes at the front that are not blank ends.
    fn run_end(&self) -> Result<usize, Fault<WordCause>>
        ensures value { result ≡ run_end self.now.bytes self.now.at }
        ensures bound { IfOk result (λ e. (self.now.at ≤ e) × (e ≤ text_end self.now)) }
    {
        // By first byte and rest: a rule of the project for texts (docs/DECISIONS.md).
        let mut rest = self.rest;
        let mut end = self.at;
        while let [b, more @ ..] = rest {
            if is_blank(*b) {
                return Ok(end);
            }
            if !b.is_ascii_graphic() {
                return Err(Fault::new(WordCause::ByteNotAllowed, Place { offset: end }));
            }
            end += 1;
            rest = more;
        }
        Ok(end)
    }

    // Takes the word at the front, read as what is due; a fault takes nothing.
    fn take_word(&mut self, due: Due) -> Result<Word<'a>, Fault<WordCause>>
        ensures value { taken result self.new ≡ word_at due self.old.bytes self.old.at }
        ensures kept { OnErr result (self.new ≡ self.old) }
        ensures end { text_end self.new ≡ text_end self.old }
    {
        let n = self.run_end()? - self.at;
        let place = Place { offset: self.at };
        if n > 16 {
            return Err(Fault::new(WordCause::WordTooLong, place));
        }
        let (bytes, rest) = self.rest.split_at(n);
        self.rest = rest;
        self.at += n;
        Ok(Word::new(due, bytes, place))
    }

    // Skips blanks and takes the next word, if there is one.
    fn advance(&mut self, due: Due) -> Result<Option<Word<'a>>, Fault<WordCause>>
        ensures value { seen result self.new ≡ next_word due self.old }
        ensures left { BlanksGone result self.old self.new }
        ensures end { text_end self.new ≡ text_end self.old }
    {
        // By first byte and rest, as a run.
        while let [b, more @ ..] = self.rest {
            if !is_blank(*b) {
                return self.take_word(due).map(Some);
            }
            self.at += 1;
            self.rest = more;
        }
        Ok(None)
    }

    // The next word, read as what is due, or nothing where only blanks are left.
    pub fn next(&mut self, due: Due) -> Result<Option<Word<'a>>, Fault<WordCause>>
        ensures value { seen result self.new ≡ next_word due self.old }
        ensures part { WordIsPart result self.old self.new }
        ensures left { BlanksGone result self.old self.new }
        ensures goes_on { GoesOn due self.old self.new }
    {
        self.advance(due)
    }
}
