// Sections (layer 2): keywords and numbers where they are due, and the end of the text where no word is.
ghost use Rattle.std.specs.Prelude.{◌≡◌, ◌≤◌, IfOk};
ghost use Rattle.std.specs.Str.{bytes_eq};
ghost use Rattle.text.specs.declared.words.Due.TheVariants.{Keyword, Number};
ghost use Rattle.text.specs.Words.{taken, GoesOn};
ghost use Rattle.text.specs.Sections.{plain_number, stepped, word_due, read_keyword, read_number, read_end};

use crate::fault::{Fault, SectionCause};
use crate::reader::Reader;
use crate::words::{Due, Word};

// Whether two words are spelled alike: `==`, by the name that the crates above ask for it.
pub fn alike(a: &[u8], b: &[u8]) -> bool
    ensures { result ≡ bytes_eq a.now b.now }
{
    a == b
}

// The number that one to four digits spell, with no 0 in front of another.
pub fn plain_number(bytes: &[u8]) -> Option<u16>
    ensures { result ≡ plain_number bytes.now }
{
    if bytes.is_empty() || bytes.len() > 4 {
        return None;
    }
    if let [b'0', _, ..] = bytes {
        return None;
    }
    let mut n = 0;
    for b in bytes {
        if !b.is_ascii_digit() {
            return None;
        }
        n = n * 10 + u16::from(*b - b'0');
    }
    Some(n)
}

// The next word, which has to be there.
pub fn word_due<'a>(reader: &mut Reader<'a>, due: Due) -> Result<Word<'a>, Fault>
    ensures value { taken result reader.new ≡ word_due due reader.old }
    ensures goes_on { GoesOn due reader.old reader.new }
{
    let end = reader.end();
    let Some(word) = reader.next(due)? else {
        return Err(Fault::new(SectionCause::WordNotDue, end));
    };
    Ok(word)
}

// Takes the keyword that is due.
pub fn keyword(reader: &mut Reader<'_>, wanted: &[u8]) -> Result<(), Fault>
    ensures value { stepped result reader.new ≡ read_keyword wanted.now reader.old }
    ensures goes_on { GoesOn Keyword reader.old reader.new }
{
    let word = word_due(reader, Due::Keyword)?;
    if word.bytes() != wanted {
        return Err(Fault::new(SectionCause::WordNotDue, word.place()));
    }
    Ok(())
}

// Takes a plain number from `lo` to `hi`.
pub fn number(reader: &mut Reader<'_>, lo: u16, hi: u16) -> Result<u16, Fault>
    ensures value { stepped result reader.new ≡ read_number lo hi reader.old }
    ensures range { IfOk result (λ n. (lo ≤ n) × (n ≤ hi)) }
    ensures goes_on { GoesOn Number reader.old reader.new }
{
    let word = word_due(reader, Due::Number)?;
    match plain_number(word.bytes()) {
        Some(n) if lo <= n && n <= hi => Ok(n),
        _ => Err(Fault::new(SectionCause::NumberNotDue, word.place())),
    }
}

// Sees that no word is left.
pub fn finish(reader: &mut Reader<'_>) -> Result<(), Fault>
    ensures value { result ≡ read_end reader.old }
    ensures goes_on { GoesOn Keyword reader.old reader.new }
{
    // By cases: an end is what is wanted here, and a word the fault.
    match reader.next(Due::Keyword)? {
        None => Ok(()),
        Some(word) => Err(Fault::new(SectionCause::WordNotDue, word.place())),
    }
}
