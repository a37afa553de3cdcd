// Writing into bytes that the caller lends. Everything here writes what fits and counts what is written,
// so that a first run over no bytes at all tells how many a text needs.
ghost use Rattle.std.specs.Prelude.{◌≡◌, ℕ, ◌+◌, ◌^◌, ◌<◌, ◌≤◌, List, length};
ghost use Rattle.text.specs.Writing.{Puts, write_answer, write_after, too_few_bytes};
ghost use Rattle.text.specs.Report.{shown_word};

use itoa::{Buffer, Integer};

// Fewer bytes are lent than the text needs; none of them was touched.
#[derive(Clone, Copy, PartialEq, Eq, Debug)]
pub struct TooFewBytes;

impl TooFewBytes {
    // The number by which the refusal is told, as the page on refusals counts them all.
    pub fn number(self) -> u8
        ensures { result ≡ too_few_bytes }
    {
        18
    }
}

// Lent bytes, and where the next one goes. What would lie past their end is left out and counted.
#[derive(Drop)]
pub(crate) struct Lent<'a> {
    out: &'a mut [u8],
    at: usize,
}

impl Lent<'_> {
    // Writes some bytes.
    pub(crate) fn put(&mut self, bytes: &[u8])
        requires { self.old.at + length bytes.now < 2 ^ 64 }
        ensures { Puts self.old bytes.now self.new }
    {
        let end = self.at + bytes.len();
        if end <= self.out.len() {
            self.out[self.at..end].copy_from_slice(bytes);
        }
        self.at = end;
    }

    // Writes a blank and a word.
    pub(crate) fn word(&mut self, word: &[u8])
        requires { self.old.at + length (shown_word word.now) < 2 ^ 64 }
        ensures { Puts self.old (shown_word word.now) self.new }
    {
        self.put(b" ");
        self.put(word);
    }

    // Writes a blank and a number.
    pub(crate) fn number<N: Integer>(&mut self, n: N)
        requires { self.old.at ≤ 2 ^ 32 }
        ensures wrote { Puts self.old (shown_word (N.text n)) self.new }
        ensures bound { self.new.at ≤ self.old.at + 1 + N.MAX_STR_LEN }
    {
        self.word(Buffer::new().format(n).as_bytes());
    }
}

// What can be told in lent bytes: its text, and how long that is at most. Not `fmt::Display`: a standard writer promises only
// what a successful write leaves, and what is told here fails for nothing but too few bytes.
pub(crate) trait Told {
    ghost told: { Self → List ℕ };

    ghost most: { ℕ };

    fn tell(&self, lent: &mut Lent<'_>)
        requires { lent.old.at + most ≤ 20000 }
        ensures wrote { Puts lent.old (told self.now) lent.new }
        ensures bound { lent.new.at ≤ lent.old.at + most };
}

// Writes what is told, whole, where enough bytes are lent for it. Tells how many bytes that is.
pub(crate) fn lend<T: Told>(told: &T, out: &mut [u8]) -> Result<usize, TooFewBytes>
    requires { T.most ≤ 20000 }
    ensures answer { result ≡ write_answer (T.told told.now) out.old }
    ensures after { out.new ≡ write_after (T.told told.now) out.old }
    ensures short { length (T.told told.now) ≤ T.most }
{
    let mut counted = Lent {
        out: &mut [],
        at: 0,
    };
    told.tell(&mut counted);
    if counted.at > out.len() {
        return Err(TooFewBytes);
    }
    let mut lent = Lent { out, at: 0 };
    told.tell(&mut lent);
    Ok(lent.at)
}
