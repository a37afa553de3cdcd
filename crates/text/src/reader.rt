// What is left of a text that is being read.
ghost use Rattle.std.specs.Prelude.{◌+◌, ◌^◌, ◌<◌, length};
ghost use Rattle.text.specs.Words.{Rest};

use std::marker::Model;

// The bytes that are left, and the offset of the first of them in the text that was handed over.
#[derive(Drop)]
pub struct Reader<'a> {
    pub(crate) rest: &'a [u8],
    pub(crate) at: usize,
}

// Clauses see what is left.
impl<'a> Model for Reader<'a> {
    ghost Value = { Rest };

    ghost view = { λ r. record { bytes = r.rest.now; at = r.at } };

    ghost invariant = { λ r. r.at + length r.rest.now < 2 ^ 64 };
}
