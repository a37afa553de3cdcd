// How an answer is printed.
ghost use Rattle.std.specs.Prelude.{Some};
ghost use Rattle.book.specs.Printed.{answer_shown};

use crate::run::Answer;
use std::fmt;

impl fmt::Display for Answer {
    ghost output = { λ a. Some (answer_shown a) };

    fn fmt<W: fmt::Write>(&self, f: &mut fmt::Formatter<W>) -> fmt::Result {
        match self {
            Answer::Row(k) => write!(f, "row {k}"),
            Answer::Refused(why) => write!(f, "refusal {}", why.number()),
            Answer::Completed(k) => write!(f, "completed {k}"),
            Answer::Refuted => write!(f, "refuted"),
            Answer::Undecided => write!(f, "undecided"),
            Answer::Refines => write!(f, "refines"),
            Answer::NotOffered => write!(f, "not offered"),
        }
    }
}
