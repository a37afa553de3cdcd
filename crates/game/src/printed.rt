// How a line is printed.
ghost use Rattle.std.specs.Prelude.{Some};
ghost use Rattle.game.specs.Printed.{line_shown};

use crate::Line;
use std::fmt;

impl fmt::Display for Line {
    ghost output = { λ l. Some (line_shown l) };

    fn fmt<W: fmt::Write>(&self, f: &mut fmt::Formatter<W>) -> fmt::Result {
        match self {
            Line::Enter {
                side,
                slot,
                state,
                symbol,
            } => write!(f, "enter {side} {slot} {state} {symbol}"),
            Line::Join { first, second } => write!(f, "join {first} {second}"),
        }
    }
}
