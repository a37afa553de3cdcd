// What is printed of a run, line by line at the end of a text. An error says that there is no memory for it.
ghost use Rattle.std.specs.Prelude.{◌≡◌, ◌++◌, string_bytes, OnOk};
ghost use Rattle.calls.specs.Printing.{turns_text, rows_text};

use book::run::Turn;
use game::Row;
use std::alloc::AllocError;

// A line for each call: a loop around what `Display` prints.
pub fn put_turns(out: &mut String, turns: &[Turn]) -> Result<(), AllocError>
    ensures { OnOk result (string_bytes out.new ≡ string_bytes out.old ++ turns_text turns.now) }
{
    for turn in turns {
        writeln!(out, "{}", turn.answer)?;
    }
    Ok(())
}

// How many rows there are, and the line that made each: a loop around what `Display` prints.
pub fn put_rows(out: &mut String, rows: &[Row]) -> Result<(), AllocError>
    ensures { OnOk result (string_bytes out.new ≡ string_bytes out.old ++ rows_text rows.now) }
{
    writeln!(out, "rows {}", rows.len())?;
    for row in rows {
        writeln!(out, "{}", row.line)?;
    }
    Ok(())
}
