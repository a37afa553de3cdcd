// Making a table of events and asking it.
ghost use Rattle.std.specs.Prelude.{◌≡◌, true, false, slice_index};
ghost use Rattle.profile.specs.Kinds.{event_kind, same_kind, keeps_kinds};
ghost use Rattle.profile.specs.Renaming.{Renames, Breaks, renaming_told, renaming_answer, RenamingJudged, renaming_refusal};

use crate::{EventTable, kind_of};

// A table of events was refused: it has an event over 11, or one of another kind than the event that it replaces.
#[derive(Clone, Copy, PartialEq, Eq, Debug)]
pub struct NotRenaming;

impl NotRenaming {
    // The number of this refusal, as the page on refusals counts them all.
    pub fn number(self) -> u8
        ensures { result ≡ renaming_refusal self }
    {
        9
    }
}

// Whether there are two such events, of one kind. A name of its own: an event over 11 has no kind to compare.
fn of_one_kind(a: u8, b: u8) -> bool
    ensures { result ≡ same_kind (event_kind a) (event_kind b) }
{
    kind_of(a).is_some() && kind_of(a) == kind_of(b)
}

// Whether each of the 12 events becomes one of its own kind.
fn renames(events: &[u8; 12]) -> bool
    ensures value { result ≡ keeps_kinds event_kind events.now }
    ensures kept { result ≡ true → Renames events.now }
    ensures broken { result ≡ false → Breaks events.now }
{
    (0..12).zip(events).all(|(old, new)| of_one_kind(*new, old))
}

impl EventTable {
    // The table in which event e becomes `events[e]`, an entry for each. A refused table costs nothing but itself.
    pub fn new(events: [u8; 12]) -> Result<EventTable, NotRenaming>
        ensures answer { renaming_told result ≡ renaming_answer events }
        ensures judged { RenamingJudged events result }
    {
        if renames(&events) {
            Ok(EventTable { events })
        } else {
            Err(NotRenaming)
        }
    }

    // What an event becomes; one past the end of the table becomes 0.
    pub fn renamed_event(&self, event: u8) -> u8
        ensures { result ≡ slice_index self.now.events event }
    {
        self.events.get(event as usize).copied().unwrap_or(0)
    }
}
