// The open profile: it stores only a set of events, and each of them may happen in state 0 on symbol 0.
ghost use Rattle.std.specs.Prelude.{◌≡◌};
ghost use Rattle.profile.specs.Opens.{free_rule, open_slots, open_start, Opened};
ghost use Rattle.profile.specs.OpenSlots.{open_profile_lawful};

use crate::{Profile, Rule};

#[derive(Clone, Copy, Debug)]
pub struct OpenProfile {
    // A mark for each event, in place, so that the profile asks for no memory.
    events: [bool; 12],
}

impl OpenProfile {
    // The open profile of the events that are marked.
    pub fn new(events: [bool; 12]) -> OpenProfile
        ensures { result.events ≡ events }
    {
        OpenProfile { events }
    }

    // The marks of the events. What may happen is told by them, and nothing must.
    pub fn events(&self) -> &[bool; 12]
        ensures value { result.now ≡ self.now.events }
        ensures slots { ⟦<OpenProfile as Profile>⟧.rules self.now ≡ open_slots self.now.events }
        ensures start { ⟦<OpenProfile as Profile>⟧.origin self.now ≡ open_start }
        ensures meaning { Opened self.now.events (open_slots self.now.events) }
    {
        &self.events
    }
}

// The event may happen in state 0 on symbol 0 and leads back there.
fn free_rule(event: u8) -> Rule
    ensures { result ≡ free_rule event }
{
    Rule {
        event,
        ..Rule::default()
    }
}

impl Profile for OpenProfile {
    ghost rules = { λ p. open_slots p.events };

    ghost origin = { λ _. open_start };

    ghost lawful = { λ p. open_profile_lawful p.events };

    fn slots(&self) -> usize {
        self.events.len()
    }

    fn slot(&self, i: usize) -> Option<Rule> {
        match self.events.get(i) {
            Some(true) => Some(free_rule(i as u8)),
            _ => None,
        }
    }

    fn start(&self) -> (u8, u8) {
        (0, 0)
    }
}
