// A table that renames events: what each of the 12 becomes, always an event of the same kind.
ghost use Rattle.std.specs.Prelude.{◌≡◌, true};
ghost use Rattle.profile.specs.Kinds.{event_kind, keeps_kinds};

pub mod calls;

#[derive(Clone, Copy)]
pub struct EventTable {
    // An entry for each event, in place, always full.
    events: [u8; 12],
    ghost keeps: { keeps_kinds event_kind events ≡ true },
}
