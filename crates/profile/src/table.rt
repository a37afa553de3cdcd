// The table profile: its rules one to a slot, strictly ascending by their keys, and a start.
ghost use Rattle.std.specs.Prelude.{◌≡◌, ◌<◌, ◌≤◌, true, length};
ghost use Rattle.profile.specs.Kinds.{event_kind};
ghost use Rattle.profile.specs.Rules.{all_lawful, rules_ascend};

use crate::Rule;
use ordered::Held;

pub mod calls;

// Up to 96 rules, and the state and the symbol that it starts with.
#[derive(Drop)]
pub struct Table {
    rules: Held<Rule, 96>,
    start: (u8, u8),
    ghost few: { length rules ≤ 96 },
    ghost lawful: { all_lawful event_kind rules ≡ true },
    ghost ascending: { rules_ascend rules ≡ true },
    ghost state_in_range: { start.0 < 8 },
    ghost symbol_in_range: { start.1 < 16 },
}
