// The attack that an enter speaks of.
ghost use Rattle.std.specs.Prelude.{◌≡◌};
ghost use Rattle.book.specs.Offers.{attempt};
ghost use Rattle.book.specs.Attacks.{seen, taken_up, by_rule};

use crate::Refusal;
use crate::making::Sides;
use crate::reply::Side;
use game::Head;
use profile::{Profile, Rule};

// Who attacks, by which rule, at which head.
#[derive(Clone, Copy)]
pub(crate) struct Attack {
    pub(crate) side: Side,
    pub(crate) rule: Rule,
    pub(crate) head: Head,
}

// The rule of a slot of one side attacks, if it may, at a state and a symbol of the other.
fn attack_by(side: Side, slot: Option<Rule>, state: usize, symbol: usize) -> Result<Attack, Refusal>
    ensures { seen result ≡ taken_up state symbol (by_rule side slot state symbol) }
{
    let Some(rule) = slot.filter(|rule| side.plays(*rule)) else {
        return Err(Refusal::NoSuchAttack);
    };
    let (Ok(state), Ok(symbol)) = (u8::try_from(state), u8::try_from(symbol)) else {
        return Err(Refusal::HeadNotCalledFor);
    };
    let head = Head {
        states: side.pair(rule.state, state),
        symbols: side.pair(rule.top, symbol),
    };
    Ok(Attack { side, rule, head })
}

impl<S: Profile, M: Profile> Sides<'_, S, M> {
    // The attack from a slot of a side, at a state and a symbol of the other: side 0 is the station, side 1 the manual.
    // In any numbers: a call may give any.
    pub(crate) fn attack(
        &self,
        side: usize,
        slot: usize,
        state: usize,
        symbol: usize,
    ) -> Result<Attack, Refusal>
        ensures { seen result ≡ taken_up state symbol (attempt (S.Profile.rules self.now.station.now) (M.Profile.rules self.now.manual.now) side slot state symbol) }
    {
        let side = Side::try_from(side)?;
        attack_by(side, self.slot(side, slot), state, symbol)
    }
}
