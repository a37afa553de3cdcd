// Replies to an attack, and the members that they lead to.
ghost use Rattle.std.specs.Prelude.{◌≡◌, []};
ghost use Rattle.profile.specs.Kinds.{event_kind};
ghost use Rattle.game.specs.Game.{of_attacker, of_replier, playable};
ghost use Rattle.game.specs.Rows.{pushed_pairs, leads_to, answers, gathered};
ghost use Rattle.book.specs.Widths.{fitted};
ghost use Rattle.book.specs.Sides.{player, numbered_side, paired};

use crate::Refusal;
use crate::attack::Attack;
use crate::width::{Members, put};
use game::{Member, Pair, Pairs};
use ordered::Held;
use profile::{Kind, Mode, Profile, Rule, kind_of};

// Who attacks.
#[derive(Clone, Copy, PartialEq, Eq, Debug)]
pub(crate) enum Side {
    Station,
    Manual,
}

impl TryFrom<usize> for Side {
    type Error = Refusal;

    ghost try_from_gives = { λ number r. r ≡ numbered_side number };

    fn try_from(number: usize) -> Result<Side, Refusal> {
        match number {
            0 => Ok(Side::Station),
            1 => Ok(Side::Manual),
            _ => Err(Refusal::NoSuchAttack),
        }
    }
}

impl Side {
    // Of the attacker's and the replier's number the pair, the station's first.
    pub(crate) fn pair(self, own: u8, other: u8) -> Pair
        ensures { result ≡ paired self own other }
    {
        let (station, manual) = match self {
            Side::Station => (own, other),
            Side::Manual => (other, own),
        };
        Pair { station, manual }
    }

    // Of a pair, what belongs to the side that attacks. Two names for the two halves say more than one with a flag.
    pub(crate) fn attacking(self, pair: Pair) -> u8
        ensures { result ≡ of_attacker (player self) pair.station pair.manual }
    {
        match self {
            Side::Station => pair.station,
            Side::Manual => pair.manual,
        }
    }

    // Of a pair, what belongs to the side that replies.
    pub(crate) fn replying(self, pair: Pair) -> u8
        ensures { result ≡ of_replier (player self) pair.station pair.manual }
    {
        match self {
            Side::Station => pair.manual,
            Side::Manual => pair.station,
        }
    }

    // Whether a rule counts where this side attacks: every rule where the station does, must rules where the manual does.
    pub(crate) fn plays(self, rule: Rule) -> bool
        ensures { result ≡ playable (player self) rule }
    {
        self == Side::Station || rule.mode == Mode::Must
    }
}

impl Attack {
    // The member that this attack and a reply lead to, the station first whoever attacks.
    fn led_to(self, reply: Rule) -> Member
        ensures { result ≡ leads_to event_kind (player self.side) self.rule reply }
    {
        let Attack { side, rule, .. } = self;
        let upper = side.pair(rule.upper, reply.upper);
        let lower = side.pair(rule.lower, reply.lower);
        Member {
            states: side.pair(rule.next, reply.next),
            symbols: match kind_of(rule.event) {
                Some(Kind::Open) => Pairs::Two(upper, lower),
                Some(Kind::Step) => Pairs::One(upper),
                Some(Kind::Close) | None => Pairs::Zero,
            },
        }
    }

    // Whether a rule replies to this attack.
    fn is_reply(self, reply: Rule) -> bool
        ensures { result ≡ answers (player self.side) self.rule self.head reply }
    {
        self.side.plays(reply)
            && reply.event == self.rule.event
            && reply.state == self.side.replying(self.head.states)
            && reply.top == self.side.replying(self.head.symbols)
    }

    // The members that all replies to this attack lead to. By number: a profile is asked slot by slot.
    pub(crate) fn replies<P: Profile>(self, replier: &P) -> Result<Members, Refusal>
        ensures { result ≡ fitted (gathered (answers (player self.side) self.rule self.head) (leads_to event_kind (player self.side) self.rule) (P.Profile.rules replier.now) []) }
    {
        let mut members = Held::new(Member::default());
        let all = replier.slots();
        for i in 0..all {
            if let Some(reply) = replier.slot(i)
                && self.is_reply(reply)
            {
                put(&mut members, self.led_to(reply))?;
            }
        }
        Ok(members)
    }
}
