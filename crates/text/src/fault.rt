// Faults of a text: a cause, which tells its number and its layer, and a place.
ghost use Rattle.std.specs.Prelude.{◌≡◌};
ghost use Rattle.text.specs.Faults.{cause_number, cause_layer, word_fault_in};
ghost use Rattle.text.specs.declared.fault.Cause.TheVariants.{InWords, InSections, InProfile};

// Where in a text something stands. Only the words make places, and only the report prints them.
#[derive(Clone, Copy, PartialEq, Eq, Debug)]
pub struct Place {
    pub offset: usize,
}

// What is wrong with the bytes of a text. Causes are numbered on from 10, layer after layer.
#[derive(Clone, Copy, PartialEq, Eq, Debug)]
pub enum WordCause {
    // The text has over 20,000 bytes.
    TextTooLong = 10,
    // A byte is neither blank nor visible.
    ByteNotAllowed,
    // A word has over 16 bytes.
    WordTooLong,
}

// What is wrong with the words of a section.
#[derive(Clone, Copy, PartialEq, Eq, Debug)]
pub enum SectionCause {
    // Another keyword or mode is due, or a word is due where the text ends, or none where it goes on.
    WordNotDue = 13,
    // A count or number is not plain or not in range.
    NumberNotDue,
}

// What is wrong with a profile.
#[derive(Clone, Copy, PartialEq, Eq, Debug)]
pub enum ProfileCause {
    // There is no state, symbol or event of this name.
    NameUnknown = 15,
    // The section lists this name already.
    NameTwice,
    // The section lists this rule already, the mode aside.
    RuleTwice,
}

// The cause of a fault, by the layer that found it.
#[derive(Clone, Copy, PartialEq, Eq, Debug)]
pub enum Cause {
    InWords(WordCause),
    InSections(SectionCause),
    InProfile(ProfileCause),
}

impl From<WordCause> for Cause {
    ghost from_gives = { λ c r. r ≡ InWords c };

    fn from(cause: WordCause) -> Cause {
        Cause::InWords(cause)
    }
}

impl From<SectionCause> for Cause {
    ghost from_gives = { λ c r. r ≡ InSections c };

    fn from(cause: SectionCause) -> Cause {
        Cause::InSections(cause)
    }
}

impl From<ProfileCause> for Cause {
    ghost from_gives = { λ c r. r ≡ InProfile c };

    fn from(cause: ProfileCause) -> Cause {
        Cause::InProfile(cause)
    }
}

impl Cause {
    // The number by which the cause is told.
    pub fn number(self) -> u8
        ensures { result ≡ cause_number self }
    {
        match self {
            Cause::InWords(of_words) => of_words as u8,
            Cause::InSections(of_section) => of_section as u8,
            Cause::InProfile(of_profile) => of_profile as u8,
        }
    }

    // The layer that found the fault: 1 words, 2 sections, 3 profiles. By cases: a case with a value in it has no number.
    pub fn layer(self) -> u8
        ensures { result ≡ cause_layer self }
    {
        match self {
            Cause::InWords(_) => 1,
            Cause::InSections(_) => 2,
            Cause::InProfile(_) => 3,
        }
    }
}

// A fault of a text, whichever layer found it. The first layer finds a `Fault<WordCause>`, of the words alone.
#[derive(Clone, Copy, PartialEq, Eq, Debug)]
pub struct Fault<C = Cause> {
    pub cause: C,
    pub place: Place,
}

// A fault of the words alone, as the first layer finds it.
pub type WordFault = Fault<WordCause>;

impl<C> Fault<C> {
    // A fault whose cause may be that of one layer.
    pub fn new<L: Into<C>>(cause: L, place: Place) -> Fault<C>
        ensures cause { L.converts cause result.cause }
        ensures place { result.place ≡ place }
    {
        Fault {
            cause: cause.into(),
            place,
        }
    }
}

impl From<Fault<WordCause>> for Fault {
    ghost from_gives = { λ f r. r ≡ word_fault_in f };

    fn from(f: Fault<WordCause>) -> Fault {
        Fault::new(f.cause, f.place)
    }
}
