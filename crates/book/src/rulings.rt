// What an offered line comes to, in the words of the rules, and worked examples of it.
ghost use Rattle.book.specs.Rulings.{OffersFollowTheRules, OffersByExample};

// Whatever line is offered to whatever rows, the answer is the one that the rules give, and they give no other.
pub fn offers_follow_the_rules()
    ensures { OffersFollowTheRules }
{}

// Each answer, both sides of the bounds, and the order of the tests.
pub fn offers_by_example()
    ensures { OffersByExample }
{}
