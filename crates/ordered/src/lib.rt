// Ordered insertion that refuses a double, written and proved once for every element kind that has a key
// with a total order. It works in places that the caller lends and allocates nothing.
#![tactic(auto)]

ghost use Rattle.std.specs.Prelude.{◌≡◌, ◌+◌, ◌<◌, ◌≤◌, Bool, true, false, ◌++◌, length, take, drop, Ok, Err};
ghost use Rattle.ordered.specs.Lex.{lex_le};
ghost use Rattle.std.specs.List.{insert};
ghost use Rattle.ordered.specs.Insert.{place_of, sought, insert_answer, insert_after};
ghost use Rattle.ordered.specs.Laws.{by_key, LawfulInsertion};

mod held;

pub use held::Held;

// Elements that are ordered by a key, which may be less than the whole element. The order is a test of its own and not
// an Ord: two keys, each at most the other, are the same key, which Ord does not say.
pub trait Keyed {
    // What elements are ordered by.
    type Key;

    ghost key: { Self → Self.Key };

    ghost le: { Self.Key → Self.Key → Bool };

    // Whether the key of this element is at most the key of the other.
    fn at_most(&self, other: &Self) -> bool
        ensures { result ≡ le (key self.now) (key other.now) };

    ghost reflexive: { (a : Self.Key) → le a a ≡ true };

    ghost antisymmetric: { (a b : Self.Key) → le a b ≡ true → le b a ≡ true → a ≡ b };

    ghost transitive: { (a b c : Self.Key) → le a b ≡ true → le b c ≡ true → le a c ≡ true };

    ghost total: { (a b : Self.Key) → le a b ≡ false → le b a ≡ true };
}

// Why an element was not inserted.
#[derive(Clone, Copy, PartialEq, Eq, Debug)]
pub enum Unplaced {
    // Its key is there already, in the element at this place.
    Double(usize),
    // Every place is taken.
    Full,
}

// Whether the first list of numbers is at most the second, lexicographically. Under a name, whose contract has our definition.
// By `cmp`: `<=` on slices goes by the partial order, an option for each byte, and takes longer.
pub fn lex_at_most(a: &[u8], b: &[u8]) -> bool
    ensures { result ≡ lex_le a.now b.now }
{
    a.cmp(&b).is_le()
}

// Where `x` belongs among the elements.
fn place<T: Keyed>(items: &[T], x: &T) -> usize
    ensures { result ≡ place_of (by_key T.Keyed.key T.Keyed.le) x.now items.now }
{
    items
        .iter()
        .position(|y| x.at_most(y))
        .unwrap_or(items.len())
}

// Where `x` goes, or where an element with its key stands.
fn seek<T: Keyed>(items: &[T], x: &T) -> Result<usize, usize>
    ensures { result ≡ sought (by_key T.Keyed.key T.Keyed.le) x.now items.now }
{
    let at = place(items, x);
    if items.get(at).is_some_and(|y| y.at_most(x)) {
        Err(at)
    } else {
        Ok(at)
    }
}

// Where `x` goes among the first `count` of the places, which are lent with their count, or why it cannot. A double is told before want of room.
fn admit<T: Keyed>(items: &[T], count: usize, x: &T) -> Result<usize, Unplaced>
    ensures { result ≡ insert_answer (by_key T.Keyed.key T.Keyed.le) x.now count items.now }
{
    let held = &items[..count.min(items.len())];
    let at = seek(held, x).map_err(Unplaced::Double)?;
    if count >= items.len() {
        return Err(Unplaced::Full);
    }
    Ok(at)
}

// Puts `x` at the place `at`, and moves each element from there to the end one place on, in places lent with their count.
fn shift_in<T: Copy>(items: &mut [T], at: usize, count: usize, x: T)
    requires { (at ≤ count) × (count < length items.old) }
    ensures { items.new ≡ insert (take count items.old) at x ++ drop (count + 1) items.old }
{
    items[count] = x;
    items[at..count + 1].rotate_right(1);
}

// Inserts `x` among the first `count` of the places and tells where it stands. Places and count are the caller's: others own that
// memory. Those are read as they are; the laws say what ascending ones gain. A double changes nothing and is told before want of room.
pub fn insert<T: Keyed + Copy>(items: &mut [T], count: usize, x: T) -> Result<usize, Unplaced>
    ensures answer { result ≡ insert_answer (by_key T.Keyed.key T.Keyed.le) x count items.old }
    ensures after { items.new ≡ insert_after (by_key T.Keyed.key T.Keyed.le) x count items.old result }
    ensures lawful { LawfulInsertion T.Keyed.key T.Keyed.le x count items.old items.new result }
{
    let at = admit(items, count, &x)?;
    shift_in(items, at, count, x);
    Ok(at)
}
