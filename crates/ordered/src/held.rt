// A list of at most so many elements that asks for no memory.
ghost use Rattle.std.specs.Prelude.{◌≡◌, ◌≤◌, if◌then◌else◌, List, [], length, take, Some, None, nat_le};
ghost use Rattle.ordered.specs.Insert.{held_answer, held_after};
ghost use Rattle.ordered.specs.Laws.{by_key, LawfulHolding};

use crate::{Keyed, Unplaced};
use std::marker::Model;

// At most N elements in places of its own, of which the first `count` are held. Clauses see those, in their order. Places and a
// count, as `insert` takes them, so that one function places in both: in the kit's `ArrayVec` placing would be a second one, under
// a contract of its own.
#[derive(Drop)]
pub struct Held<T: Copy, const N: usize> {
    places: [T; N],
    count: usize,
}

impl<T: Copy, const N: usize> Model for Held<T, N> {
    ghost Value = { List T };

    ghost view = { λ h. take h.count h.places };

    ghost invariant = { λ h. h.count ≤ N };
}

impl<T: Copy, const N: usize> Held<T, N> {
    // Nothing held; `blank` stands in the places, and no clause sees it.
    pub fn new(blank: T) -> Held<T, N>
        ensures { result ≡ [] }
    {
        Held {
            places: [blank; N],
            count: 0,
        }
    }

    // The elements of a slice in their order, if there is room for them; `blank` stands in the places past them, which are copied
    // into by the library.
    pub fn copied(blank: T, items: &[T]) -> Option<Held<T, N>>
        ensures { result ≡ (if nat_le (length items.now) N then Some items.now else None) }
    {
        let count = items.len();
        if count > N {
            return None;
        }
        let mut places = [blank; N];
        places[..count].copy_from_slice(items);
        Some(Held { places, count })
    }

    // What is held.
    pub fn as_slice(&self) -> &[T]
        ensures value { result.now ≡ self.now }
        ensures few { length self.now ≤ N }
    {
        &self.places[..self.count]
    }

    // Inserts `x` among what is held and tells where it stands. A double changes nothing and is told before
    // want of room.
    pub fn insert(&mut self, x: T) -> Result<usize, Unplaced>
    where
        T: Keyed,
        ensures answer { result ≡ held_answer (by_key T.Keyed.key T.Keyed.le) x N self.old }
        ensures after { self.new ≡ held_after (by_key T.Keyed.key T.Keyed.le) x self.old result }
        ensures lawful { LawfulHolding T.Keyed.key T.Keyed.le x N self.old self.new result }
        ensures few { length self.new ≤ N }
    {
        let at = crate::insert(&mut self.places, self.count, x)?;
        self.count += 1;
        Ok(at)
    }
}
