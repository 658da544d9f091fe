//! A list of at most three items, held in place.

ghost use Rattle.std.specs.Prelude.{◌≡◌, ◌<◌, ◌≤◌, ◌↔◌, IsTrue, [], ◌∷◌, ◌++◌, length, slice_get};

use std::alloc::AllocError;
use std::marker::Model;

/// At most three items, in order, with no memory of their own. Contracts see them as a list.
#[derive(PartialEq, Eq)]
pub struct UpToThree<T> {
    places: Places<T>,
}

#[derive(PartialEq, Eq)]
enum Places<T> {
    Zero,
    One(T),
    Two(T, T),
    Three(T, T, T),
}

impl<T: Copy> Copy for Places<T> {}

impl<T: Copy> Clone for Places<T> {
    fn clone(&self) -> Result<Places<T>, AllocError> {
        Ok(*self)
    }
}

impl<T: Copy> Copy for UpToThree<T> {}

impl<T: Copy> Clone for UpToThree<T> {
    fn clone(&self) -> Result<UpToThree<T>, AllocError> {
        Ok(*self)
    }
}

impl<T> Model for UpToThree<T> {
    ghost use Rattle.std.specs.Prelude.{List};

    ghost Value = { List T };

    ghost use Rattle.eve_smallbank.specs.Few.{items_in, places_of, places_of-items_in};

    ghost view = { λ a. items_in a.places };

    ghost inverse = { λ items. record { places = places_of items } };

    ghost inverse_ok = { λ a h i. record { places = places_of-items_in a.places i } };
}

impl<T: Copy> UpToThree<T> {
    /// No items.
    pub fn new() -> UpToThree<T>
        ensures { result ≡ [] }
    {
        UpToThree {
            places: Places::Zero,
        }
    }

    /// One item.
    pub fn one(item: T) -> UpToThree<T>
        ensures { result ≡ item ∷ [] }
    {
        UpToThree {
            places: Places::One(item),
        }
    }

    /// Two items.
    pub fn two(first: T, second: T) -> UpToThree<T>
        ensures { result ≡ first ∷ second ∷ [] }
    {
        UpToThree {
            places: Places::Two(first, second),
        }
    }

    /// Three items.
    pub fn three(first: T, second: T, third: T) -> UpToThree<T>
        ensures { result ≡ first ∷ second ∷ third ∷ [] }
    {
        UpToThree {
            places: Places::Three(first, second, third),
        }
    }

    /// How many there are.
    pub fn len(&self) -> usize
        ensures len { result ≡ length self.now }
        ensures limit { result ≤ 3 }
    {
        match self.places {
            Places::Zero => 0,
            Places::One(_) => 1,
            Places::Two(_, _) => 2,
            Places::Three(_, _, _) => 3,
        }
    }

    /// Whether there are none.
    pub fn is_empty(&self) -> bool
        ensures { IsTrue result ↔ (self.now ≡ []) }
    {
        self.len() == 0
    }

    /// The item at that place, counted from 0.
    pub fn at(&self, place: usize) -> T
        requires { place < length self.now }
        ensures { slice_get self.now place ≡ Some result }
    {
        match (&self.places, place) {
            (Places::One(item) | Places::Two(item, _) | Places::Three(item, _, _), 0) => *item,
            (Places::Two(_, item) | Places::Three(_, item, _), 1) => *item,
            (Places::Three(_, _, item), 2) => *item,
            _ => unreachable!(),
        }
    }

    /// Appends the item, where there are fewer than three.
    pub fn push(&mut self, item: T)
        requires { length self.old < 3 }
        ensures { self.new ≡ self.old ++ item ∷ [] }
    {
        self.places = match self.places {
            Places::Zero => Places::One(item),
            Places::One(first) => Places::Two(first, item),
            Places::Two(first, second) => Places::Three(first, second, item),
            Places::Three(_, _, _) => unreachable!(),
        };
    }
}
