//! Lists of numbers that grow at their end, in which the last place of a number is found at once.

ghost use Rattle.std.specs.Prelude.{◌≡◌, ◌<◌, ◌-◌, ◌^◌, ◌++◌, ◌∷◌, [], ℕ, length, take, OnOk, OnErr, Some, slice_get};
ghost use Rattle.qs_firing.specs.Neighbours.{IsLastPlace};

use crate::last_places::LastPlaces;
use std::alloc::{AllocError, Global};
use std::marker::Model;

/// A place of such a list: the number that stands there, and the last place before it at which the same number stands.
#[derive(Clone, Copy)]
pub struct Place {
    number: u32,
    before: Option<u32>,
}

/// A list of at most 4,294,967,295 numbers. Its memory grows with its length alone, however great its numbers are.
#[derive(Drop)]
pub struct Places {
    places: Vec<Place>,
    last: LastPlaces,
}

impl Model for Places {
    ghost use Rattle.std.specs.Prelude.{List, ℕ};
    ghost use Rattle.qs_firing.specs.working.Places.{numbers_at, known_place, IsPlaced};

    ghost Value = { List ℕ };

    ghost view = { λ p. numbers_at p.places.items };

    ghost invariant = { λ p. IsPlaced p.places.items (known_place p.last) };
}

impl Places {
    /// No number. Takes no memory.
    pub fn new(alloc: Global) -> Places
        ensures { result ≡ [] }
    {
        Places {
            places: Vec::new(alloc),
            last: LastPlaces::new(alloc),
        }
    }

    /// The last place of a number. Takes no memory.
    pub fn last(&self, number: u32) -> Option<u32>
        ensures { IsLastPlace self.now number result }
    {
        self.last.get(number)
    }

    /// The last place before this one of the number that stands at it. Takes no memory.
    pub fn before(&self, place: u32) -> Option<u32>
        requires { place < length self.now }
        ensures { (n : ℕ) → slice_get self.now place ≡ Some n → IsLastPlace (take place self.now) n result }
    {
        self.places[place as usize].before
    }

    /// Appends a number.
    pub fn push(&mut self, number: u32) -> Result<(), AllocError>
        requires { length self.old < 2 ^ 32 - 1 }
        ensures ok { OnOk result (self.new ≡ self.old ++ number ∷ []) }
        ensures err { OnErr result (self.new ≡ self.old) }
    {
        let before = self.last(number);
        let place = self.places.len() as u32;
        self.places.push(Place { number, before })?;
        match self.last.put(number, place) {
            Ok(()) => Ok(()),
            Err(error) => {
                self.places.pop();
                Err(error)
            }
        }
    }

    /// Takes the last number away. Takes no memory.
    pub fn pop(&mut self)
        ensures { self.new ≡ take (length self.old - 1) self.old }
    {
        let Some(place) = self.places.pop() else {
            return;
        };
        self.last.set_back(place.number, place.before);
    }
}
