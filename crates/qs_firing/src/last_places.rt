//! The last place of each number of a list, found at once.

ghost use Rattle.std.specs.Prelude.{ℕ, ◌≡◌, if◌then◌else◌, nat_eq, Some, None, OnOk, OnErr};
ghost use Rattle.qs_firing.specs.working.Places.{known_place};

use std::alloc::{AllocError, Global};
use std::collections::HashMap;

// By how much half of a number may be above its place, where the table is lengthened for it.
const SPARE: usize = 64;

/// The last place of each number that stands in a list. Numbers that are small beside the length of the list have
/// theirs in a table; each other one has it in a map, so that memory grows with the length of the list alone.
/// (This project.)
#[derive(Drop)]
pub struct LastPlaces {
    near: Vec<Option<u32>>,
    far: HashMap<u32, u32>,
}

impl LastPlaces {
    /// No place of any number. Takes no memory.
    pub fn new(alloc: Global) -> LastPlaces
        ensures { (n : ℕ) → known_place result n ≡ None }
    {
        LastPlaces {
            near: Vec::new(alloc),
            far: HashMap::new(alloc),
        }
    }

    /// The last place of a number. Takes no memory.
    pub fn get(&self, number: u32) -> Option<u32>
        ensures { result ≡ known_place self.now number }
    {
        match self.near.get(number as usize) {
            Some(Some(place)) => Some(*place),
            _ => self.far.get(&number).copied(),
        }
    }

    // Lengthens the table to this length, where it is shorter.
    fn cover(&mut self, len: usize) -> Result<(), AllocError>
        ensures { (n : ℕ) → known_place self.new n ≡ known_place self.old n }
    {
        for _ in self.near.len()..len {
            self.near.push(None)?;
        }
        Ok(())
    }

    /// Makes this place the last one of the number.
    pub fn put(&mut self, number: u32, place: u32) -> Result<(), AllocError>
        ensures ok { OnOk result ((n : ℕ) → known_place self.new n
            ≡ (if nat_eq number n then Some place else known_place self.old n)) }
        ensures err { OnErr result ((n : ℕ) → known_place self.new n ≡ known_place self.old n) }
    {
        let at = number as usize;
        if at >= self.near.len() && at / 2 <= place as usize + SPARE {
            self.cover(at + 1)?;
        }
        if at < self.near.len() {
            self.near[at] = Some(place);
            return Ok(());
        }
        match self.far.insert(number, place) {
            Ok(_) => Ok(()),
            Err(_) => Err(AllocError),
        }
    }

    /// Makes the place before it, or none, the last one of a number that has one. Takes no memory.
    pub fn set_back(&mut self, number: u32, before: Option<u32>)
        requires { ¬ (known_place self.old number ≡ None) }
        ensures { (n : ℕ) → known_place self.new n
            ≡ (if nat_eq number n then before else known_place self.old n) }
    {
        let at = number as usize;
        if at < self.near.len() {
            self.near[at] = before;
            if before.is_none() {
                // What the table has hidden.
                self.far.remove(&number);
            }
            return;
        }
        match before {
            Some(before) => {
                if let Some(last) = self.far.get_mut(&number) {
                    *last = before;
                }
            }
            None => {
                self.far.remove(&number);
            }
        }
    }
}
