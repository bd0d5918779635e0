//! Lists of places, each under a key.

ghost use Rattle.std.specs.Prelude.{◌≡◌, ◌++◌, ◌∷◌, [], ℕ, OnOk, nat_eq, false, if◌then◌else◌};
ghost use Rattle.qs_join.specs.Heads.{list_at};

use std::alloc::{AllocError, Global};
use std::collections::HashMap;

/// Lists of places, each under a key. A place is the number of a rule and the place in its left side. A key that has
/// none has the empty list.
#[derive(Drop)]
pub struct Lists {
    alloc: Global,
    lists: HashMap<u64, Vec<(u32, u32)>>,
}

impl Lists {
    /// Each list is empty. Takes no memory.
    pub fn new(alloc: Global) -> Lists
        ensures { (k : ℕ) → list_at result k ≡ [] }
    {
        Lists {
            alloc,
            lists: HashMap::new(alloc),
        }
    }

    /// The list of a key. Takes no memory.
    pub fn at(&self, key: u64) -> &[(u32, u32)]
        ensures { result.now ≡ list_at self.now key }
    {
        match self.lists.get(&key) {
            Some(places) => places,
            None => &[],
        }
    }

    /// Appends one place to the list of a key.
    pub fn add(&mut self, key: u64, place: (u32, u32)) -> Result<(), AllocError>
        ensures { OnOk result ((k : ℕ) → list_at self.new k ≡ list_at self.old k
            ++ (if nat_eq key k then place ∷ [] else [])) }
    {
        let mut places = self.take(key);
        places.push(place)?;
        self.lists.insert(key, places)?;
        Ok(())
    }

    // Takes the list of a key away, which is empty where it has none.
    fn take(&mut self, key: u64) -> Vec<(u32, u32)>
        ensures places { result.items ≡ list_at self.old key }
        ensures others { (k : ℕ) → nat_eq key k ≡ false → list_at self.new k ≡ list_at self.old k }
    {
        match self.lists.remove(&key) {
            Some(places) => places,
            None => Vec::new(self.alloc),
        }
    }
}
