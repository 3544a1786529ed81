//! The index of a list of names.

ghost use Rattle.std.specs.Prelude.{◌≡◌, ◌++◌, ◌∷◌, [], ℕ, List, OnOk, OnErr};
ghost use Rattle.name_index.specs.Names.{Indexes, first_place, is_among};

use std::alloc::{AllocError, Global};
use std::collections::BTreeMap;
use std::string::String;

/// The places of a list of names, found in an ordered map: no choice of names makes a look-up slow. A name may repeat.
#[derive(Debug, Drop)]
pub struct NameIndex {
    // The first place of each name.
    places: BTreeMap<String, u32>,
    // How many names there are.
    count: u32,
}

impl NameIndex {
    /// The index of no names.
    pub fn new(alloc: Global) -> Self
        ensures { Indexes result [] }
    {
        NameIndex {
            places: BTreeMap::new(alloc),
            count: 0,
        }
    }

    /// The place of the first name that is this one.
    pub fn place_of(&self, name: &str) -> Option<u32>
        ensures { (names : List (List ℕ)) → Indexes self.now names → result ≡ first_place names name.now }
    {
        self.places.get(name).copied()
    }

    /// Whether this is one of the names.
    pub fn contains(&self, name: &str) -> bool
        ensures { (names : List (List ℕ)) → Indexes self.now names → result ≡ is_among names name.now }
    {
        self.place_of(name).is_some()
    }

    /// Adds a name at the end, which the index copies. It refuses for want of memory, and from 2^32 - 1 names on.
    pub fn push(&mut self, alloc: Global, name: &str) -> Result<(), AllocError>
        ensures grows { (names : List (List ℕ)) → Indexes self.old names → OnOk result (Indexes self.new (names ++ name.now ∷ [])) }
        ensures refused { (names : List (List ℕ)) → Indexes self.old names → OnErr result (Indexes self.new names) }
    {
        let Some(count) = self.count.checked_add(1) else {
            return Err(AllocError);
        };
        if self.places.get(name).is_none() {
            let key = String::from_str(alloc, name)?;
            self.places.insert(key, self.count)?;
        }
        self.count = count;
        Ok(())
    }
}
