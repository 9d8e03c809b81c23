//! What was told of each key, in the order of the keys.

ghost use Rattle.std.specs.Prelude.{◌≡◌, [], IfOk, OnOk, IsTrue};
ghost use Rattle.std.specs.List.Sorted.{IsStrictlySortedBy};
ghost use Rattle.std.specs.Map.{keys_of};
ghost use Rattle.fol_script.specs.Kept.{entries_in, Keeps, AllBelow};

use std::alloc::{AllocError, Global};
use std::collections::BTreeMap;

/// What was told of each key. While the keys come in rising order each goes behind the others, which takes one comparison;
/// from the first key that does not, all are in a map.
#[derive(Drop)]
pub struct Kept<K: Ord, V> {
    pub rising: Vec<(K, V)>,
    pub mixed: BTreeMap<K, V>,
}

impl<K: Ord + Drop, V: Drop> Kept<K, V> {
    /// Nothing yet.
    pub fn new(alloc: Global) -> Kept<K, V>
        ensures { entries_in result ≡ [] }
    {
        Kept {
            rising: Vec::new(alloc),
            mixed: BTreeMap::new(alloc),
        }
    }

    /// Whether the key is above those that came in rising order.
    fn is_above(&self, key: &K) -> bool
        ensures { IsTrue result → IsStrictlySortedBy K.cmp (keys_of self.now.rising.items)
            → AllBelow K.cmp self.now.rising.items key.now }
    {
        match self.rising.last() {
            None => true,
            Some(last) => last.0.cmp(key).is_lt(),
        }
    }

    /// All go into the map.
    fn mix(&mut self) -> Result<(), AllocError>
        ensures rising { OnOk result (self.new.rising.items ≡ []) }
        ensures entries { OnOk result (IsStrictlySortedBy K.cmp (keys_of (entries_in self.old))
            → self.new.mixed.entries ≡ entries_in self.old) }
    {
        while let Some((key, value)) = self.rising.pop() {
            self.mixed.insert(key, value)?;
        }
        Ok(())
    }

    /// Keeps what was told of a key, and tells whether something was told of it before.
    pub fn keep(&mut self, key: K, value: V) -> Result<bool, AllocError>
        ensures { IfOk result (λ stood. IsStrictlySortedBy K.cmp (keys_of (entries_in self.old))
            → Keeps K.cmp (entries_in self.old) (entries_in self.new) key value stood) }
    {
        if self.mixed.is_empty() && self.is_above(&key) {
            self.rising.push((key, value))?;
            return Ok(false);
        }
        self.mix()?;
        let earlier = self.mixed.insert(key, value)?;
        Ok(earlier.is_some())
    }
}
