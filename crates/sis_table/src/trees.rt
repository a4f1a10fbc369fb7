//! Changes of a tree, made beside it and then put into it. New keys come first, which is the only
//! step that may fail, and is taken back where it does.
ghost use Rattle.std.specs.Prelude.{◌≡◌, [], Option, None, Some, IfOk, OnOk, OnErr, IsSome, is_some, true, false, cond};
ghost use Rattle.std.specs.Option.{option_copied, option_or};
ghost use Rattle.std.specs.BTreeMap.{BTreeMap, get, IsOrdered};
ghost use Rattle.std.specs.declared.cmp.Ordering.TheVariants.{Equal};
ghost use Rattle.std.proofs.lemmas.Map.Lookups.{exact_unsigned};
ghost use Rattle.sis_name.specs.Units.{name_ties};
ghost use Rattle.sis_table.specs.Trees.{AreNew, Entered, Leads, changed, is_one, put_at};

use sis_name::Name;
use std::alloc::{AllocError, Global};
use std::cmp::Ord;
use std::collections::BTreeMap;

/// A key that can be copied.
pub trait Key: Ord + Drop {
    /// An equal key.
    fn copy(&self, alloc: Global) -> Result<Self, AllocError>
        ensures { IfOk result (λ copy. copy ≡ self.now) };

    /// Keys that compare as equal are equal.
    ghost exact: { (x y : Self) → Self.cmp x y ≡ Equal → x ≡ y };
}

/// Changes of a tree.
#[derive(Drop)]
pub struct Changes<K: Ord, V> {
    /// The values of keys that the tree hasn't.
    pub added: BTreeMap<K, V>,
    /// Of keys that the tree has, another value, or none any more.
    pub touched: BTreeMap<K, Option<V>>,
}

impl<K: Key, V: Drop> Changes<K, V> {
    /// No changes. Takes no memory.
    pub fn new(alloc: Global) -> Changes<K, V>
        ensures { (base : K → Option V) → Leads K.cmp result base base }
    {
        Changes {
            added: BTreeMap::new(alloc),
            touched: BTreeMap::new(alloc),
        }
    }

    /// What they lead to under a key, where this stands there before.
    pub fn get<'a>(&'a self, key: &K, before: Option<&'a V>) -> Option<&'a V>
        ensures { (base now : K → Option V) → Leads K.cmp self.now base now
            → option_copied before.entry ≡ base key.now → option_copied result ≡ now key.now }
    {
        match self.touched.get(key) {
            Some(value) => value.as_ref(),
            None => match self.added.get(key) {
                Some(value) => Some(value),
                None => before,
            },
        }
    }

    /// Takes out what they say of a key: the value that they give it.
    pub fn take(&mut self, key: &K) -> Option<V>
        ensures value { (base now : K → Option V) → Leads K.cmp self.old base now
            → IsSome (now key.now) → now key.now ≡ option_or result (base key.now) }
        ensures rest { (base now : K → Option V) → Leads K.cmp self.old base now
            → Leads K.cmp self.new base (put_at K.cmp key.now (base key.now) now) }
    {
        match self.added.remove(key) {
            Some(value) => Some(value),
            None => self.touched.remove(key).flatten(),
        }
    }

    /// Gives a key another value, or none any more. The tree has the key, or hasn't.
    pub fn put(&mut self, key: K, value: Option<V>, has: bool) -> Result<(), AllocError>
        ensures { OnOk result ((base now : K → Option V) → is_some (base key) ≡ has
            → Leads K.cmp self.old base now
            → Leads K.cmp self.new base (put_at K.cmp key value now)) }
    {
        if has {
            self.touched.insert(key, value)?;
            return Ok(());
        }
        match value {
            Some(value) => {
                self.added.insert(key, value)?;
                Ok(())
            }
            None => {
                self.added.remove(&key);
                Ok(())
            }
        }
    }
}

/// Enters the values of new keys, all of them or none where memory runs out. Answers the keys.
pub fn enter<K: Key, V: Drop>(
    map: &mut BTreeMap<K, V>,
    added: BTreeMap<K, V>,
    alloc: Global,
) -> Result<Vec<K>, AllocError>
    requires { AreNew K.cmp added map.old }
    ensures put { OnOk result ((q : K)
        → get K.cmp map.new q ≡ option_or (get K.cmp added q) (get K.cmp map.old q)) }
    ensures keys { IfOk result (λ keys. (q : K)
        → is_one K.cmp keys.items q ≡ is_some (get K.cmp added q)) }
    ensures err { OnErr result ((q : K) → get K.cmp map.new q ≡ get K.cmp map.old q) }
    ensures was_ordered { IsOrdered K.cmp map.old }
    ensures ordered { IsOrdered K.cmp map.new }
{
    let mut entered = Vec::new(alloc);
    match enter_some(map, added, &mut entered, alloc) {
        Ok(()) => Ok(entered),
        Err(_) => {
            forget(map, &entered);
            Err(AllocError)
        }
    }
}

// Enters the values up to one for which memory runs out, and notes their keys.
fn enter_some<K: Key, V: Drop>(
    map: &mut BTreeMap<K, V>,
    mut added: BTreeMap<K, V>,
    entered: &mut Vec<K>,
    alloc: Global,
) -> Result<(), AllocError>
    requires { entered.old.items ≡ [] }
    ensures some { Entered K.cmp added entered.new.items map.old map.new }
    ensures put { OnOk result ((q : K)
        → get K.cmp map.new q ≡ option_or (get K.cmp added q) (get K.cmp map.old q)) }
    ensures keys { OnOk result ((q : K)
        → is_one K.cmp entered.new.items q ≡ is_some (get K.cmp added q)) }
    ensures was_ordered { IsOrdered K.cmp map.old }
    ensures ordered { IsOrdered K.cmp map.new }
{
    let _ = map.len();
    while let Some((key, value)) = added.pop_first() {
        entered.push(key.copy(alloc)?)?;
        map.insert(key, value)?;
    }
    Ok(())
}

/// Takes keys out again.
pub fn forget<K: Key, V: Drop>(map: &mut BTreeMap<K, V>, keys: &[K])
    ensures out { (q : K)
        → get K.cmp map.new q ≡ cond (is_one K.cmp keys.now q) None (get K.cmp map.old q) }
    ensures ordered { IsOrdered K.cmp map.new }
{
    let _ = map.len();
    for key in keys {
        map.remove(key);
    }
}

/// Gives keys that the map has other values, or takes them out.
pub fn put_all<K: Key, V: Drop>(map: &mut BTreeMap<K, V>, mut touched: BTreeMap<K, Option<V>>)
    requires there { (q : K) → IsSome (get K.cmp touched q) → IsSome (get K.cmp map.old q) }
    ensures put { (q : K)
        → get K.cmp map.new q ≡ changed (get K.cmp touched q) (get K.cmp map.old q) }
    ensures ordered { IsOrdered K.cmp map.new }
{
    let _ = map.len();
    while let Some((key, value)) = touched.pop_first() {
        match value {
            Some(value) => {
                // The map has the key, so this takes no memory.
                let _ = map.insert(key, value);
            }
            None => {
                map.remove(&key);
            }
        }
    }
}

impl Key for Name {
    fn copy(&self, alloc: Global) -> Result<Name, AllocError> {
        self.copy(alloc)
    }

    ghost exact = { name_ties };
}

impl Key for u64 {
    fn copy(&self, _alloc: Global) -> Result<u64, AllocError> {
        Ok(*self)
    }

    ghost exact = { exact_unsigned };
}
