//! Files by rising ids, with an index of their names, both in trees: a look-up by id or by name takes
//! logarithmic time.
ghost use Rattle.std.specs.Prelude.{◌≡◌, ◌<◌, ◌==◌, ◌++◌, [], ◌∷◌, List, length, find, false, is_some, OnOk, OnErr};
ghost use Rattle.std.specs.List.{list_any};
ghost use Rattle.std.specs.Map.Iter.{ShowsInOrder, deref};
ghost use Rattle.std.specs.Option.{option_map, option_copied};
ghost use Rattle.sis_table.specs.Drafts.{LeadsTo};
ghost use Rattle.sis_table.specs.Index.{AreRising, IsNextIn};
ghost use Rattle.sis_table.specs.Volume.{VolumeTable, IsNextFile, has_name, id_of, last_id};
ghost use Rattle.sis_table.specs.declared.node.Node.{Node as TheNode};

use crate::Node;
use crate::trees::{Changes, enter, forget, put_all};
use sis_name::Name;
use std::alloc::{AllocError, Global};
use std::collections::BTreeMap;
use std::collections::btree_map::Values;
use std::marker::Model;
use std::ops::Bound;

/// Files by rising ids, with an index of their names.
#[derive(Drop)]
pub struct Files {
    alloc: Global,
    nodes: BTreeMap<u64, Node>,
    names: BTreeMap<Name, u64>,
}

impl Model for Files {
    ghost use Rattle.std.specs.Prelude.{List};
    ghost use Rattle.std.specs.BTreeMap.{values};
    ghost use Rattle.sis_table.specs.declared.node.Node.{Node};
    ghost use Rattle.sis_table.specs.Index.{AreKept};
    ghost use Rattle.std.specs.Coded.{codes};
    ghost use Rattle.sis_ranges.specs.contracts.extents.Extents as extents;

    ghost Value = { List Node };

    ghost coded = { Prim.hlevel (codes, extents.the_row.coded) };

    ghost view = { λ f. values f.nodes };

    ghost invariant = { λ f. AreKept f.nodes f.names };
}

impl Files {
    /// No files. Takes no memory.
    pub fn new(alloc: Global) -> Files
        ensures { result ≡ [] }
    {
        Files {
            alloc,
            nodes: BTreeMap::new(alloc),
            names: BTreeMap::new(alloc),
        }
    }

    /// Where their memory comes from.
    pub fn allocator(&self) -> Global {
        self.alloc
    }

    /// How many files there are.
    pub fn len(&self) -> u64
        ensures { result ≡ length self.now }
    {
        self.nodes.len() as u64
    }

    /// The files, by rising id.
    pub fn nodes(&self) -> Values<'_, u64, Node>
        ensures rest { result ≡ self.now }
        ensures runs { ShowsInOrder (deref {X = Node}) }
    {
        self.nodes.values()
    }

    /// The id of the last file, 0 where there is none.
    pub fn last_id(&self) -> u64
        ensures { result ≡ last_id self.now }
    {
        match self.nodes.last_key_value() {
            None => 0,
            Some((id, _)) => *id,
        }
    }

    /// The file of this name.
    pub fn find(&self, name: &Name) -> Option<u64>
        ensures { result ≡ option_map id_of (find (has_name name.now) self.now) }
    {
        self.names.get(name).copied()
    }

    /// A file has this name.
    pub fn has_name(&self, name: &Name) -> bool
        ensures { result ≡ list_any (has_name name.now) self.now }
    {
        self.find(name).is_some()
    }

    /// The file with this id.
    pub fn node(&self, id: u64) -> Option<&Node>
        ensures { option_copied result ≡ find (λ n. n.id == id) self.now }
    {
        self.nodes.get(&id)
    }

    /// A file has this id.
    pub fn has_node(&self, id: u64) -> bool
        ensures { result ≡ is_some (find (λ n. n.id == id) self.now) }
    {
        self.node(id).is_some()
    }

    /// The file with the least name that is greater than this one, and with the least name of all
    /// where there is none.
    pub fn next(&self, after: Option<&Name>) -> Option<u64>
        ensures { (v : VolumeTable) → v.nodes ≡ self.now
            → IsNextFile v (option_copied after.entry) result }
    {
        let start = match after {
            None => Bound::Unbounded,
            Some(name) => Bound::Excluded(name),
        };
        let (_, id) = self.names.range((start, Bound::Unbounded)).next()?;
        Some(*id)
    }

    /// The file with the least id that is greater than this one.
    pub fn next_node(&self, after: u64) -> Option<&Node>
        ensures { IsNextIn self.now after (option_copied result) }
    {
        let start = Bound::Excluded(&after);
        let (_, node) = self.nodes.range((start, Bound::Unbounded)).next()?;
        Some(node)
    }

    /// Adds a file behind the others.
    pub fn push(&mut self, node: Node) -> Result<(), AllocError>
        requires rises { last_id self.old < node.id }
        requires free { list_any (has_name node.name) self.old ≡ false }
        ensures ok { OnOk result (self.new ≡ self.old ++ node ∷ []) }
        ensures err { OnErr result (self.new ≡ self.old) }
    {
        let name = node.name.copy(self.alloc)?;
        let id = node.id;
        self.nodes.insert(id, node)?;
        match self.names.insert(name, id) {
            Ok(_) => {}
            Err(_) => {
                let _ = self.nodes.remove(&id);
                return Err(AllocError);
            }
        }
        Ok(())
    }

    /// Carries out changes, or nothing where memory runs out.
    pub fn publish(
        &mut self,
        nodes: Changes<u64, Node>,
        names: Changes<Name, u64>,
    ) -> Result<(), AllocError>
        requires { (now : List TheNode) × AreRising now × LeadsTo self.old nodes names now }
        ensures ok { OnOk result ((now : List TheNode) → AreRising now
            → LeadsTo self.old nodes names now → self.new ≡ now) }
        ensures err { OnErr result (self.new ≡ self.old) }
    {
        // Memory may run out in these two alone, and what they enter is taken out again.
        let entered = enter(&mut self.names, names.added, self.alloc)?;
        match enter(&mut self.nodes, nodes.added, self.alloc) {
            Ok(_) => {
                put_all(&mut self.nodes, nodes.touched);
                put_all(&mut self.names, names.touched);
                Ok(())
            }
            Err(_) => {
                forget(&mut self.names, &entered);
                Err(AllocError)
            }
        }
    }
}
