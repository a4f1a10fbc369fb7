//! What edits make of the files of a table. They are made beside it, and so leave it as it is.
ghost use Rattle.std.specs.Prelude.{◌≡◌, ◌+◌, ◌-◌, ◌<◌, ◌≤◌, ◌^◌, ◌++◌, [], ◌∷◌, List, false, sum_by, Some, IsSome, IfOk, OnOk};
ghost use Rattle.std.specs.List.{AllByRecursion, list_any};
ghost use Rattle.std.specs.Ordering.{nat_cmp};
ghost use Rattle.std.specs.Option.{option_copied};
ghost use Rattle.sis_ranges.specs.Extents.{IsWithin};
ghost use Rattle.sis_table.specs.Drafts.{FileMap, HaveOwnNames, KeepsPlace, Lacks, LacksNamed, Stands, file_at};
ghost use Rattle.sis_table.specs.Edits.{IfThere, with_map, with_name, with_node, with_size, with_version, without_map, without_node};
ghost use Rattle.sis_table.specs.Index.{AreRising};
ghost use Rattle.sis_table.specs.Spelling.{IsShort, node_len};
ghost use Rattle.sis_table.specs.Trees.{Leads, put_at};
ghost use Rattle.sis_table.specs.Volume.{has_name, last_id};
ghost use Rattle.sis_table.specs.declared.node.Node.{Node as TheNode};

use crate::Node;
use crate::files::Files;
use crate::trees::Changes;
use crate::writing::len_of_node;
use sis_name::Name;
use sis_ranges::Run;
use std::alloc::{AllocError, Global};
use std::mem;

/// The files and names that edits touched. After an error of one of them it is of no use.
#[derive(Drop)]
pub struct Draft {
    /// The id that the next file gets.
    pub next_id: u64,
    /// The length of the table's spelling in bytes.
    pub text_len: u64,
    /// Files under their ids.
    pub nodes: Changes<u64, Node>,
    /// Their ids under their names.
    pub names: Changes<Name, u64>,
}

impl Draft {
    /// No changes. Takes no memory.
    pub fn new(alloc: Global, next_id: u64, text_len: u64) -> Draft
        ensures stands { (nodes : List TheNode) → AreRising nodes → AllByRecursion IsShort nodes
            → text_len ≡ 20 + sum_by node_len nodes → Stands nodes result nodes }
        ensures next { result.next_id ≡ next_id }
    {
        Draft {
            next_id,
            text_len,
            nodes: Changes::new(alloc),
            names: Changes::new(alloc),
        }
    }

    /// A file as the edits so far leave it.
    pub fn node<'a>(&'a self, files: &'a Files, id: u64) -> Option<&'a Node>
        ensures { (nodes : List TheNode) → Stands files.now self.now nodes
            → option_copied result ≡ file_at nodes id }
    {
        self.nodes.get(&id, files.node(id))
    }

    /// Makes a file behind the others.
    pub fn make(&mut self, files: &Files, node: Node) -> Result<(), AllocError>
        requires id { node.id < 2 ^ 64 - 1 }
        requires short { IsShort node }
        requires small { self.old.text_len ≤ 2 ^ 62 }
        ensures ok { OnOk result ((nodes : List TheNode) → Stands files.now self.old nodes
            → last_id nodes < node.id → list_any (has_name node.name) nodes ≡ false
            → Stands files.now self.new (nodes ++ node ∷ [])) }
        ensures next { OnOk result (self.new.next_id ≡ node.id + 1) }
    {
        let id = node.id;
        let name = node.name.copy(files.allocator())?;
        let has = files.find(&name).is_some();
        self.names.put(name, Some(id), has)?;
        self.text_len += len_of_node(&node);
        self.nodes.put(id, Some(node), files.has_node(id))?;
        self.next_id = id + 1;
        Ok(())
    }

    /// Gives a file another size.
    pub fn resize(&mut self, files: &Files, id: u64, size: u64) -> Result<(), AllocError>
        requires there { (nodes : List TheNode) × Stands files.now self.old nodes
            × IsSome (file_at nodes id) }
        requires small { self.old.text_len ≤ 2 ^ 62 }
        ensures ok { OnOk result ((nodes : List TheNode) → Stands files.now self.old nodes
            → Stands files.now self.new (with_node id (with_size size) nodes)) }
        ensures next { OnOk result (self.new.next_id ≡ self.old.next_id) }
    {
        let mut node = self.take(files, id)?;
        node.size = size;
        self.put_back(files, node)?;
        Ok(())
    }

    /// Maps the run's blocks to its places, also those that are mapped already.
    pub fn map(&mut self, files: &Files, id: u64, run: Run) -> Result<(), AllocError>
        requires short { (nodes : List TheNode) × Stands files.now self.old nodes
            × IfThere (file_at nodes id) (λ n. IsShort (with_map run n)) }
        requires within { IsWithin run }
        requires small { self.old.text_len ≤ 2 ^ 62 }
        ensures ok { OnOk result ((nodes : List TheNode) → Stands files.now self.old nodes
            → Stands files.now self.new (with_node id (with_map run) nodes)) }
        ensures next { OnOk result (self.new.next_id ≡ self.old.next_id) }
    {
        let mut node = self.take(files, id)?;
        node.map.set_run(run)?;
        self.put_back(files, node)?;
        Ok(())
    }

    /// Takes the blocks of a stretch out of a file's map.
    pub fn unmap(
        &mut self,
        files: &Files,
        id: u64,
        first: u64,
        count: u64,
    ) -> Result<(), AllocError>
        requires short { (nodes : List TheNode) × Stands files.now self.old nodes
            × IfThere (file_at nodes id) (λ n. IsShort (without_map first count n)) }
        requires small { self.old.text_len ≤ 2 ^ 62 }
        ensures ok { OnOk result ((nodes : List TheNode) → Stands files.now self.old nodes
            → Stands files.now self.new (with_node id (without_map first count) nodes)) }
        ensures next { OnOk result (self.new.next_id ≡ self.old.next_id) }
    {
        let mut node = self.take(files, id)?;
        node.map.clear_run(first, count)?;
        self.put_back(files, node)?;
        Ok(())
    }

    /// Gives a file another version.
    pub fn set_version(&mut self, files: &Files, id: u64, version: u64) -> Result<(), AllocError>
        requires there { (nodes : List TheNode) × Stands files.now self.old nodes
            × IsSome (file_at nodes id) }
        requires small { self.old.text_len ≤ 2 ^ 62 }
        ensures ok { OnOk result ((nodes : List TheNode) → Stands files.now self.old nodes
            → Stands files.now self.new (with_node id (with_version version) nodes)) }
        ensures next { OnOk result (self.new.next_id ≡ self.old.next_id) }
    {
        let mut node = self.take(files, id)?;
        node.version = version;
        self.put_back(files, node)?;
        Ok(())
    }

    /// Gives a file another name, which is free.
    pub fn rename(&mut self, files: &Files, id: u64, name: &Name) -> Result<(), AllocError>
        requires there { (nodes : List TheNode) × Stands files.now self.old nodes
            × IsSome (file_at nodes id) }
        requires small { self.old.text_len ≤ 2 ^ 62 }
        ensures ok { OnOk result ((nodes : List TheNode) → Stands files.now self.old nodes
            → HaveOwnNames nodes → list_any (has_name name.now) nodes ≡ false
            → Stands files.now self.new (with_node id (with_name name.now) nodes)) }
        ensures next { OnOk result (self.new.next_id ≡ self.old.next_id) }
    {
        let mut node = self.take(files, id)?;
        let alloc = files.allocator();
        let before = mem::replace(&mut node.name, name.copy(alloc)?);
        let had = files.find(&before).is_some();
        self.names.put(before, None, had)?;
        let after = name.copy(alloc)?;
        let has = files.find(&after).is_some();
        self.names.put(after, Some(id), has)?;
        self.text_len += len_of_node(&node);
        self.nodes.put(id, Some(node), files.has_node(id))?;
        Ok(())
    }

    /// Drops a file, whose name is then free.
    pub fn drop_file(&mut self, files: &Files, id: u64) -> Result<(), AllocError>
        requires { (nodes : List TheNode) × Stands files.now self.old nodes
            × IsSome (file_at nodes id) }
        ensures ok { OnOk result ((nodes : List TheNode) → Stands files.now self.old nodes
            → HaveOwnNames nodes → Stands files.now self.new (without_node id nodes)) }
        ensures next { OnOk result (self.new.next_id ≡ self.old.next_id) }
    {
        let name = self.take_name(files, id)?;
        let has = files.find(&name).is_some();
        self.names.put(name, None, has)?;
        self.nodes.put(id, None, files.has_node(id))?;
        Ok(())
    }

    // Takes a file out, which is put back then.
    fn take(&mut self, files: &Files, id: u64) -> Result<Node, AllocError>
        requires { (nodes : List TheNode) × Stands files.now self.old nodes
            × IsSome (file_at nodes id) }
        ensures ok { IfOk result (λ node. (nodes : List TheNode) → Stands files.now self.old nodes
            → (node.id ≡ id) × Lacks files.now self.new nodes node) }
        ensures len { self.new.text_len ≤ self.old.text_len }
        ensures next { self.new.next_id ≡ self.old.next_id }
    {
        let node = self.take_node(files, id)?;
        self.text_len -= len_of_node(&node);
        Ok(node)
    }

    // A file as the edits so far leave it. One that none of them touched is copied.
    fn take_node(&mut self, files: &Files, id: u64) -> Result<Node, AllocError>
        requires { (nodes : List TheNode) × Stands files.now self.old nodes
            × IsSome (file_at nodes id) }
        ensures node { IfOk result (λ node. (nodes : List TheNode)
            → Stands files.now self.old nodes → file_at nodes id ≡ Some node) }
        ensures rest { (base now : FileMap) → Leads nat_cmp self.old.nodes base now
            → Leads nat_cmp self.new.nodes base (put_at nat_cmp id (base id) now) }
        ensures same { self.new ≡ record self.old { nodes = self.new.nodes } }
    {
        match self.nodes.take(&id) {
            Some(node) => Ok(node),
            None => files.node(id).unwrap().copy(files.allocator()),
        }
    }

    // Takes a file out, and answers its name.
    fn take_name(&mut self, files: &Files, id: u64) -> Result<Name, AllocError>
        requires { (nodes : List TheNode) × Stands files.now self.old nodes
            × IsSome (file_at nodes id) }
        ensures ok { IfOk result (λ name. (nodes : List TheNode) → Stands files.now self.old nodes
            → LacksNamed files.now self.new nodes id name) }
        ensures next { self.new.next_id ≡ self.old.next_id }
    {
        match self.nodes.take(&id) {
            Some(node) => {
                self.text_len -= len_of_node(&node);
                Ok(node.name)
            }
            None => {
                let node = files.node(id).unwrap();
                let name = node.name.copy(files.allocator())?;
                self.text_len -= len_of_node(node);
                Ok(name)
            }
        }
    }

    // Puts a file back that was taken out and changed, but for its id and its name.
    fn put_back(&mut self, files: &Files, node: Node) -> Result<(), AllocError>
        requires short { IsShort node }
        requires small { self.old.text_len ≤ 2 ^ 62 }
        ensures ok { OnOk result ((nodes : List TheNode) (taken : TheNode)
            (change : TheNode → TheNode) → Lacks files.now self.old nodes taken
            → KeepsPlace change → node ≡ change taken
            → Stands files.now self.new (with_node node.id change nodes)) }
        ensures next { OnOk result (self.new.next_id ≡ self.old.next_id) }
    {
        let id = node.id;
        self.text_len += len_of_node(&node);
        self.nodes.put(id, Some(node), files.has_node(id))?;
        Ok(())
    }
}
