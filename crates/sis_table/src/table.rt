//! The table: files by rising id.
ghost use Rattle.std.specs.Prelude.{◌≡◌, ◌==◌, ◌+◌, ◌<◌, ◌≤◌, ◌++◌, length, vec_capacity, [], IfOk, OnOk, OnErr, IfErr, IsOk, IsErr, IsSome, Ok, None};
ghost use Rattle.std.specs.Map.Iter.{ShowsInOrder, deref};
ghost use Rattle.std.specs.Option.{option_map, option_copied};
ghost use Rattle.sis_disk.specs.Layout.{IsLayout};
ghost use Rattle.sis_table.specs.Volume.{VolumeTable, IsTable, IsNextFile, IsNextNode, empty_table, node_named, node_with, id_of};
ghost use Rattle.sis_table.specs.Spelling.{spelling};
ghost use Rattle.sis_table.specs.Good.{first_defect, IsGood, Names};
ghost use Rattle.sis_table.specs.Reading.{IsWithin, table_at, named};
ghost use Rattle.sis_reading.specs.Steps.{Gives};
ghost use Rattle.std.specs.List.{AllByRecursion};
ghost use Rattle.sis_table.specs.Drafts.{Drafts};
ghost use Rattle.sis_table.specs.Edits.{edited, edited_by, MayEdit, MayEditBy, MayMake, RefusesEdits};
ghost use Rattle.sis_table.specs.Inside.{Tells};
ghost use Rattle.sis_table.specs.Uses.{ChangesUse, IsDataUse, TakesFresh};

use crate::checking::maps_twice;
use crate::draft::Draft;
use crate::files::Files;
use crate::noting::note;
use crate::reading::read_table;
use crate::writing::{put_nodes, put_u32, put_u64};
use crate::{Edit, EditsFault, GoodFault, GoodKind, Layout, Node, NodeKind, PlaceUse, TableFault};
use sis_name::Name;
use sis_ranges::{Extents, Run};
use std::alloc::{AllocError, Global};
use std::collections::btree_map::Values;
use std::marker::Model;

/// The length of a spelling in front of its files, in bytes.
const HEAD_LEN: u64 = 20;

/// The files of a volume, and the numbers that the next ones get.
#[derive(Drop)]
pub struct Table {
    layout: Layout,
    next_id: u64,
    greatest: u64,
    files: Files,
    /// The length of its spelling in bytes.
    text_len: u64,
}

impl Model for Table {
    ghost use Rattle.sis_table.specs.Volume.{VolumeTable};
    ghost use Rattle.sis_table.specs.Spelling.{IsMeasured};
    ghost use Rattle.std.specs.Coded.{codes};
    ghost use Rattle.sis_ranges.specs.contracts.extents.Extents as extents;

    ghost Value = { VolumeTable };

    ghost coded = { Prim.hlevel (codes, extents.the_row.coded) };

    ghost view = { λ a. record {
      layout = a.layout;
      next_id = a.next_id;
      greatest = a.greatest;
      nodes = a.files;
    } };

    ghost invariant = { λ a. IsMeasured (record {
      layout = a.layout;
      next_id = a.next_id;
      greatest = a.greatest;
      nodes = a.files;
    }) a.text_len };
}

impl Table {
    /// The table without files. Takes no memory.
    pub fn empty(alloc: Global, layout: Layout) -> Table
        requires { IsLayout layout }
        ensures { result ≡ empty_table layout }
    {
        Table {
            layout,
            next_id: 1,
            greatest: 0,
            files: Files::new(alloc),
            text_len: HEAD_LEN,
        }
    }

    /// The layout of its image.
    pub fn layout(&self) -> Layout
        ensures layout { result ≡ self.now.layout }
        ensures table { IsTable self.now }
    {
        self.layout
    }

    /// The id that the next file gets.
    pub fn next_id(&self) -> u64
        ensures { result ≡ self.now.next_id }
    {
        self.next_id
    }

    /// The greatest link index that was ever given.
    pub fn greatest(&self) -> u64
        ensures { result ≡ self.now.greatest }
    {
        self.greatest
    }

    /// The file of this name.
    pub fn find(&self, name: &Name) -> Option<u64>
        ensures { result ≡ option_map id_of (node_named self.now name.now) }
    {
        self.files.find(name)
    }

    /// The file with this id.
    pub fn node(&self, id: u64) -> Option<&Node>
        ensures { option_copied result ≡ node_with self.now id }
    {
        self.files.node(id)
    }

    /// How many files there are.
    pub fn files(&self) -> u64
        ensures { result ≡ length self.now.nodes }
    {
        self.files.len()
    }

    /// The file with the least name that is greater than this one, and with the least name of all
    /// where there is none. Takes no memory.
    pub fn next_file(&self, after: Option<&Name>) -> Option<u64>
        ensures next { IsNextFile self.now (option_copied after.entry) result }
    {
        self.files.next(after)
    }

    /// The files, by rising id.
    pub fn nodes(&self) -> Values<'_, u64, Node>
        ensures rest { result ≡ self.now.nodes }
        ensures runs { ShowsInOrder (deref {X = Node}) }
    {
        self.files.nodes()
    }

    /// The least id of a file that is greater than this one. Takes no memory.
    pub fn next_node(&self, after: u64) -> Option<u64>
        ensures { IsNextNode self.now after result }
    {
        match self.files.next_node(after) {
            Some(node) => Some(node.id),
            None => None,
        }
    }

    /// Judges whether the files go together: no place is mapped twice.
    pub fn good(&self, alloc: Global) -> Result<(), GoodFault>
        ensures ok { OnOk result (first_defect self.now ≡ None) }
        ensures err { IfErr result (Names (first_defect self.now)) }
        ensures good { OnOk result (IsGood self.now) }
        ensures only { IsGood self.now → IfErr result (λ fault. fault ≡ GoodFault.Memory) }
    {
        let mut marks = vec![in alloc; false; self.layout.total as usize]?;
        for node in self.files.nodes() {
            if maps_twice(&mut marks, node.map.runs()) {
                return Err(GoodFault::Bad {
                    kind: GoodKind::PlaceTwice,
                    file: node.id,
                    index: 0,
                });
            }
        }
        Ok(())
    }

    /// An equal table.
    pub fn copy(&self, alloc: Global) -> Result<Table, AllocError>
        ensures { IfOk result (λ copy. copy ≡ self.now) }
    {
        let mut files = Files::new(alloc);
        for node in self.files.nodes() {
            files.push(node.copy(alloc)?)?;
        }
        Ok(Table {
            layout: self.layout,
            next_id: self.next_id,
            greatest: self.greatest,
            files,
            text_len: self.text_len,
        })
    }

    /// Makes an edit. Want of memory leaves the table as it was.
    pub fn apply(&mut self, edit: &Edit) -> Result<(), AllocError>
        requires { MayEdit self.old edit.now }
        ensures ok { OnOk result (self.new ≡ edited self.old edit.now) }
        ensures err { OnErr result (self.new ≡ self.old) }
    {
        let mut draft = self.draft();
        self.edit_in(&mut draft, edit)?;
        self.publish(draft)
    }

    /// Makes all of these edits, or none where memory runs out or the spelling would be longer than
    /// so many bytes. Answers which places became free and which used, in the order of the edits.
    pub fn apply_all(&mut self, edits: &[Edit], most: u64) -> Result<Vec<PlaceUse>, EditsFault>
        requires { MayEditBy self.old edits.now }
        ensures ok { OnOk result (self.new ≡ edited_by self.old edits.now) }
        ensures err { OnErr result (self.new ≡ self.old) }
        ensures full { most < length (spelling (edited_by self.old edits.now)) → IsErr result }
        ensures cause { IfErr result
            (RefusesEdits (length (spelling (edited_by self.old edits.now))) most) }

        // What became of the places, where none was mapped twice, and the edits map none that is
        // mapped when their turn comes.
        ensures uses { IfOk result (λ uses. IsGood self.old → TakesFresh self.old edits.now
            → ChangesUse self.old self.new uses.items) }
        ensures places { IfOk result (λ uses.
            AllByRecursion (IsDataUse self.old.layout) uses.items) }
        ensures good { OnOk result (IsGood self.old → TakesFresh self.old edits.now
            → IsGood self.new) }
    {
        let mut uses = Vec::new(self.files.allocator());
        let draft = self.drafted(edits, &mut uses)?;
        let needed = draft.text_len;
        if needed > most {
            return Err(EditsFault::TooLong { needed });
        }
        self.publish(draft)?;
        Ok(uses)
    }

    // A draft of no changes.
    fn draft(&self) -> Draft
        ensures { Drafts self.now result self.now }
    {
        Draft::new(self.files.allocator(), self.next_id, self.text_len)
    }

    // A draft of these edits, and what they do to the places.
    fn drafted(&self, edits: &[Edit], uses: &mut Vec<PlaceUse>) -> Result<Draft, AllocError>
        requires may { MayEditBy self.now edits.now }
        requires none { uses.old.items ≡ [] }
        ensures drafts { IfOk result (λ draft. Drafts self.now draft (edited_by self.now edits.now)) }
        ensures len { IfOk result (λ draft.
            draft.text_len ≡ length (spelling (edited_by self.now edits.now))) }
        ensures told { OnOk result (Tells self.now edits.now uses.new.items) }
        ensures places { OnOk result
            (AllByRecursion (IsDataUse self.now.layout) uses.new.items) }
        ensures table { IsTable self.now }
    {
        let mut draft = self.draft();
        for edit in edits {
            // Before it is made: what it frees is known from the files as they are till then.
            note(&self.files, &draft, edit, uses)?;
            self.edit_in(&mut draft, edit)?;
        }
        Ok(draft)
    }

    // Makes an edit in a draft.
    fn edit_in(&self, draft: &mut Draft, edit: &Edit) -> Result<(), AllocError>
        requires { (now : VolumeTable) × Drafts self.now draft.old now × MayEdit now edit.now }
        ensures { OnOk result ((now : VolumeTable) → Drafts self.now draft.old now
            → MayEdit now edit.now → Drafts self.now draft.new (edited now edit.now)) }
    {
        match edit {
            Edit::Make { id, kind, name } => {
                self.make_in(draft, *id, *kind, name)?;
                Ok(())
            }
            Edit::Drop { id } => {
                draft.drop_file(&self.files, *id)?;
                Ok(())
            }
            Edit::Rename { id, name } => {
                draft.rename(&self.files, *id, name)?;
                Ok(())
            }
            Edit::Size { id, size } => {
                draft.resize(&self.files, *id, *size)?;
                Ok(())
            }
            Edit::Map {
                id,
                first,
                count,
                place,
            } => {
                let run = Run {
                    first: *first,
                    count: *count,
                    place: *place,
                };
                draft.map(&self.files, *id, run)?;
                Ok(())
            }
            Edit::Unmap { id, first, count } => {
                draft.unmap(&self.files, *id, *first, *count)?;
                Ok(())
            }
            Edit::Version { id, version } => {
                draft.set_version(&self.files, *id, *version)?;
                Ok(())
            }
        }
    }

    fn make_in(
        &self,
        draft: &mut Draft,
        id: u64,
        kind: NodeKind,
        name: &Name,
    ) -> Result<(), AllocError>
        requires { (now : VolumeTable) × Drafts self.now draft.old now
            × MayMake now id kind name.now }
        ensures { OnOk result ((now : VolumeTable) → Drafts self.now draft.old now
            → MayMake now id kind name.now
            → Drafts self.now draft.new (edited now (Edit.Make id kind name.now))) }
    {
        let alloc = self.files.allocator();
        let node = Node {
            id,
            name: name.copy(alloc)?,
            kind,
            size: 0,
            version: 1,
            map: Extents::new(alloc),
        };
        draft.make(&self.files, node)?;
        Ok(())
    }

    // Carries out a draft, or nothing where memory runs out.
    fn publish(&mut self, draft: Draft) -> Result<(), AllocError>
        requires { (now : VolumeTable) × Drafts self.old draft now }
        ensures ok { OnOk result ((now : VolumeTable) → Drafts self.old draft now
            → self.new ≡ now) }
        ensures err { OnErr result (self.new ≡ self.old) }
    {
        let Draft {
            next_id,
            text_len,
            nodes,
            names,
        } = draft;
        self.files.publish(nodes, names)?;
        self.next_id = next_id;
        self.text_len = text_len;
        Ok(())
    }

    /// Adds its spelling at the end. Takes no memory where there is room.
    #[tactic(auto, using(crate::proofs::Lengths::lengths))]
    pub fn encode(&self, out: &mut Vec<u8>) -> Result<(), AllocError>
        ensures ok { OnOk result (out.new.items ≡ out.old.items ++ spelling self.now) }
        ensures err { OnErr result (out.new.items ≡ out.old.items) }
        ensures capacity { vec_capacity out.old ≤ vec_capacity out.new }
        ensures room { length out.old.items + length (spelling self.now) ≤ vec_capacity out.old
            → IsOk result }
    {
        out.reserve(self.encoded_len() as usize)?;
        put_u64(out, self.next_id);
        put_u64(out, self.greatest);
        put_u32(out, self.files.len() as u32);
        put_nodes(out, &self.files);
        Ok(())
    }

    /// The length of its spelling in bytes.
    pub fn encoded_len(&self) -> u64
        ensures { result ≡ length (spelling self.now) }
    {
        self.text_len
    }

    /// Reads the table that the bytes spell, all of the bytes.
    #[tactic(auto, using(crate::proofs::FaultPlaces::read_within))]
    pub fn decode(alloc: Global, bytes: &[u8], layout: Layout) -> Result<Table, TableFault>
        requires { IsLayout layout }
        // The value, or the first fault from the left.
        ensures value { Gives named (λ table. table) result (table_at layout bytes.now) }
        // What is read is spelled so.
        ensures found { IfOk result (λ table. bytes.now ≡ spelling table) }
        // What is spelled so is read, unless memory runs out.
        ensures only { (v : VolumeTable) → IsTable v → v.layout ≡ layout
            → bytes.now ≡ spelling v → Gives named (λ table. table) result (Ok v) }
        ensures layout { IfOk result (λ table. table.layout ≡ layout) }
        // No fault is behind the bytes.
        ensures bound { IfErr result (IsWithin (length bytes.now)) }
    {
        let (next_id, greatest, files) = read_table(alloc, bytes, &layout)?;
        Ok(Table {
            layout,
            next_id,
            greatest,
            files,
            text_len: bytes.len() as u64,
        })
    }
}
