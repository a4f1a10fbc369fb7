//! What follows for every table and every image. These functions do nothing: their clauses are what
//! they are for.
ghost use Rattle.std.specs.Prelude.{◌≡◌, ℕ, ◌+◌, ◌*◌, ◌/◌, ◌%◌, ◌<◌, ◌≤◌, List, length, replicate, slice_range, Some, None};
ghost use Rattle.std.specs.FinMap.{get, insert, len, remove};
ghost use Rattle.std.specs.List.{count_by, range_with_len};
ghost use Rattle.sis_disk.specs.Layout.{data_blocks};
ghost use Rattle.sis_model.specs.World.{overwritten, resized};
ghost use Rattle.sis_ranges.specs.Extents.{is_gap};
ghost use Rattle.sis_ranges.specs.declared.run.Run.{Run};
ghost use Rattle.sis_table.specs.Changes.{AreFreePlaces, AreFreeRuns, KeepsUsed, MayResize, Resize, WritesBlocks, made_file, make_edits, places_by, renamed, resize_edits, resized_node, size_of, with_file, with_resize, without_file, write_of};
ghost use Rattle.sis_table.specs.Content.{block_at, content_of, files_of};
ghost use Rattle.sis_table.specs.Edits.{MayEditBy, MayMake, MayRename, edited_by, with_name};
ghost use Rattle.sis_table.specs.Good.{IsGood};
ghost use Rattle.sis_table.specs.Uses.{TakesFresh};
ghost use Rattle.sis_table.specs.Volume.{VolumeTable, IsNode, IsTable, blocks_of, greatest_size, node_with, used};
ghost use Rattle.sis_table.specs.declared.kind.NodeKind.TheVariants.{Plain};
ghost use Rattle.sis_table.specs.declared.node.Node.{Node};

/// The edits of a write, or of a new size, make just that change of the table.
pub fn resize_by_edits()
    ensures made { (v : VolumeTable) (n : Node) (r : Resize) (runs : List Run)
        → IsTable v → MayResize v n r → AreFreeRuns v r.blocks runs
        → edited_by v (resize_edits n (Some r) runs) ≡ with_resize n (Some r) (places_by runs) v }
    ensures may { (v : VolumeTable) (n : Node) (r : Resize) (runs : List Run)
        → IsTable v → MayResize v n r → AreFreeRuns v r.blocks runs
        → MayEditBy v (resize_edits n (Some r) runs) }
    ensures fresh { (v : VolumeTable) (n : Node) (r : Resize) (runs : List Run)
        → IsTable v → MayResize v n r → AreFreeRuns v r.blocks runs
        → TakesFresh v (resize_edits n (Some r) runs) }
{}

/// The edits of a new file make it.
pub fn make_by_edits()
    ensures made { (v : VolumeTable) (name : List ℕ) (size : ℕ) (runs : List Run)
        → IsTable v → AreFreeRuns v (range_with_len 0 (blocks_of size)) runs
        → edited_by v (make_edits v.next_id name size runs)
        ≡ with_file name size (places_by runs) v }
    ensures may { (v : VolumeTable) (name : List ℕ) (size : ℕ) (runs : List Run)
        → IsTable v → MayMake v v.next_id Plain name → size ≤ greatest_size
        → AreFreeRuns v (range_with_len 0 (blocks_of size)) runs
        → MayEditBy v (make_edits v.next_id name size runs) }
    ensures fresh { (v : VolumeTable) (name : List ℕ) (size : ℕ) (runs : List Run)
        → IsTable v → AreFreeRuns v (range_with_len 0 (blocks_of size)) runs
        → TakesFresh v (make_edits v.next_id name size runs) }
{}

/// A write, or a new size, leaves a table whose files go together, and the other files as they are.
pub fn resize_keeps_table()
    ensures table { (v : VolumeTable) (n : Node) (r : Resize) → IsTable v → MayResize v n r
        → (places : List ℕ) → AreFreePlaces v (length r.blocks) places
        → IsTable (with_resize n (Some r) places v) }
    ensures good { (v : VolumeTable) (n : Node) (r : Resize) → IsTable v → MayResize v n r
        → (places : List ℕ) → AreFreePlaces v (length r.blocks) places
        → IsGood v → IsGood (with_resize n (Some r) places v) }
    ensures there { (v : VolumeTable) (n : Node) (r : Resize) → IsTable v → MayResize v n r
        → (places : List ℕ) → node_with (with_resize n (Some r) places v) n.id
        ≡ Some (resized_node r.size r.blocks places n) }
    ensures others { (v : VolumeTable) (n : Node) (r : Resize) → IsTable v → MayResize v n r
        → (places : List ℕ) (id : ℕ) → (id ≡ n.id → ⊥)
        → node_with (with_resize n (Some r) places v) id ≡ node_with v id }

    // How many places it uses: a growth as many more as blocks are mapped that weren't.
    ensures used { (v : VolumeTable) (n : Node) (r : Resize) → IsTable v → MayResize v n r
        → (places : List ℕ) → AreFreePlaces v (length r.blocks) places → IsGood v
        → used (with_resize n (Some r) places v) + len n.map
        ≡ used v + len (resized_node r.size r.blocks places n).map }
    ensures grown { (v : VolumeTable) (n : Node) (r : Resize) → IsTable v → MayResize v n r
        → (places : List ℕ) → AreFreePlaces v (length r.blocks) places → IsGood v
        → n.size ≤ r.size → used (with_resize n (Some r) places v)
        ≡ used v + count_by (is_gap n.map) r.blocks }
{}

/// So does a new file.
pub fn make_keeps_table()
    ensures table { (v : VolumeTable) (name : List ℕ) (size : ℕ) (places : List ℕ)
        → IsTable v → MayMake v v.next_id Plain name → size ≤ greatest_size
        → AreFreePlaces v (blocks_of size) places → IsTable (with_file name size places v) }
    ensures good { (v : VolumeTable) (name : List ℕ) (size : ℕ) (places : List ℕ)
        → IsTable v → MayMake v v.next_id Plain name → size ≤ greatest_size
        → AreFreePlaces v (blocks_of size) places
        → IsGood v → IsGood (with_file name size places v) }
    ensures used { (v : VolumeTable) (name : List ℕ) (size : ℕ) (places : List ℕ)
        → IsTable v → IsGood v → MayMake v v.next_id Plain name → size ≤ greatest_size
        → AreFreePlaces v (blocks_of size) places
        → used (with_file name size places v) ≡ used v + blocks_of size }
    ensures there { (v : VolumeTable) (name : List ℕ) (size : ℕ) (places : List ℕ) → IsTable v
        → node_with (with_file name size places v) v.next_id
        ≡ Some (made_file v.next_id name size places) }
    ensures others { (v : VolumeTable) (name : List ℕ) (size : ℕ) (places : List ℕ) (id : ℕ)
        → (id ≡ v.next_id → ⊥) → node_with (with_file name size places v) id ≡ node_with v id }
{}

/// So does a removal.
pub fn remove_keeps_table()
    ensures table { (v : VolumeTable) (id : ℕ) (n : Node) → IsTable v → node_with v id ≡ Some n
        → IsTable (without_file id v) }
    ensures good { (v : VolumeTable) (id : ℕ) (n : Node) → IsTable v → node_with v id ≡ Some n
        → IsGood v → IsGood (without_file id v) }
    ensures used { (v : VolumeTable) (id : ℕ) (n : Node) → IsTable v → IsGood v
        → node_with v id ≡ Some n → used (without_file id v) + len n.map ≡ used v }
    ensures there { (v : VolumeTable) (id : ℕ) → IsTable v
        → node_with (without_file id v) id ≡ None }
    ensures others { (v : VolumeTable) (id other : ℕ) → IsTable v → (other ≡ id → ⊥)
        → node_with (without_file id v) other ≡ node_with v other }
{}

/// So does another name.
pub fn rename_keeps_table()
    ensures table { (v : VolumeTable) (id : ℕ) (n : Node) → IsTable v → node_with v id ≡ Some n
        → (name : List ℕ) → MayRename v n name → IsTable (renamed id name v) }
    ensures good { (v : VolumeTable) (id : ℕ) (n : Node) → IsTable v → node_with v id ≡ Some n
        → (name : List ℕ) → MayRename v n name → IsGood v → IsGood (renamed id name v) }
    ensures used { (v : VolumeTable) (id : ℕ) (name : List ℕ) (n : Node) → IsTable v → IsGood v
        → node_with v id ≡ Some n → MayRename v n name → used (renamed id name v) ≡ used v }
    ensures there { (v : VolumeTable) (id : ℕ) (name : List ℕ) (n : Node)
        → node_with v id ≡ Some n → node_with (renamed id name v) id ≡ Some (with_name name n) }
    ensures others { (v : VolumeTable) (id : ℕ) (name : List ℕ) (other : ℕ)
        → (other ≡ id → ⊥) → node_with (renamed id name v) other ≡ node_with v other }
{}

/// No more places are used than there are data blocks.
#[tactic(auto, using(crate::proofs::ChangesUsed::used_bounded))]
pub fn used_is_bounded()
    ensures { (v : VolumeTable) → used v ≤ data_blocks v.layout }
{}

/// After a write a file has the written bytes where they were written and else its old ones, with
/// zeros in a gap, and no other file has changed.
pub fn write_changes_bytes()
    ensures bytes { (v : VolumeTable) (n : Node) (r : Resize) (places old new : List ℕ)
        → IsTable v → MayResize v n r → AreFreePlaces v (length r.blocks) places
        → (at : ℕ) (more : List ℕ) → write_of n at (length more) ≡ Some r
        → WritesBlocks v r.blocks places old new (overwritten at more (content_of v old n))
        → content_of (with_resize n (Some r) places v) new
        (resized_node r.size r.blocks places n) ≡ overwritten at more (content_of v old n) }
    ensures files { (v : VolumeTable) (n : Node) (r : Resize) (places old new : List ℕ)
        → IsTable v → MayResize v n r → AreFreePlaces v (length r.blocks) places
        → (at : ℕ) (more : List ℕ) → write_of n at (length more) ≡ Some r
        → WritesBlocks v r.blocks places old new (overwritten at more (content_of v old n))
        → files_of (with_resize n (Some r) places v) new
        ≡ insert (files_of v old) n.name (overwritten at more (content_of v old n)) }
{}

/// After a new size a file is cut, or has zeros behind its old end, and no other file has changed.
pub fn size_changes_bytes()
    ensures bytes { (v : VolumeTable) (n : Node) (r : Resize) (places old new : List ℕ)
        → IsTable v → MayResize v n r → AreFreePlaces v (length r.blocks) places
        → (size : ℕ) → size_of n size ≡ Some r
        → WritesBlocks v r.blocks places old new (resized size (content_of v old n))
        → content_of (with_resize n (Some r) places v) new
        (resized_node r.size r.blocks places n) ≡ resized size (content_of v old n) }
    ensures files { (v : VolumeTable) (n : Node) (r : Resize) (places old new : List ℕ)
        → IsTable v → MayResize v n r → AreFreePlaces v (length r.blocks) places
        → (size : ℕ) → size_of n size ≡ Some r
        → WritesBlocks v r.blocks places old new (resized size (content_of v old n))
        → files_of (with_resize n (Some r) places v) new
        ≡ insert (files_of v old) n.name (resized size (content_of v old n)) }
{}

/// A new file has the bytes that were written for it, and no other file has changed.
pub fn make_adds_bytes()
    ensures { (v : VolumeTable) (name places old new bytes : List ℕ)
        → IsTable v → MayMake v v.next_id Plain name → length bytes ≤ greatest_size
        → AreFreePlaces v (blocks_of (length bytes)) places
        → WritesBlocks v (range_with_len 0 (blocks_of (length bytes))) places old new bytes
        → files_of (with_file name (length bytes) places v) new
        ≡ insert (files_of v old) name bytes }
{}

/// A removed file isn't there, and no other file has changed.
pub fn remove_takes_bytes()
    ensures { (v : VolumeTable) (old new : List ℕ) → KeepsUsed v old new
        → (id : ℕ) (n : Node) → IsTable v → node_with v id ≡ Some n
        → files_of (without_file id v) new ≡ remove (files_of v old) n.name }
{}

/// A renamed file has its bytes under the new name, and no other file has changed.
pub fn rename_moves_bytes()
    ensures { (v : VolumeTable) (old new : List ℕ) → KeepsUsed v old new
        → (id : ℕ) (name : List ℕ) (n : Node) → IsTable v → node_with v id ≡ Some n
        → MayRename v n name
        → files_of (renamed id name v) new
        ≡ insert (remove (files_of v old) n.name) name (content_of v old n) }
{}

/// A file of a table has the same bytes in each image that has the same ones at the places that the
/// table maps.
pub fn kept_places_keep_bytes()
    ensures { (v w : VolumeTable) (old new : List ℕ) (id : ℕ) (n : Node)
        → node_with v id ≡ Some n → KeepsUsed v old new
        → content_of w new n ≡ content_of v old n }
{}

/// A file whose id and version stay through a write or a new size has the same bytes.
pub fn version_tells_change()
    ensures { (v : VolumeTable) (n : Node) (r : Resize) → IsTable v → MayResize v n r
        → (places old new : List ℕ) → KeepsUsed v old new
        → (id : ℕ) (m k : Node) → node_with v id ≡ Some m
        → node_with (with_resize n (Some r) places v) id ≡ Some k → k.version ≡ m.version
        → content_of (with_resize n (Some r) places v) new k ≡ content_of v old m }
{}

/// Bytes of a file that lie in one block are those of the block at its place, and zeros where their
/// blocks lie nowhere.
pub fn piece_has_bytes()
    ensures mapped { (v : VolumeTable) (n : Node) (live : List ℕ) (at len : ℕ)
        → IsNode v.layout n → length live ≡ 4096 * v.layout.total → at + len ≤ n.size
        → (place : ℕ) → get n.map (at / 4096) ≡ Some place → at % 4096 + len ≤ 4096
        → slice_range (content_of v live n) at (at + len)
        ≡ slice_range (block_at live place) (at % 4096) (at % 4096 + len) }
    ensures unmapped { (v : VolumeTable) (n : Node) (live : List ℕ) (at len : ℕ)
        → IsNode v.layout n → length live ≡ 4096 * v.layout.total → at + len ≤ n.size
        → ((block : ℕ) → at / 4096 ≤ block → 4096 * block < at + len
        → get n.map block ≡ None)
        → slice_range (content_of v live n) at (at + len) ≡ replicate len 0 }
{}
