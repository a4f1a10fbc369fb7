//! Tables of a small image: bytes that spell one, and edits that make one.
ghost use Rattle.std.specs.Prelude.{◌≡◌, ◌∷◌, [], IfOk};

use anyhow::{Result, bail};
use sis_disk::Layout;
use sis_name::Name;
use sis_table::{Edit, EditsFault, GoodFault, Node, NodeKind, Table, TableFault};
use std::alloc::{AllocError, Global};
use std::fmt::Write;

/// Sixteen blocks, areas of two blocks, and the letter C.
pub const LAYOUT: Layout = Layout {
    total: 16,
    area: 2,
    log: 0,
    letter: b'C',
};

fn add_file(alloc: Global, out: &mut String, node: &Node) -> Result<()> {
    let name = node.name.to_text(alloc)?;
    let (size, version) = (node.size, node.version);
    write!(
        out,
        "file {} \"{name}\", size {size}, version {version}",
        node.id
    )?;
    for run in node.map.runs() {
        write!(out, "; blocks {} {} at {}", run.first, run.count, run.place)?;
    }
    out.push_str("\n")?;
    Ok(())
}

// Whether a copy of the table is spelled by these bytes.
fn add_spelling(alloc: Global, out: &mut String, table: &Table, bytes: &[u8]) -> Result<()> {
    let mut again = Vec::new(alloc);
    table.copy(alloc)?.encode(&mut again)?;
    if again.as_slice() == bytes {
        out.push_str("a copy is spelled by the bytes\n")?;
    } else {
        writeln!(out, "a copy is spelled {}", hex::encode(alloc, &again)?)?;
    }
    Ok(())
}

// The table's numbers, its files, whether they go together, and whether these bytes spell it.
fn add_table(alloc: Global, out: &mut String, table: &Table, bytes: &[u8]) -> Result<()> {
    let (next, greatest) = (table.next_id(), table.greatest());
    let (files, len) = (table.files(), table.encoded_len());
    writeln!(
        out,
        "next id {next}, greatest index {greatest}, files {files}, length {len}"
    )?;
    for node in table.nodes() {
        add_file(alloc, out, node)?;
    }
    match table.good(alloc) {
        Ok(()) => {}
        Err(GoodFault::Memory) => bail!("out of memory"),
        Err(fault) => writeln!(out, "{fault}")?,
    }
    add_spelling(alloc, out, table, bytes)
}

/// The table that the bytes spell, or their first fault.
pub fn shown(alloc: Global, bytes: &[u8]) -> Result<String> {
    let mut out = String::new(alloc);
    match Table::decode(alloc, bytes, LAYOUT) {
        Ok(table) => add_table(alloc, &mut out, &table, bytes)?,
        Err(TableFault::Memory) => bail!("out of memory"),
        Err(fault) => writeln!(out, "{fault}")?,
    }
    Ok(out)
}

// Makes a file `a`, gives it three bytes, and maps its block 0 to place 6.
fn edits(alloc: Global, name: Name) -> Result<Vec<Edit>, AllocError>
    requires { name ≡ 97 ∷ [] }
    ensures { IfOk result (λ edits. edits.items ≡ Edit.Make 1 NodeKind.Plain (97 ∷ [])
        ∷ Edit.Size 1 3 ∷ Edit.Map 1 0 1 6 ∷ []) }
{
    let mut edits = Vec::with_capacity(alloc, 3)?;
    edits.push(Edit::Make {
        id: 1,
        kind: NodeKind::Plain,
        name,
    })?;
    edits.push(Edit::Size { id: 1, size: 3 })?;
    edits.push(Edit::Map {
        id: 1,
        first: 0,
        count: 1,
        place: 6,
    })?;
    Ok(edits)
}

/// The table that these edits make of the empty one, where it may have so many bytes.
pub fn edited(alloc: Global, most: u64, bytes: &[u8]) -> Result<String> {
    let edits = edits(alloc, Name::from_units(alloc, &[0x61])?)?;
    let mut table = Table::empty(alloc, LAYOUT);
    let mut out = String::new(alloc);
    match table.apply_all(&edits, most) {
        Ok(_) => {}
        Err(EditsFault::Memory) => bail!("out of memory"),
        Err(fault) => writeln!(out, "{fault}")?,
    }
    add_table(alloc, &mut out, &table, bytes)?;
    Ok(out)
}
