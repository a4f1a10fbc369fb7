//! Reads a table from left to right.
ghost use Rattle.std.specs.Prelude.{◌≡◌, ◌+◌, ◌*◌, ◌<◌, ◌≤◌, ◌^◌, ◌-◌, ◌||◌, not, nat_lt, false, [], length, IfOk, Ok, None};
ghost use Rattle.std.specs.List.{list_any};
ghost use Rattle.std.specs.Option.{ForSome};
ghost use Rattle.sis_disk.specs.Layout.{IsLayout, first_place};
ghost use Rattle.sis_table.specs.Volume.{VolumeTable, IsTable, has_name, last_id, blocks_of, greatest_size};
ghost use Rattle.sis_table.specs.Spelling.{spelling};
ghost use Rattle.sis_table.specs.Reading.{number_at, units_of, units_at, is_bad_name, named_at, named, here};
ghost use Rattle.sis_reading.specs.Steps.{Gives, guard};
ghost use Rattle.sis_table.specs.Reading.{joins, end_before, kind_at, map_at, run_at, runs_at, node_at, nodes_at, head_at, table_at};

use crate::files::Files;
use crate::{
    GREATEST_NUMBER, GREATEST_SIZE, Layout, MOST_FILES, Node, NodeKind, TableFault, TableKind,
};
use byteorder::{ByteOrder, LittleEndian};
use sis_disk::BLOCK_LEN;
use sis_name::{Name, NameFault};
use sis_ranges::{Extents, Run};
use std::alloc::Global;

/// The fault of the field that begins where these bytes do, the last ones of so many.
fn fault(total: usize, bytes: &[u8], kind: TableKind) -> TableFault
    requires { length bytes.now ≤ total }
    ensures { result ≡ TableFault.At (total - length bytes.now) kind }
{
    TableFault::At {
        at: (total - bytes.len()) as u64,
        kind,
    }
}

/// A number of one byte, and the bytes behind it.
#[tactic(auto, unfolding(crate::specs::Reading::number_at))]
fn u8_at(total: usize, bytes: &[u8]) -> Result<(u8, &[u8]), TableFault>
    requires { length bytes.now ≤ total }
    ensures value { Gives named (λ x. (x.0, x.1.now)) result (number_at 1 total bytes.now) }
    ensures shorter { IfOk result (λ x. length x.1.now ≤ total) }
{
    if bytes.is_empty() {
        return Err(fault(total, bytes, TableKind::Short));
    }
    Ok((bytes[0], &bytes[1..]))
}

/// A number of two bytes, and the bytes behind it.
#[tactic(auto, unfolding(crate::specs::Reading::number_at))]
fn u16_at(total: usize, bytes: &[u8]) -> Result<(u16, &[u8]), TableFault>
    requires { length bytes.now ≤ total }
    ensures value { Gives named (λ x. (x.0, x.1.now)) result (number_at 2 total bytes.now) }
    ensures shorter { IfOk result (λ x. length x.1.now ≤ total) }
{
    if bytes.len() < 2 {
        return Err(fault(total, bytes, TableKind::Short));
    }
    Ok((LittleEndian::read_u16(bytes), &bytes[2..]))
}

/// A number of four bytes, and the bytes behind it.
#[tactic(auto, unfolding(crate::specs::Reading::number_at))]
fn u32_at(total: usize, bytes: &[u8]) -> Result<(u32, &[u8]), TableFault>
    requires { length bytes.now ≤ total }
    ensures value { Gives named (λ x. (x.0, x.1.now)) result (number_at 4 total bytes.now) }
    ensures shorter { IfOk result (λ x. length x.1.now ≤ total) }
{
    if bytes.len() < 4 {
        return Err(fault(total, bytes, TableKind::Short));
    }
    Ok((LittleEndian::read_u32(bytes), &bytes[4..]))
}

/// A number of eight bytes, and the bytes behind it.
#[tactic(auto, unfolding(crate::specs::Reading::number_at))]
fn u64_at(total: usize, bytes: &[u8]) -> Result<(u64, &[u8]), TableFault>
    requires { length bytes.now ≤ total }
    ensures value { Gives named (λ x. (x.0, x.1.now)) result (number_at 8 total bytes.now) }
    ensures shorter { IfOk result (λ x. length x.1.now ≤ total) }
{
    if bytes.len() < 8 {
        return Err(fault(total, bytes, TableKind::Short));
    }
    Ok((LittleEndian::read_u64(bytes), &bytes[8..]))
}

/// The first units of these bytes.
#[tactic(auto, using(crate::proofs::ReadingLoops::units_read))]
fn units_in(alloc: Global, count: usize, bytes: &[u8]) -> Result<Vec<u16>, TableFault>
    requires { 2 * count ≤ length bytes.now }
    ensures { Gives named (λ units. units.items) result (Ok (units_of count bytes.now)) }
{
    let mut units = Vec::new(alloc);
    let mut rest = bytes;
    for _ in 0..count {
        units.push(LittleEndian::read_u16(rest))?;
        let (_, after) = rest.split_at(2);
        rest = after;
    }
    Ok(units)
}

/// The units of a name, which isn't judged yet.
#[tactic(auto, unfolding(crate::specs::Reading::units_at))]
fn name_units_at(alloc: Global, total: usize, bytes: &[u8]) -> Result<(Vec<u16>, &[u8]), TableFault>
    requires { length bytes.now ≤ total }
    ensures value { Gives named (λ x. (x.0.items, x.1.now)) result (units_at total bytes.now) }
    ensures shorter { IfOk result (λ x. length x.1.now ≤ total) }
{
    let (count, rest) = u16_at(total, bytes)?;
    let len = 2 * count as usize;
    if rest.len() < len {
        // A name is one field: the fault stands at its first byte.
        return Err(fault(total, bytes, TableKind::Short));
    }
    let units = units_in(alloc, count as usize, rest)?;
    Ok((units, &rest[len..]))
}

/// The name of these units, where a file may have it. Its field begins where these bytes do.
fn judged_name(
    alloc: Global,
    total: usize,
    front: &Files,
    bytes: &[u8],
    kind: NodeKind,
    units: &[u16],
) -> Result<Name, TableFault>
    requires { length bytes.now ≤ total }
    ensures value { Gives named (λ name. name) result
        (guard (here total bytes.now TableKind.Name) (is_bad_name front.now kind units.now)
        units.now) }
    ensures free { IfOk result (λ name. list_any (has_name name) front.now ≡ false) }
{
    match Name::from_units(alloc, units) {
        Ok(name) => {
            if !kind.fits(&name) || front.has_name(&name) {
                return Err(fault(total, bytes, TableKind::Name));
            }
            Ok(name)
        }
        Err(NameFault::Memory) => Err(TableFault::Memory),
        Err(_) => Err(fault(total, bytes, TableKind::Name)),
    }
}

/// A kind.
#[tactic(auto, unfolding(crate::specs::Reading::kind_at))]
fn kind_of_file(total: usize, bytes: &[u8]) -> Result<(NodeKind, &[u8]), TableFault>
    requires { length bytes.now ≤ total }
    ensures value { Gives named (λ x. (x.0, x.1.now)) result (kind_at total bytes.now) }
    ensures shorter { IfOk result (λ x. length x.1.now ≤ total) }
{
    let (byte, rest) = u8_at(total, bytes)?;
    match NodeKind::from_byte(byte) {
        Some(kind) => Ok((kind, rest)),
        None => Err(fault(total, bytes, TableKind::Kind)),
    }
}

/// A name and a kind. The name is judged once the kind is read.
#[tactic(auto, unfolding(crate::specs::Reading::named_at))]
fn named_of<'a>(
    alloc: Global,
    total: usize,
    front: &Files,
    bytes: &'a [u8],
) -> Result<(Name, NodeKind, &'a [u8]), TableFault>
    requires { length bytes.now ≤ total }
    ensures value { Gives named (λ x. (x.0, x.1, x.2.now)) result
        (named_at total front.now bytes.now) }
    ensures shorter { IfOk result (λ x. length x.2.now ≤ total) }
    ensures free { IfOk result (λ x. list_any (has_name x.0) front.now ≡ false) }
{
    let (units, rest) = name_units_at(alloc, total, bytes)?;
    let (kind, after) = kind_of_file(total, rest)?;
    let name = judged_name(alloc, total, front, bytes, kind, &units)?;
    Ok((name, kind, after))
}

/// The block behind the run before.
fn end_of(before: Option<Run>) -> u64
    requires { ForSome before (λ r. r.first + r.count < 2 ^ 32) }
    ensures { result ≡ end_before before }
{
    match before {
        None => 0,
        Some(run) => run.first + run.count,
    }
}

/// The run could be joined with the one before.
fn goes_on(before: Option<Run>, run: Run) -> bool
    requires first { ForSome before (λ r. r.first + r.count < 2 ^ 32) }
    requires place { ForSome before (λ r. r.place + r.count < 2 ^ 32) }
    ensures { result ≡ joins before run }
{
    match before {
        None => false,
        Some(before) => {
            before.first + before.count == run.first && before.place + before.count == run.place
        }
    }
}

/// The run's places are those of data blocks.
fn is_in_data(layout: &Layout, run: Run) -> bool
    requires layout { IsLayout layout.now }
    requires count { run.count < 2 ^ 32 }
    ensures { result ≡ not (nat_lt run.place (first_place layout.now)
        || nat_lt layout.now.total (run.place + run.count)) }
{
    layout.first_place() <= run.place
        && run.place <= layout.total
        && run.count <= layout.total - run.place
}

/// A run of a file of so many blocks, behind another run.
#[tactic(auto, unfolding(crate::specs::Reading::run_at))]
fn run_of<'a>(
    total: usize,
    layout: &Layout,
    blocks: u64,
    before: Option<Run>,
    bytes: &'a [u8],
) -> Result<(Run, &'a [u8]), TableFault>
    requires whole { length bytes.now ≤ total }
    requires layout { IsLayout layout.now }
    requires blocks { blocks < 2 ^ 32 }
    requires first { ForSome before (λ r. r.first + r.count < 2 ^ 32) }
    requires place { ForSome before (λ r. r.place + r.count < 2 ^ 32) }
    ensures value { Gives named (λ x. (x.0, x.1.now)) result
        (run_at total layout.now blocks before bytes.now) }
    ensures shorter { IfOk result (λ x. length x.1.now ≤ total) }
    ensures first { IfOk result (λ x. x.0.first + x.0.count ≤ blocks) }
    ensures place { IfOk result (λ x. x.0.place + x.0.count ≤ layout.now.total) }
{
    let (first, rest) = u64_at(total, bytes)?;
    if first < end_of(before) || blocks <= first {
        return Err(fault(total, bytes, TableKind::Run));
    }
    let (count, more) = u64_at(total, rest)?;
    if count == 0 || blocks - first < count {
        return Err(fault(total, rest, TableKind::Run));
    }
    let (place, after) = u64_at(total, more)?;
    let run = Run {
        first,
        count,
        place,
    };
    if goes_on(before, run) || !is_in_data(layout, run) {
        return Err(fault(total, more, TableKind::Run));
    }
    Ok((run, after))
}

/// Runs one behind the other, of a file of so many blocks.
fn run_list<'a>(
    alloc: Global,
    total: usize,
    layout: &Layout,
    blocks: u64,
    count: u32,
    bytes: &'a [u8],
) -> Result<(Vec<Run>, &'a [u8]), TableFault>
    requires whole { length bytes.now ≤ total }
    requires layout { IsLayout layout.now }
    requires blocks { blocks < 2 ^ 32 }
    ensures value { Gives named (λ x. (x.0.items, x.1.now)) result
        (runs_at total layout.now blocks None count bytes.now) }
    ensures shorter { IfOk result (λ x. length x.1.now ≤ total) }
{
    let mut runs = Vec::new(alloc);
    let mut rest = bytes;
    let mut before = None;
    for _ in 0..count {
        let (run, after) = run_of(total, layout, blocks, before, rest)?;
        runs.push(run)?;
        before = Some(run);
        rest = after;
    }
    Ok((runs, rest))
}

/// The map of a file of so many blocks.
#[tactic(auto, unfolding(crate::specs::Reading::map_at), using(crate::proofs::ReadingRuns::runs_at_are, crate::proofs::ReadingRuns::runs_at_within))]
fn map_of_runs<'a>(
    alloc: Global,
    total: usize,
    layout: &Layout,
    blocks: u64,
    count: u32,
    bytes: &'a [u8],
) -> Result<(Extents, &'a [u8]), TableFault>
    requires whole { length bytes.now ≤ total }
    requires layout { IsLayout layout.now }
    requires blocks { blocks ≤ 2 ^ 24 }
    ensures value { Gives named (λ x. (x.0, x.1.now)) result
        (map_at total layout.now blocks count bytes.now) }
    ensures shorter { IfOk result (λ x. length x.1.now ≤ total) }
{
    let (runs, rest) = run_list(alloc, total, layout, blocks, count, bytes)?;
    Ok((Extents::from_runs(runs), rest))
}

/// How many blocks so many bytes take.
fn blocks_for(size: u64) -> u64
    requires { size ≤ greatest_size }
    ensures value { result ≡ blocks_of size }
    ensures limit { result ≤ 2 ^ 24 }
{
    (size + (BLOCK_LEN - 1)) / BLOCK_LEN
}

/// A file behind those of `front`.
#[tactic(auto, unfolding(crate::specs::Reading::node_at))]
fn node_of<'a>(
    alloc: Global,
    total: usize,
    layout: &Layout,
    next_id: u64,
    front: &Files,
    bytes: &'a [u8],
) -> Result<(Node, &'a [u8]), TableFault>
    requires whole { length bytes.now ≤ total }
    requires layout { IsLayout layout.now }
    ensures value { Gives named (λ x. (x.0, x.1.now)) result
        (node_at total layout.now next_id front.now bytes.now) }
    ensures shorter { IfOk result (λ x. length x.1.now ≤ total) }
    ensures rises { IfOk result (λ x. last_id front.now < x.0.id) }
    ensures free { IfOk result (λ x. list_any (has_name x.0.name) front.now ≡ false) }
{
    let (id, after_id) = u64_at(total, bytes)?;
    if id <= front.last_id() || next_id <= id {
        return Err(fault(total, bytes, TableKind::Id));
    }
    let (name, kind, after_name) = named_of(alloc, total, front, after_id)?;
    let (size, after_size) = u64_at(total, after_name)?;
    if size > GREATEST_SIZE {
        return Err(fault(total, after_name, TableKind::Size));
    }
    let (version, after_version) = u64_at(total, after_size)?;
    if version == 0 || version > GREATEST_NUMBER {
        return Err(fault(total, after_size, TableKind::NodeVersion));
    }
    let (count, after_count) = u32_at(total, after_version)?;
    let (map, rest) = map_of_runs(alloc, total, layout, blocks_for(size), count, after_count)?;
    let node = Node {
        id,
        name,
        kind,
        size,
        version,
        map,
    };
    Ok((node, rest))
}

/// So many files by rising id.
fn nodes_of<'a>(
    alloc: Global,
    total: usize,
    layout: &Layout,
    next_id: u64,
    count: u32,
    bytes: &'a [u8],
) -> Result<(Files, &'a [u8]), TableFault>
    requires whole { length bytes.now ≤ total }
    requires layout { IsLayout layout.now }
    ensures value { Gives named (λ x. (x.0, x.1.now)) result
        (nodes_at total layout.now next_id [] count bytes.now) }
    ensures shorter { IfOk result (λ x. length x.1.now ≤ total) }
{
    let mut front = Files::new(alloc);
    let mut rest = bytes;
    for _ in 0..count {
        let (node, after) = node_of(alloc, total, layout, next_id, &front, rest)?;
        front.push(node)?;
        rest = after;
    }
    Ok((front, rest))
}

/// Next id, greatest index and number of files.
#[tactic(auto, unfolding(crate::specs::Reading::head_at))]
fn head_of(total: usize, bytes: &[u8]) -> Result<(u64, u64, u32, &[u8]), TableFault>
    requires { length bytes.now ≤ total }
    ensures value { Gives named (λ x. (x.0, x.1, x.2, x.3.now)) result (head_at total bytes.now) }
    ensures shorter { IfOk result (λ x. length x.3.now ≤ total) }
{
    let (next_id, after_next) = u64_at(total, bytes)?;
    if next_id == 0 || next_id > GREATEST_NUMBER {
        return Err(fault(total, bytes, TableKind::Next));
    }
    let (greatest, after_greatest) = u64_at(total, after_next)?;
    if greatest > GREATEST_NUMBER {
        return Err(fault(total, after_next, TableKind::Greatest));
    }
    let (count, rest) = u32_at(total, after_greatest)?;
    if u64::from(count) > MOST_FILES {
        return Err(fault(total, after_greatest, TableKind::Count));
    }
    Ok((next_id, greatest, count, rest))
}

/// Next id, greatest index and files of a table that all of the bytes spell.
#[tactic(auto, unfolding(crate::specs::Reading::table_at))]
pub fn read_table(
    alloc: Global,
    bytes: &[u8],
    layout: &Layout,
) -> Result<(u64, u64, Files), TableFault>
    requires { IsLayout layout.now }
    ensures { Gives named (λ x. record {
      layout = layout.now;
      next_id = x.0;
      greatest = x.1;
      nodes = x.2;
    }) result (table_at layout.now bytes.now) }
{
    let total = bytes.len();
    let (next_id, greatest, count, rest) = head_of(total, bytes)?;
    let (nodes, rest) = nodes_of(alloc, total, layout, next_id, count, rest)?;
    if !rest.is_empty() {
        return Err(fault(total, rest, TableKind::Trailing));
    }
    Ok((next_id, greatest, nodes))
}

/// A list of bytes spells at most one table of a layout.
pub fn one_spelling()
    ensures { (a b : VolumeTable) → IsTable a → IsTable b
        → a.layout ≡ b.layout → spelling a ≡ spelling b → a ≡ b }
{}
