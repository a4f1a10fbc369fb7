//! The spelling of a table: its bytes at the end of a vector that has room for them, so that
//! nothing fails half-way.
ghost use Rattle.std.specs.Prelude.{◌≡◌, ◌+◌, ◌*◌, ◌≤◌, ◌∷◌, [], ◌++◌, length, vec_capacity, flat_map, sum_by};
ghost use Rattle.std.specs.List.{AllByRecursion};
ghost use Rattle.sis_table.specs.Spelling.{le2, le4, le8, name_text, run_text, runs_text, node_text, node_len, IsShort};

use crate::Node;
use crate::files::Files;
use byteorder::{ByteOrder, LittleEndian};
use sis_ranges::Run;

/// The most units of a name.
const MOST_UNITS: usize = 255;

pub fn put(out: &mut Vec<u8>, bytes: &[u8])
    requires { length out.old.items + length bytes.now ≤ vec_capacity out.old }
    ensures items { out.new.items ≡ out.old.items ++ bytes.now }
    ensures size { length out.new.items ≡ length out.old.items + length bytes.now }
    ensures room { vec_capacity out.old ≤ vec_capacity out.new }
{
    let _ = out.extend_from_slice(bytes);
}

#[tactic(auto, unfolding(crate::specs::Spelling::le8))]
pub fn put_u64(out: &mut Vec<u8>, number: u64)
    requires { length out.old.items + 8 ≤ vec_capacity out.old }
    ensures items { out.new.items ≡ out.old.items ++ le8 number }
    ensures size { length out.new.items ≡ length out.old.items + 8 }
    ensures room { vec_capacity out.old ≤ vec_capacity out.new }
{
    let mut bytes = [0; 8];
    LittleEndian::write_u64(&mut bytes, number);
    put(out, &bytes);
}

#[tactic(auto, unfolding(crate::specs::Spelling::le4))]
pub fn put_u32(out: &mut Vec<u8>, number: u32)
    requires { length out.old.items + 4 ≤ vec_capacity out.old }
    ensures items { out.new.items ≡ out.old.items ++ le4 number }
    ensures size { length out.new.items ≡ length out.old.items + 4 }
    ensures room { vec_capacity out.old ≤ vec_capacity out.new }
{
    let mut bytes = [0; 4];
    LittleEndian::write_u32(&mut bytes, number);
    put(out, &bytes);
}

#[tactic(auto, unfolding(crate::specs::Spelling::le2))]
pub fn put_u16(out: &mut Vec<u8>, number: u16)
    requires { length out.old.items + 2 ≤ vec_capacity out.old }
    ensures items { out.new.items ≡ out.old.items ++ le2 number }
    ensures size { length out.new.items ≡ length out.old.items + 2 }
    ensures room { vec_capacity out.old ≤ vec_capacity out.new }
{
    let mut bytes = [0; 2];
    LittleEndian::write_u16(&mut bytes, number);
    put(out, &bytes);
}

#[tactic(auto, unfolding(crate::specs::Spelling::run_text))]
pub fn put_run(out: &mut Vec<u8>, run: &Run)
    requires { length out.old.items + 24 ≤ vec_capacity out.old }
    ensures items { out.new.items ≡ out.old.items ++ run_text run.now }
    ensures size { length out.new.items ≡ length out.old.items + 24 }
    ensures room { vec_capacity out.old ≤ vec_capacity out.new }
{
    put_u64(out, run.first);
    put_u64(out, run.count);
    put_u64(out, run.place);
}

pub fn put_runs(out: &mut Vec<u8>, runs: &[Run])
    requires size { length runs.now ≤ 16777216 }
    requires room { length out.old.items + (4 + 24 * length runs.now) ≤ vec_capacity out.old }
    ensures items { out.new.items ≡ out.old.items ++ runs_text runs.now }
    ensures size { length out.new.items ≡ length out.old.items + (4 + 24 * length runs.now) }
    ensures room { vec_capacity out.old ≤ vec_capacity out.new }
{
    put_u32(out, runs.len() as u32);
    for run in runs {
        put_run(out, run);
    }
}

#[tactic(auto, unfolding(crate::specs::Spelling::le2))]
pub fn put_name(out: &mut Vec<u8>, units: &[u16])
    requires size { length units.now ≤ 255 }
    requires room { length out.old.items + (2 + 2 * length units.now) ≤ vec_capacity out.old }
    ensures items { out.new.items ≡ out.old.items ++ name_text units.now }
    ensures size { length out.new.items ≡ length out.old.items + (2 + 2 * length units.now) }
    ensures room { vec_capacity out.old ≤ vec_capacity out.new }
{
    put_u16(out, units.len() as u16);
    let mut bytes = [0; 2 * MOST_UNITS];
    let bytes = &mut bytes[..2 * units.len()];
    LittleEndian::write_u16_into(units, bytes);
    put(out, bytes);
}

#[tactic(auto, unfolding(crate::specs::Spelling::node_text))]
pub fn put_node(out: &mut Vec<u8>, node: &Node)
    requires short { IsShort node.now }
    requires room { length out.old.items + node_len node.now ≤ vec_capacity out.old }
    ensures items { out.new.items ≡ out.old.items ++ node_text node.now }
    ensures size { length out.new.items ≡ length out.old.items + node_len node.now }
    ensures room { vec_capacity out.old ≤ vec_capacity out.new }
{
    put_u64(out, node.id);
    put_name(out, node.name.units());
    put(out, &[node.kind.byte()]);
    put_u64(out, node.size);
    put_u64(out, node.version);
    put_runs(out, node.map.runs());
}

pub fn put_nodes(out: &mut Vec<u8>, files: &Files)
    requires short { AllByRecursion IsShort files.now }
    requires room { length out.old.items + sum_by node_len files.now ≤ vec_capacity out.old }
    ensures items { out.new.items ≡ out.old.items ++ flat_map node_text files.now }
    ensures size { length out.new.items ≡ length out.old.items + sum_by node_len files.now }
    ensures room { vec_capacity out.old ≤ vec_capacity out.new }
{
    for node in files.nodes() {
        put_node(out, node);
    }
}

/// How long a file's text is.
pub fn len_of_node(node: &Node) -> u64
    requires { IsShort node.now }
    ensures value { result ≡ node_len node.now }
    ensures small { result ≤ 402653725 }
{
    31 + 2 * node.name.units().len() as u64 + 24 * node.map.runs().len() as u64
}
