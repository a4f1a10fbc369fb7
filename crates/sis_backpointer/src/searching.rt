//! Where an index stands among rising ones, or would stand.
ghost use Rattle.std.specs.Prelude.{◌≡◌, nat_lt, IfOk, IfErr};
ghost use Rattle.std.specs.List.{list_all};
ghost use Rattle.sis_backpointer.specs.Backs.{IsRising, is_below};
ghost use Rattle.sis_backpointer.specs.Inside.{IsFound, IsGap};

use crate::Back;

/// Where the index is, or where it would go.
pub fn search(backs: &[Back], index: u64) -> Result<usize, usize>
    requires { IsRising backs.now }
    ensures found { IfOk result (IsFound index backs.now) }
    ensures absent { IfErr result (IsGap index backs.now) }
{
    backs.binary_search_by_key(&index, |back| back.index)
}

/// Whether the index is above all others.
pub fn is_above(backs: &[Back], index: u64) -> bool
    requires { IsRising backs.now }
    ensures { result ≡ list_all (is_below index) backs.now }
{
    match backs.last() {
        None => true,
        Some(last) => last.index < index,
    }
}
