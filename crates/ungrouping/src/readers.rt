// The readers of a list and of an element, which call each other. The bytes left fall with each call and each turn, so
// that the work is bounded by them, whatever a list claims.
ghost use Rattle.std.specs.Prelude.{◌≤◌, length};
ghost use Rattle.text.specs.Limits.{levels};
ghost use Rattle.ungrouping.specs.Places.{Element, Reads, ReadsWhole};

use crate::atoms;
use answers::Refusal;
use scan::limits::Level;

// The place behind an element of a list on the level `level`.
#[cycle(read_element_read_list)]
fn read_element(bytes: &[u8], at: usize, level: u32) -> Result<usize, Refusal>
    requires at_in_bounds { at ≤ length bytes.now }
    requires level_le_levels { level ≤ levels }
    ensures { Element bytes.now level at result }
{
    let n = numbers::number_at(bytes, at).ok_or(Refusal::Groups)?;
    if n.value % 2 == 0 {
        return Ok(n.end);
    }
    if level >= Level::MOST {
        return Err(Refusal::Deep);
    }
    read_list(bytes, n.end, n.value / 2, level + 1)
}

// The place behind as many elements as a list on the level `level` claims.
#[cycle(read_element_read_list)]
fn read_list(bytes: &[u8], from: usize, claimed: u64, level: u32) -> Result<usize, Refusal>
    requires from_in_bounds { from ≤ length bytes.now }
    requires level_le_levels { level ≤ levels }
    ensures { Reads bytes.now level from claimed 0 result }
{
    let mut at = from;
    let mut left = claimed;
    // no `for`: a turn takes a run of atoms off, and an element
    while left > 0 {
        let behind = atoms::past(bytes, at, left);
        left -= (behind - at) as u64;
        at = behind;
        if left > 0 {
            at = read_element(bytes, at, level)?;
            left -= 1;
        }
    }
    Ok(at)
}

// The place behind the list that the bytes begin with. An atom is none.
pub fn read(bytes: &[u8]) -> Result<usize, Refusal>
    ensures { ReadsWhole bytes.now result }
{
    let first = numbers::number_at(bytes, 0).ok_or(Refusal::Groups)?;
    if first.value % 2 == 0 {
        return Err(Refusal::Groups);
    }
    read_list(bytes, first.end, first.value / 2, 1)
}
