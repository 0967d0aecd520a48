// Writing the list of a cell as groups: refused before a byte is written, or written whole.

#![tactic(auto)]

ghost use Rattle.std.specs.Prelude.{◌≡◌, List, ℕ};
ghost use Rattle.answers.specs.Outcomes.{outcome_of};
ghost use Rattle.calls.specs.Promised.{Writes};
ghost use Rattle.calls.specs.Write.{write_list};
ghost use Rattle.cells.specs.Views.{pool_of};
ghost use Rattle.groups.specs.Writing.{usable};
ghost use Rattle.groups.specs.declared.Stored.TheVariants.{Groups};
ghost use Rattle.pool.specs.Operations.{list_at, Stands};

use answers::Refusal;
use cells::seen::Seen;
use records::Record;

pub mod put;
pub mod sizes;
pub mod walk;

// The bytes that fit into the room lent, and into a stored list. Text has a function of its own: it rounds down to records.
fn usable(room: usize) -> usize
    ensures { result ≡ usable room }
{
    room.min(Record::TEXT)
}

// The list at x.
pub fn write_list(t: Seen, x: usize, out: &mut [u8]) -> Result<u32, Refusal>
    requires { Stands (pool_of t).cells x }
    ensures { (ws : List ℕ) → Writes (outcome_of result) ws out.new
        (write_list Groups (list_at (pool_of t.entry).cells x) ws out.old) }
{
    let m = walk::measure(t, x, usable(out.len()))?;
    put::put(t, x, m.elements, out);
    Ok(m.size as u32)
}
