// A list moved from groups to text: refused before a byte is written, or written whole with its fill.

#![tactic(auto)]

ghost use Rattle.std.specs.Prelude.{◌≡◌};
ghost use Rattle.answers.specs.Answers.{DONE};
ghost use Rattle.answers.specs.Outcomes.{moved_of};
ghost use Rattle.calls.specs.Promised.{Moves};
ghost use Rattle.calls.specs.Move.{moved_from};
ghost use Rattle.groups.specs.Reading.{size_fault};
ghost use Rattle.groups.specs.declared.Stored.TheVariants.{Groups};

use answers::{Moved, Passed, Refusal};

pub mod check;
pub mod put;

// Every refusal comes before a byte is written: those of the size and the groups, and 18 last.
fn moved(groups: &[u8], out: &mut [u8]) -> Result<Passed, Refusal>
    ensures { Moves (moved_of result) out.new (moved_from Groups groups.now out.old) }
{
    ungrouping::size_fault(groups)?;
    let c = check::check(groups)?;
    if c.size > writing::usable(out.len()) {
        return Err(Refusal::Output);
    }
    put::put(groups, &mut out[..c.size]);
    let end = writing::record_end(c.size);
    writing::fill(out, c.size, end);
    let written = end as u32;
    Ok(Passed {
        taken: c.taken,
        written,
    })
}

pub fn to_text(groups: &[u8], out: &mut [u8]) -> Moved
    ensures { Moves result out.new (moved_from Groups groups.now out.old) }
{
    Moved::from(moved(groups, out))
}
