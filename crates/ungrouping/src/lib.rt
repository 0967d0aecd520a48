// The check of groups: is what the caller lends a list in groups, and where does it end?

#![tactic(auto)]

ghost use Rattle.std.specs.Prelude.{◌≡◌};
ghost use Rattle.answers.specs.Answers.{DONE};
ghost use Rattle.answers.specs.Refusals.{answer_no};
ghost use Rattle.lists.specs.Lst.{extent};
ghost use Rattle.groups.specs.Reading.{size_fault, scanned, list_in};
ghost use Rattle.scan.specs.Outcomes.{Says};

use answers::Refusal;
use records::Record;
use scan::Scanned;

pub mod atoms;
pub mod ends;
pub mod readers;

// More than 65,520 bytes, or none.
pub fn size_fault(bytes: &[u8]) -> Result<(), Refusal>
    ensures { answer_no result ≡ size_fault bytes.now }
{
    if bytes.len() > Record::TEXT {
        return Err(Refusal::TextSize);
    }
    if bytes.is_empty() {
        return Err(Refusal::End);
    }
    Ok(())
}

// Bytes of a right size: the earliest fault, or the bytes taken and the extent.
pub fn scan(bytes: &[u8]) -> Result<Scanned, Refusal>
    requires { size_fault bytes.now ≡ DONE }
    ensures { Says (scanned bytes.now) (extent (list_in bytes.now)) result }
{
    let end = readers::read(bytes)?;
    Ok(Scanned {
        taken: end as u32,
        extent: ends::numbers_in(&bytes[..end]) - 1,
    })
}
