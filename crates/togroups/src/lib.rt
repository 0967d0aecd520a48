// The move from text to groups. The number of a list's elements stands before them, so the text is passed over from its
// end: the groups come out with the last byte first, and are turned round.

#![tactic(auto)]

ghost use Rattle.std.specs.Prelude.{◌≡◌, leb, length};
ghost use Rattle.answers.specs.Outcomes.{moved_of};
ghost use Rattle.calls.specs.Promised.{Moves};
ghost use Rattle.calls.specs.Move.{put_out, moved_from};
ghost use Rattle.groups.specs.Groups.{groups_of};
ghost use Rattle.groups.specs.declared.Stored.TheVariants.{Text, Groups};
ghost use Rattle.text.specs.Marks.{list_in};
ghost use Rattle.text.specs.Text.{verdict, done};
ghost use Rattle.togroups.specs.Listed.{Listed};

use crate::put::{Counting, Putting};
use answers::{Moved, Passed, Refusal};

pub mod atoms;
pub mod pass;
pub mod put;
pub mod walk;

// Groups are no longer than their text: where there is room for that they need not be counted.
fn has_room(text: &[u8], out: &mut [u8]) -> bool
    requires { Listed text.now }
    ensures value { result ≡ leb (length (groups_of (list_in text.now))) (length out.old) }
    ensures out_unchanged { out.new ≡ out.old }
{
    text.len() <= out.len() || pass::pass::<Counting>(text, out) <= out.len()
}

// The list of a text of which so many bytes are taken.
fn put_out(text: &[u8], taken: u32, out: &mut [u8]) -> Result<Passed, Refusal>
    requires { verdict text.now ≡ done taken }
    ensures { Moves (moved_of result) out.new (put_out Groups taken (list_in text.now) out.old) }
{
    let whole = &text[..taken as usize];
    if !has_room(whole, out) {
        return Err(Refusal::Output);
    }
    let size = pass::pass::<Putting>(whole, out);
    out[..size].reverse();
    Ok(Passed {
        taken,
        written: size as u32,
    })
}

// OUTPUT comes after every fault of the text, and the output is touched only where the list is put out. With `?` at the scan
// the list's extent would be kept over the pass, in 16 bytes of stack.
fn move_list(text: &[u8], out: &mut [u8]) -> Result<Passed, Refusal>
    ensures { Moves (moved_of result) out.new (moved_from Text text.now out.old) }
{
    records::size_fault(text)?;
    match scan::scan(text) {
        Ok(found) => put_out(text, found.taken, out),
        Err(fault) => Err(fault),
    }
}

pub fn to_groups(text: &[u8], out: &mut [u8]) -> Moved
    ensures { Moves result out.new (moved_from Text text.now out.old) }
{
    Moved::from(move_list(text, out))
}
