// WRITE's text as a line of its own.
ghost use Rattle.std.specs.Prelude.{◌≡◌, ◌≤◌, length};
ghost use Rattle.answering.specs.Kept.{line_room, Texts};
ghost use Rattle.answering.specs.Trim.{trimmed};

use crate::engine::{Engine, WORK};
use answers::Outcome;
use groups::Stored;
use records::Record;

// How many bytes of a text are left without the blanks at its end.
pub fn without_fill(text: &[u8]) -> usize
    ensures { (result ≡ trimmed text.now) × (result ≤ length text.now) }
{
    match text.iter().rposition(|b| *b != b' ') {
        Some(last) => last + 1,
        None => 0,
    }
}

// The bytes of WRITE's text with a line feed, or the answer that refuses it: the number that `writing::write` gives to C.
pub fn write_text(
    table: &[u32],
    work: &mut [u32; WORK],
    h: u32,
    room: &mut [u8],
) -> Result<usize, u32>
    requires { length room.old ≡ line_room }
    ensures { Texts table.now h result room.new }
{
    let out = &mut room[..Record::TEXT];
    let r = writing::write(Stored::Text, table, work, h, out);
    if r.answer != Outcome::DONE {
        return Err(r.answer);
    }
    let n = without_fill(&room[..r.count as usize]);
    room[n] = b'\n';
    Ok(n + 1)
}

impl Engine {
    pub fn write_text(&self, work: &mut [u32; WORK], h: u32, room: &mut [u8]) -> Result<usize, u32>
        requires { length room.old ≡ line_room }
        ensures { Texts self.now h result room.new }
    {
        write_text(&self.table[..self.used], work, h, room)
    }
}
