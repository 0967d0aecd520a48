// A line's answer: what it changes in the engine, and the bytes that it prints.
ghost use Rattle.std.specs.Prelude.{◌+◌, ◌≤◌, length, IfSome};
ghost use Rattle.lines.specs.Commands.{writing};
ghost use Rattle.lines.specs.Meaning.{line_is};
ghost use Rattle.lines.specs.Printed.{reply};
ghost use Rattle.lines.specs.Splitting.{line_most};
ghost use Rattle.answering.specs.Session.{free_cells, does, answered};
ghost use Rattle.answering.specs.Kept.{reply_most, line_room, Prints, Speaks};

use crate::engine::{Engine, Said, WORK};
use crate::free::free_cells;
use answers::Outcome;
use lines::order::{Order, parse};
use lines::printed::{Reply, put_question, put_reply};
use records::Record;

// A reply, and the longest text with its line feed.
pub const PRINTED: usize = Reply::MOST + Record::TEXT + 1;

impl Engine {
    // What a call of the engine said, and the free cells.
    fn tell(&self, said: Said, out: &mut [u8]) -> usize
        requires { reply_most ≤ length out.old }
        ensures { Prints (reply said.answer said.kind said.value (free_cells self.now)) result out.new }
    {
        let free = free_cells(&self.table[..self.used]);
        put_reply(out, said.answer, said.kind, said.value, free)
    }

    // WRITE's text goes behind the reply that it gets if it is done; if it is not, another reply takes that place.
    fn write(&self, work: &mut [u32; WORK], h: u32, out: &mut [u8]) -> usize
        requires { reply_most + line_room ≤ length out.old }
        ensures { Speaks (does self.now (writing h)) self.now result out.new }
    {
        let count = self.tell(Said::plain(Outcome::DONE), out);
        let end = count + Record::TEXT + 1;
        match self.write_text(work, h, &mut out[count..end]) {
            Ok(n) => count + n,
            Err(answer) => self.tell(Said::plain(answer), out),
        }
    }

    // A line, or nothing where it is too long. Gives the number of bytes printed.
    pub fn answer(&mut self, line: Option<&[u8]>, work: &mut [u32; WORK], out: &mut [u8]) -> usize
        requires short { IfSome line (λ s. length s.now ≤ line_most) }
        requires room { reply_most + line_room ≤ length out.old }
        ensures { Speaks (answered self.old (line_is line.entry)) self.new result out.new }
    {
        let Some(line) = line else {
            return put_question(out);
        };
        let Some(order) = parse(line) else {
            return put_question(out);
        };
        let said = match order {
            Order::New(cells) => self.open(cells),
            Order::Operation(code, a, b, v) => self.operate(work, u32::from(code), a, b, v),
            Order::Reading(h, text) => self.read(work, h, text, out),
            Order::Writing(h) => return self.write(work, h, out),
        };
        self.tell(said, out)
    }
}
