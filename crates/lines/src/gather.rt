// Input in chunks, gathered into lines. A line feed ends one, and bytes past the limit only mark it as too long.
ghost use Rattle.std.specs.Prelude.{◌≡◌, ◌≢◌, ◌==◌, ◌≤◌, length, take, MatchOption, IfSome};
ghost use Rattle.lines.specs.Printed.{line_feed};
ghost use Rattle.lines.specs.Splitting.{line_most, Part, empty, going, ready, eat, eaten};
ghost use Rattle.lines.specs.Meaning.{line_is, Ends};

use std::marker::Model;

// A line, for its limit.
#[derive(Clone, Copy)]
pub struct Line;

impl Line {
    pub const MOST: usize = 200;
}

// The bytes of a line so far, and whether there were more than it can have.
#[derive(Clone, Drop)]
pub struct LineSoFar {
    // public, since a caller begins a session on bytes of its own, and reads them after a step
    pub bytes: [u8; Line::MOST],
    pub len: usize,
    pub over: bool,
}

impl Model for LineSoFar {
    ghost Value = { Part };

    ghost view = { λ l. record { kept = take l.len l.bytes; over = l.over } };

    ghost invariant = { λ l. l.len ≤ line_most };
}

impl LineSoFar {
    pub fn new() -> LineSoFar
        ensures { result ≡ empty }
    {
        LineSoFar {
            bytes: [0; Line::MOST],
            len: 0,
            over: false,
        }
    }

    pub fn is_empty(&self) -> bool
        ensures { result ≡ (length self.now.kept == 0) }
    {
        self.len == 0
    }

    // The bytes of a line that has ended; nothing where it was too long.
    pub fn bytes(&self) -> Option<&[u8]>
        ensures line { line_is result ≡ ready self.now.kept self.now.over }
        ensures short { IfSome result (λ s. length s.now ≤ line_most) }
    {
        if self.over {
            return None;
        }
        Some(&self.bytes[..self.len])
    }

    pub fn clear(&mut self)
        ensures { self.new ≡ empty }
    {
        self.len = 0;
        self.over = false;
    }

    fn push(&mut self, b: u8)
        requires { b ≢ line_feed }
        ensures { going self.new ≡ eat (going self.old) b }
    {
        if self.len < Line::MOST {
            self.bytes[self.len] = b;
            self.len += 1;
        } else {
            self.over = true;
        }
    }

    // Takes in a chunk up to the end of the line. Gives what stands behind it, or nothing where the chunk ends first.
    pub fn gather<'a>(&mut self, chunk: &'a [u8]) -> Option<&'a [u8]>
        ensures { MatchOption result (going self.new ≡ eaten (going self.old) chunk.now)
            (λ rest. Ends chunk.now self.old rest.now self.new) }
    {
        for (i, b) in chunk.iter().enumerate() {
            if *b == b'\n' {
                return Some(&chunk[i + 1..]);
            }
            self.push(*b);
        }
        None
    }
}
