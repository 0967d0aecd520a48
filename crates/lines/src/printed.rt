// The bytes of a reply. Each function stores from a place on and gives the place behind what it stored. They are put by
// hand, since `write!` to bytes lent promises no bytes: its contract says nothing of an Err, and none rules one out.
ghost use Rattle.std.specs.Prelude.{[], ◌∷◌, ◌+◌, ◌*◌, ◌≤◌, ◌<◌, length};
ghost use Rattle.lines.specs.Numbers.{digits_most};
ghost use Rattle.lines.specs.Printed.{decimal, column, reply, question};
ghost use Rattle.lines.specs.Meaning.{Puts};

use crate::number::Digits;

#[derive(Clone, Copy)]
pub struct Reply;

impl Reply {
    // four numbers and the byte behind each
    pub const MOST: usize = 4 * (Digits::MOST + 1);
}

fn put(out: &mut [u8], at: usize, b: u8) -> usize
    requires { at < length out.old }
    ensures { Puts (b ∷ []) at out.old result out.new }
{
    out[at] = b;
    at + 1
}

pub fn put_number(out: &mut [u8], at: usize, v: u32) -> usize
    requires { at + digits_most ≤ length out.old }
    ensures { Puts (decimal v) at out.old result out.new }
{
    if v < 10 {
        return put(out, at, (48 + v) as u8);
    }
    let end = put_number(out, at, v / 10);
    put(out, end, (48 + v % 10) as u8)
}

fn put_column(out: &mut [u8], at: usize, v: u32, b: u8) -> usize
    requires { at + (digits_most + 1) ≤ length out.old }
    ensures { Puts (column v b) at out.old result out.new }
{
    let end = put_number(out, at, v);
    put(out, end, b)
}

pub fn put_reply(out: &mut [u8], answer: u32, kind: u32, value: u32, free: u32) -> usize
    requires { 4 * (digits_most + 1) ≤ length out.old }
    ensures { Puts (reply answer kind value free) 0 out.old result out.new }
{
    let a = put_column(out, 0, answer, b' ');
    let b = put_column(out, a, kind, b' ');
    let c = put_column(out, b, value, b' ');
    put_column(out, c, free, b'\n')
}

// What a malformed line is answered with.
pub fn put_question(out: &mut [u8]) -> usize
    requires { 2 ≤ length out.old }
    ensures { Puts question 0 out.old result out.new }
{
    let at = put(out, 0, b'?');
    put(out, at, b'\n')
}
