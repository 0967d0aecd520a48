// An atom in octal: how many digits it has, and each digit straight in its place. No byte is stored twice, and none
// behind the last digit.

#![tactic(auto)]

ghost use Rattle.std.specs.Prelude.{◌≡◌, ◌+◌, ◌≤◌, ◌<◌, ◌^◌, length};
ghost use Rattle.stores.specs.Pasted.{pasted};
ghost use Rattle.text.specs.Limits.{digits_most};
ghost use Rattle.octal.specs.Numeral.{numeral, last_digits};

// Numbers of at most so many digits lie below these.
const TWO: u32 = 64;

const FOUR: u32 = 4096;

const EIGHT: u32 = 16777216;

// The number of digits, without leading zeros.
pub fn count(v: u32) -> usize
    ensures { (result ≡ length (numeral v)) × (1 ≤ result) × (result ≤ digits_most) }
{
    // three bits to a digit, rounded up; of 0 as of 1
    let odd = v / 2 * 2 + 1;
    ((34 - odd.leading_zeros()) / 3) as usize
}

// The last two digits of a number.
fn two(out: &mut [u8], at: usize, v: u32)
    requires { at + 2 ≤ length out.old }
    ensures { out.new ≡ pasted out.old at (last_digits 2 v) }
{
    out[at] = b'0' + (v / 8 % 8) as u8;
    out[at + 1] = b'0' + (v % 8) as u8;
}

// The last four.
fn four(out: &mut [u8], at: usize, v: u32)
    requires { at + 4 ≤ length out.old }
    ensures { out.new ≡ pasted out.old at (last_digits 4 v) }
{
    two(out, at, v / TWO);
    two(out, at + 2, v);
}

// The last eight.
fn eight(out: &mut [u8], at: usize, v: u32)
    requires { at + 8 ≤ length out.old }
    ensures { out.new ≡ pasted out.old at (last_digits 8 v) }
{
    four(out, at, v / FOUR);
    four(out, at + 4, v);
}

// A number of one to four digits; what is given is how many.
fn few(out: &mut [u8], at: usize, v: u32) -> usize
    requires v_bound { v < 8 ^ 4 }
    requires v_in_bounds { at + length (numeral v) ≤ length out.old }
    ensures value { result ≡ length (numeral v) }
    ensures out_after { out.new ≡ pasted out.old at (numeral v) }
{
    if v < 8 {
        out[at] = b'0' + v as u8;
        return 1;
    }
    if v < TWO {
        two(out, at, v);
        return 2;
    }
    if v < 512 {
        out[at] = b'0' + (v / TWO) as u8;
        two(out, at + 1, v);
        return 3;
    }
    four(out, at, v);
    4
}

// An atom: its first digits, up to four, and then four or eight at a time. What is given is how many. For the writer, which
// still stores the digits first (`writing::atoms::put_atom`, request A3).
pub fn put(out: &mut [u8], at: usize, v: u32) -> usize
    requires { at + length (numeral v) ≤ length out.old }
    ensures value { result ≡ length (numeral v) }
    ensures out_after { out.new ≡ pasted out.old at (numeral v) }
{
    if v < FOUR {
        return few(out, at, v);
    }
    if v < EIGHT {
        let n = few(out, at, v / FOUR);
        four(out, at + n, v);
        return n + 4;
    }
    let n = few(out, at, v / EIGHT);
    eight(out, at + n, v);
    n + 8
}
