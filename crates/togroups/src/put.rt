// The groups of a number put out with the last first, or only counted.
ghost use Rattle.std.specs.Prelude.{◌≡◌, Bool, true, false, reverse, ◌+◌, ◌≤◌, ◌<◌, length};
ghost use Rattle.groups.specs.Groups.{numbers_end, number};
ghost use Rattle.text.specs.Limits.{text_most};
ghost use Rattle.togroups.specs.Laid.{laid, laid_back};

// What is given is the place behind the bytes.
fn lay(out: &mut [u8], at: usize, bytes: &[u8]) -> usize
    requires { at + length bytes.now ≤ length out.old }
    ensures value { result ≡ at + length bytes.now }
    ensures out_after { out.new ≡ laid out.old at bytes.now }
{
    let end = at + bytes.len();
    out[at..end].copy_from_slice(bytes);
    end
}

// A number of four or five groups.
fn put_long(out: &mut [u8], at: usize, v: u64) -> usize
    requires le_v { (2097152 ≤ v) × (v < numbers_end) }
    requires v_in_bounds { at + length (number v) ≤ length out.old }
    ensures value { result ≡ at + length (number v) }
    ensures out_after { out.new ≡ laid out.old at (reverse (number v)) }
{
    let a = v / 128;
    let b = a / 128;
    let c = b / 128;
    let low = (128 + v % 128) as u8;
    let second = (128 + a % 128) as u8;
    let third = (128 + b % 128) as u8;
    if c < 128 {
        return lay(out, at, &[c as u8, third, second, low]);
    }
    let fourth = (128 + c % 128) as u8;
    lay(out, at, &[(c / 128) as u8, fourth, third, second, low])
}

// What is given is the place behind the number. Tests by size and no loop: most numbers of a list are of one size.
fn put(out: &mut [u8], at: usize, v: u64) -> usize
    requires v_lt_numbers_end { v < numbers_end }
    requires v_in_bounds { at + length (number v) ≤ length out.old }
    ensures value { result ≡ at + length (number v) }
    ensures out_after { out.new ≡ laid out.old at (reverse (number v)) }
{
    if v < 128 {
        return lay(out, at, &[v as u8]);
    }
    let a = v / 128;
    let low = (128 + v % 128) as u8;
    if a < 128 {
        return lay(out, at, &[a as u8, low]);
    }
    let b = a / 128;
    if b < 128 {
        return lay(out, at, &[b as u8, (128 + a % 128) as u8, low]);
    }
    put_long(out, at, v)
}

// What becomes of a number that a pass meets: the bytes of its groups from a place on. What is given is the place behind them.
pub trait Give {
    ghost puts: { Bool };

    fn give(out: &mut [u8], at: usize, v: u64) -> usize
        requires v_lt_numbers_end { v < numbers_end }
        requires at_le_text_most { at ≤ text_most }
        requires v_in_bounds { puts ≡ true → at + length (number v) ≤ length out.old }
        ensures value { result ≡ at + length (number v) }
        ensures out_after { out.new ≡ laid_back puts out.old at (number v) };
}

// They are put out.
pub struct Putting;

impl Give for Putting {
    ghost puts = { true };

    fn give(out: &mut [u8], at: usize, v: u64) -> usize {
        put(out, at, v)
    }
}

// They are only counted.
pub struct Counting;

impl Give for Counting {
    ghost puts = { false };

    fn give(_out: &mut [u8], at: usize, v: u64) -> usize {
        at + numbers::size(v)
    }
}
