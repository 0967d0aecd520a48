// An atom in octal: its digits in a small store, and the store copied out.
ghost use Rattle.std.specs.Prelude.{◌≡◌, ◌+◌, ◌≤◌, length, take};
ghost use Rattle.text.specs.Limits.{digits_most};
ghost use Rattle.octal.specs.Numeral.{numeral};
ghost use Rattle.writing.specs.Put.{Put};

use scan::limits::Digits;

// The n digits of v from the front of the store; behind them stand zeros.
fn work_out(v: u32, n: usize) -> [u8; Digits::MOST]
    requires { (n ≡ length (numeral v)) × (1 ≤ n) × (n ≤ digits_most) }
    ensures { (length result ≡ digits_most) × (take n result ≡ numeral v) }
{
    let mut store = [0; Digits::MOST];
    let mut left = u64::from(v) << (3 * (Digits::MOST - n));
    for i in (0..Digits::MOST).rev() {
        store[i] = b'0' + (left % 8) as u8;
        left /= 8;
    }
    store
}

// An atom in the text that fills `out`. Where the whole store has room it is copied whole: what comes later stands over
// its end.
pub fn put_atom(out: &mut [u8], at: usize, v: u32)
    requires { at + length (numeral v) ≤ length out.old }
    ensures { Put out.old out.new at (length out.old) (numeral v) }
{
    if v < 8 {
        out[at] = b'0' + v as u8;
        return;
    }
    let n = octal::count(v);
    let store = work_out(v, n);
    if out.len() - at < Digits::MOST {
        out[at..at + n].copy_from_slice(&store[..n]);
    } else {
        out[at..at + Digits::MOST].copy_from_slice(&store);
    }
}
