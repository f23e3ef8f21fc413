//! Numbers in decimal, written where there is room for them.

ghost use Rattle.std.specs.Prelude.{◌≡◌, ◌+◌, ◌<◌, ◌≤◌, ◌++◌, length, vec_len, vec_capacity, decimal};
ghost use Rattle.ccsl_vcd_write.specs.Digits.{pair_text};

/// The two digits of each number below 100, one number behind the other.
static PAIRS: [u8; 200] =
    *b"00010203040506070809101112131415161718192021222324252627282930313233343536373839404142434445464748495051525354555657585960616263646566676869707172737475767778798081828384858687888990919293949596979899";

/// Below this bound a number has eight digits at most.
const SHORT: u64 = 100_000_000;

/// Two digits, of which the first may be a zero.
#[inline(always)]
fn put_pair(n: u64, out: &mut Vec<u8>)
    requires below { n < 100 }
    requires room { vec_len out.old + 2 ≤ vec_capacity out.old }
    ensures text { out.new.items ≡ out.old.items ++ pair_text n }
    ensures len { vec_len out.new ≡ vec_len out.old + 2 }
    ensures capacity { vec_capacity out.new ≡ vec_capacity out.old }
{
    let from = n as usize * 2;
    out.push_reserved(PAIRS[from]);
    out.push_reserved(PAIRS[from + 1]);
}

#[inline(always)]
fn put_below_100(n: u64, out: &mut Vec<u8>)
    requires below { n < 100 }
    requires room { vec_len out.old + length (decimal n) ≤ vec_capacity out.old }
    ensures text { out.new.items ≡ out.old.items ++ decimal n }
    ensures len { vec_len out.new ≡ vec_len out.old + length (decimal n) }
    ensures capacity { vec_capacity out.new ≡ vec_capacity out.old }
{
    if n < 10 {
        out.push_reserved(b'0' + n as u8);
    } else {
        put_pair(n, out);
    }
}

#[inline(always)]
fn put_below_myriad(n: u64, out: &mut Vec<u8>)
    requires below { n < 10_000 }
    requires room { vec_len out.old + length (decimal n) ≤ vec_capacity out.old }
    ensures text { out.new.items ≡ out.old.items ++ decimal n }
    ensures len { vec_len out.new ≡ vec_len out.old + length (decimal n) }
    ensures capacity { vec_capacity out.new ≡ vec_capacity out.old }
{
    if n < 100 {
        return put_below_100(n, out);
    }
    let hundreds = n / 100;
    put_below_100(hundreds, out);
    put_pair(n - hundreds * 100, out);
}

/// A product tells each of the last pairs from what stands in front of it: a remainder would be a division more.
#[inline(always)]
fn put_short(n: u64, out: &mut Vec<u8>)
    requires below { n < SHORT }
    requires room { vec_len out.old + length (decimal n) ≤ vec_capacity out.old }
    ensures text { out.new.items ≡ out.old.items ++ decimal n }
    ensures len { vec_len out.new ≡ vec_len out.old + length (decimal n) }
    ensures capacity { vec_capacity out.new ≡ vec_capacity out.old }
{
    if n < 10_000 {
        return put_below_myriad(n, out);
    }
    let (myriads, hundreds) = (n / 10_000, n / 100);
    put_below_myriad(myriads, out);
    put_pair(hundreds - myriads * 100, out);
    put_pair(n - hundreds * 100, out);
}

/// No trace is so long that it matters how fast this is.
#[cold]
#[inline(never)]
fn put_long(n: u64, out: &mut Vec<u8>)
    requires room { vec_len out.old + length (decimal n) ≤ vec_capacity out.old }
    ensures text { out.new.items ≡ out.old.items ++ decimal n }
    ensures len { vec_len out.new ≡ vec_len out.old + length (decimal n) }
    ensures capacity { vec_capacity out.new ≡ vec_capacity out.old }
{
    if n < SHORT {
        return put_short(n, out);
    }
    put_long(n / 100, out);
    put_pair(n % 100, out);
}

/// Appends a number, for which there is room.
#[inline(always)]
pub(crate) fn put_decimal(n: u64, out: &mut Vec<u8>)
    requires room { vec_len out.old + length (decimal n) ≤ vec_capacity out.old }
    ensures text { out.new.items ≡ out.old.items ++ decimal n }
    ensures len { vec_len out.new ≡ vec_len out.old + length (decimal n) }
    ensures capacity { vec_capacity out.new ≡ vec_capacity out.old }
{
    if n < SHORT {
        put_short(n, out);
    } else {
        put_long(n, out);
    }
}
