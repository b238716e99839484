//! Digits of numbers, two at a time.

ghost use Rattle.std.specs.Prelude.{◌≡◌, ◌+◌, ◌<◌, ◌≤◌, ◌++◌, ◌*◌, length, decimal, vec_len, vec_capacity};
ghost use Rattle.hex.specs.Hex.{encode_lower};
ghost use Rattle.hs_text.specs.Digits.{two_digits, four_digits};
ghost use Rattle.hs_text.specs.Text.{hex_text};

/// The pairs of decimal digits, from 00 to 99.
static DECIMAL_PAIRS: [u8; 200] =
    *b"00010203040506070809101112131415161718192021222324252627282930313233343536373839404142434445464748495051525354555657585960616263646566676869707172737475767778798081828384858687888990919293949596979899";

/// The pairs of hexadecimal digits, from 00 to ff.
static HEX_PAIRS: [u8; 512] =
    *b"000102030405060708090a0b0c0d0e0f101112131415161718191a1b1c1d1e1f202122232425262728292a2b2c2d2e2f303132333435363738393a3b3c3d3e3f404142434445464748494a4b4c4d4e4f505152535455565758595a5b5c5d5e5f606162636465666768696a6b6c6d6e6f707172737475767778797a7b7c7d7e7f808182838485868788898a8b8c8d8e8f909192939495969798999a9b9c9d9e9fa0a1a2a3a4a5a6a7a8a9aaabacadaeafb0b1b2b3b4b5b6b7b8b9babbbcbdbebfc0c1c2c3c4c5c6c7c8c9cacbcccdcecfd0d1d2d3d4d5d6d7d8d9dadbdcdddedfe0e1e2e3e4e5e6e7e8e9eaebecedeeeff0f1f2f3f4f5f6f7f8f9fafbfcfdfeff";

/// Appends two digits of a number, where there is room.
#[inline(always)]
fn put_pair(out: &mut Vec<u8>, number: u64)
    requires below { number < 100 }
    requires room { vec_len out.old + 2 ≤ vec_capacity out.old }
    ensures items { out.new.items ≡ out.old.items ++ two_digits number }
    ensures len { vec_len out.new ≡ vec_len out.old + 2 }
    ensures capacity { vec_capacity out.new ≡ vec_capacity out.old }
{
    let at = number as usize * 2;
    out.push_reserved(DECIMAL_PAIRS[at]);
    out.push_reserved(DECIMAL_PAIRS[at + 1]);
}

/// Appends four digits of a number, where there is room.
#[inline(always)]
fn put_four(out: &mut Vec<u8>, number: u64)
    requires below { number < 10000 }
    requires room { vec_len out.old + 4 ≤ vec_capacity out.old }
    ensures { out.new.items ≡ out.old.items ++ four_digits number }
{
    put_pair(out, number / 100);
    put_pair(out, number % 100);
}

/// Appends a number of at most two digits, where there is room.
#[inline(always)]
fn put_first(out: &mut Vec<u8>, number: u64)
    requires below { number < 100 }
    requires room { vec_len out.old + 2 ≤ vec_capacity out.old }
    ensures items { out.new.items ≡ out.old.items ++ decimal number }
    ensures len { vec_len out.new ≤ vec_len out.old + 2 }
    ensures capacity { vec_capacity out.new ≡ vec_capacity out.old }
{
    if number < 10 {
        out.push_reserved(b'0' + number as u8);
    } else {
        put_pair(out, number);
    }
}

/// Appends a number of at most four digits, where there is room.
#[inline(always)]
fn put_short(out: &mut Vec<u8>, number: u64)
    requires below { number < 10000 }
    requires room { vec_len out.old + 4 ≤ vec_capacity out.old }
    ensures items { out.new.items ≡ out.old.items ++ decimal number }
    ensures len { vec_len out.new ≤ vec_len out.old + 4 }
    ensures capacity { vec_capacity out.new ≡ vec_capacity out.old }
{
    if number < 100 {
        put_first(out, number);
    } else {
        put_first(out, number / 100);
        put_pair(out, number % 100);
    }
}

/// Appends a number of at most eight digits, where there is room.
#[inline(always)]
pub(crate) fn put_number(out: &mut Vec<u8>, number: u64)
    requires below { number < 100000000 }
    requires room { vec_len out.old + 8 ≤ vec_capacity out.old }
    ensures { out.new.items ≡ out.old.items ++ decimal number }
{
    if number < 10_000 {
        put_short(out, number);
    } else {
        put_short(out, number / 10_000);
        put_four(out, number % 10_000);
    }
}

/// The two lowest hexadecimal digits of a number.
#[inline(always)]
fn hex_pair(number: u128) -> [u8; 2]
    ensures { result ≡ hex_text 2 number }
{
    let at = (number % 256) as usize * 2;
    [HEX_PAIRS[at], HEX_PAIRS[at + 1]]
}

/// The four lowest.
#[inline(always)]
fn hex_four(number: u128) -> [u8; 4]
    ensures { result ≡ hex_text 4 number }
{
    let high = hex_pair(number / 256);
    let low = hex_pair(number);
    [high[0], high[1], low[0], low[1]]
}

/// The eight lowest.
#[inline(always)]
fn hex_eight(number: u128) -> [u8; 8]
    ensures { result ≡ hex_text 8 number }
{
    let high = hex_four(number / 65_536);
    let low = hex_four(number);
    [
        high[0], high[1], high[2], high[3], low[0], low[1], low[2], low[3],
    ]
}

/// The sixteen lowest.
#[inline(never)]
pub(crate) fn hex_sixteen(number: u128) -> [u8; 16]
    ensures { result ≡ hex_text 16 number }
{
    let high = hex_eight(number / 4_294_967_296);
    let low = hex_eight(number);
    [
        high[0], high[1], high[2], high[3], high[4], high[5], high[6], high[7], low[0], low[1],
        low[2], low[3], low[4], low[5], low[6], low[7],
    ]
}

/// Writes bytes in two hexadecimal digits each.
pub(crate) fn write_hex(text: &mut [u8], bytes: &[u8])
    requires { length text.old ≡ 2 * length bytes.now }
    ensures { text.new ≡ encode_lower bytes.now }
{
    let mut at = 0;
    for byte in bytes {
        let pair = usize::from(*byte) * 2;
        text[at] = HEX_PAIRS[pair];
        text[at + 1] = HEX_PAIRS[pair + 1];
        at += 2;
    }
}
