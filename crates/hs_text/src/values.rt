//! What digits stand for, decimal and hexadecimal. The loops over hexadecimal digits have no way out before their end, so that the compiler
//! takes many bytes at once.

ghost use Rattle.std.specs.Prelude.{◌≡◌, ◌<◌, ◌≤◌, ◌*◌, ◌^◌, length, Some, None, IsTrue, if◌then◌else◌};
ghost use Rattle.std.specs.List.{list_all};
ghost use Rattle.std.specs.Str.{all_ascii_digits};
ghost use Rattle.std.specs.Str.Parse.{digits_value};
ghost use Rattle.hs_text.specs.Text.{is_hex_digit, hex_digit_of, hex_value_after, bytes_of_pairs};

/// The number that decimal digits are, so few that it fits. `None` where a byte is no digit.
pub fn few_digits(word: &[u8]) -> Option<u64>
    requires { length word.now < 20 }
    ensures { result ≡ (if all_ascii_digits word.now then Some (digits_value 10 word.now) else None) }
{
    let mut number: u64 = 0;
    for byte in word {
        if !byte.is_ascii_digit() {
            return None;
        }
        number = 10 * number + u64::from(*byte - b'0');
    }
    Some(number)
}

/// Whether a byte is a digit of lower-case hexadecimal.
fn is_hex_digit(byte: u8) -> bool
    ensures { result ≡ is_hex_digit byte }
{
    matches!(byte, b'0'..=b'9' | b'a'..=b'f')
}

/// Whether each byte is a digit of lower-case hexadecimal.
pub fn is_hex(word: &[u8]) -> bool
    ensures { result ≡ list_all is_hex_digit word.now }
{
    let mut is_hex = true;
    for byte in word {
        is_hex &= is_hex_digit(*byte);
    }
    is_hex
}

/// What a digit of lower-case hexadecimal stands for.
pub fn hex_value(digit: u8) -> u8
    requires { IsTrue (is_hex_digit digit) }
    ensures value { result ≡ hex_digit_of digit }
    ensures small { result < 16 }
{
    if digit <= b'9' {
        digit - b'0'
    } else {
        digit - b'a' + 10
    }
}

/// The number that digits of hexadecimal are, at most 16.
#[tactic(auto, using(crate::proofs::Pairs::digit_at))]
pub fn few_hex_digits(word: &[u8]) -> u64
    requires digits { IsTrue (list_all is_hex_digit word.now) }
    requires few { length word.now ≤ 16 }
    ensures value { result ≡ hex_value_after 0 word.now }
    ensures small { result < 16 ^ length word.now }
{
    let mut number: u64 = 0;
    for digit in word {
        number = 16 * number + u64::from(hex_value(*digit));
    }
    number
}

/// Writes the bytes that pairs of digits stand for.
#[tactic(auto, using(crate::proofs::Pairs::digit_at))]
pub fn decode_pairs(word: &[u8], out: &mut [u8])
    requires digits { IsTrue (list_all is_hex_digit word.now) }
    requires pairs { length word.now ≡ 2 * length out.old }
    ensures { out.new ≡ bytes_of_pairs word.now }
{
    for place in 0..out.len() {
        out[place] = 16 * hex_value(word[2 * place]) + hex_value(word[2 * place + 1]);
    }
}
