//! Bytes in hexadecimal digits.
ghost use Rattle.std.specs.Prelude.{◌≡◌, ◌*◌, ℕ, true, false, length, min, None, Ok, unwrap_or};
ghost use Rattle.std.specs.Char.{digit_value};
ghost use Rattle.std.specs.Result.{result_ok};
ghost use Rattle.hex.specs.Hex.{decode_pairs, hex_digit_value, pair_value};

/// For each byte its value as a digit, in either case, or 16 where it is none. A table has no branch, and digits come
/// at random.
const VALUES: [u8; 256] = [
    16, 16, 16, 16, 16, 16, 16, 16, 16, 16, 16, 16, 16, 16, 16, 16, 16, 16, 16, 16, 16, 16, 16, 16,
    16, 16, 16, 16, 16, 16, 16, 16, 16, 16, 16, 16, 16, 16, 16, 16, 16, 16, 16, 16, 16, 16, 16, 16,
    0, 1, 2, 3, 4, 5, 6, 7, 8, 9, 16, 16, 16, 16, 16, 16, 16, 10, 11, 12, 13, 14, 15, 16, 16, 16,
    16, 16, 16, 16, 16, 16, 16, 16, 16, 16, 16, 16, 16, 16, 16, 16, 16, 16, 16, 16, 16, 16, 16, 10,
    11, 12, 13, 14, 15, 16, 16, 16, 16, 16, 16, 16, 16, 16, 16, 16, 16, 16, 16, 16, 16, 16, 16, 16,
    16, 16, 16, 16, 16, 16, 16, 16, 16, 16, 16, 16, 16, 16, 16, 16, 16, 16, 16, 16, 16, 16, 16, 16,
    16, 16, 16, 16, 16, 16, 16, 16, 16, 16, 16, 16, 16, 16, 16, 16, 16, 16, 16, 16, 16, 16, 16, 16,
    16, 16, 16, 16, 16, 16, 16, 16, 16, 16, 16, 16, 16, 16, 16, 16, 16, 16, 16, 16, 16, 16, 16, 16,
    16, 16, 16, 16, 16, 16, 16, 16, 16, 16, 16, 16, 16, 16, 16, 16, 16, 16, 16, 16, 16, 16, 16, 16,
    16, 16, 16, 16, 16, 16, 16, 16, 16, 16, 16, 16, 16, 16, 16, 16, 16, 16, 16, 16, 16, 16, 16, 16,
    16, 16, 16, 16, 16, 16, 16, 16, 16, 16, 16, 16, 16, 16,
];

/// The value of a digit in either case, or 16 for a byte that is none.
#[inline]
pub(crate) fn digit(byte: u8) -> u8
    ensures hex { result ≡ unwrap_or (hex_digit_value byte) 16 }
    ensures value { result ≡ min (digit_value byte) 16 }
{
    VALUES[byte as usize]
}

/// The byte of two digits.
fn pair(high: u8, low: u8) -> Option<u8>
    ensures { (place : ℕ) → result ≡ result_ok (pair_value high low place) }
{
    let high = digit(high);
    let low = digit(low);
    if high < 16 && low < 16 {
        Some(high * 16 + low)
    } else {
        None
    }
}

/// Fills bytes with those of so many pairs of digits, and returns whether they are all digits.
pub(crate) fn decode_into(digits: &[u8], bytes: &mut [u8]) -> bool
    requires { length digits.now ≡ 2 * length bytes.old }
    ensures decoded { result ≡ true → decode_pairs 0 digits.now ≡ Ok bytes.new }
    ensures unfit { result ≡ false → result_ok (decode_pairs 0 digits.now) ≡ None }
{
    'bytes: for place in 0..bytes.len() {
        match pair(digits[2 * place], digits[2 * place + 1]) {
            Some(byte) => bytes[place] = byte,
            None => return false,
        }
    }
    true
}
