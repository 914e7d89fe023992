//! Bytes, and numbers as digits, appended to a text.
//!
//! The digits are made in a buffer of fixed size and appended at once, so that a call that is refused memory
//! leaves the text as it was. Time and memory: the digits.
ghost use Rattle.std.specs.Prelude.{◌≡◌, ◌+◌, ◌<◌, ◌≤◌, ◌++◌, length, OnOk, OnErr, decimal, false};
ghost use Rattle.std.specs.Fmt.{digit_glyph};
ghost use Rattle.fab_text.specs.Digits.{last_digits};

use std::alloc::AllocError;

/// Appends bytes.
pub fn push(to: &mut Vec<u8>, bytes: &[u8]) -> Result<(), AllocError>
    ensures { OnOk result (to.new.items ≡ to.old.items ++ bytes.now) }
{
    to.extend_from_slice(bytes)
}

/// The digit of a value, in lower case.
fn digit(value: u8) -> u8
    requires { value < 16 }
    ensures { result ≡ digit_glyph false value }
{
    if value < 10 {
        b'0' + value
    } else {
        b'a' + (value - 10)
    }
}

/// Fills a buffer with the last digits of a number.
fn fill_with_digits(base: u64, n: u64, into: &mut [u8])
    requires { (0 < base) × (base ≤ 16) }
    ensures { into.new ≡ last_digits base (length into.old) n }
{
    let mut rest = n;
    let mut place = into.len();
    while place > 0 {
        place -= 1;
        into[place] = digit((rest % base) as u8);
        rest /= base;
    }
}

/// Appends a number in decimal digits, without zeros in front.
pub fn push_dec(to: &mut Vec<u8>, n: u64) -> Result<(), AllocError>
    ensures ok { OnOk result (to.new.items ≡ to.old.items ++ decimal n) }
    ensures err { OnErr result (to.new.items ≡ to.old.items) }
{
    let mut digits = [0; 20];
    let mut rest = n;
    let mut place = 20;
    while rest >= 10 {
        place -= 1;
        digits[place] = b'0' + (rest % 10) as u8;
        rest /= 10;
    }
    place -= 1;
    digits[place] = b'0' + rest as u8;
    to.extend_from_slice(&digits[place..])
}

/// Appends a number in sixteen hexadecimal digits, in lower case.
pub fn push_hex16(to: &mut Vec<u8>, n: u64) -> Result<(), AllocError>
    ensures ok { OnOk result (to.new.items ≡ to.old.items ++ last_digits 16 16 n) }
    ensures err { OnErr result (to.new.items ≡ to.old.items) }
{
    let mut digits = [0; 16];
    fill_with_digits(16, n, &mut digits);
    to.extend_from_slice(&digits)
}

/// Appends a number in four hexadecimal digits, in lower case.
pub fn push_hex4(to: &mut Vec<u8>, n: u16) -> Result<(), AllocError>
    ensures ok { OnOk result (to.new.items ≡ to.old.items ++ last_digits 16 4 n) }
    ensures err { OnErr result (to.new.items ≡ to.old.items) }
{
    let mut digits = [0; 4];
    fill_with_digits(16, u64::from(n), &mut digits);
    to.extend_from_slice(&digits)
}

/// Appends a number in three decimal digits, with zeros in front.
pub fn push_port3(to: &mut Vec<u8>, n: u8) -> Result<(), AllocError>
    ensures ok { OnOk result (to.new.items ≡ to.old.items ++ last_digits 10 3 n) }
    ensures err { OnErr result (to.new.items ≡ to.old.items) }
{
    let mut digits = [0; 3];
    fill_with_digits(10, u64::from(n), &mut digits);
    to.extend_from_slice(&digits)
}

/// Appends a number below 100 in two decimal digits, with a zero in front of one.
pub fn push_two(to: &mut Vec<u8>, n: u8) -> Result<(), AllocError>
    requires { n < 100 }
    ensures ok { OnOk result (to.new.items ≡ to.old.items ++ last_digits 10 2 n) }
    ensures err { OnErr result (to.new.items ≡ to.old.items) }
{
    let mut digits = [0; 2];
    fill_with_digits(10, u64::from(n), &mut digits);
    to.extend_from_slice(&digits)
}
