//! The fields of a line, one after another, and the numbers that single fields are.
//!
//! Fields are parted by spaces and tabs (`fab_text`'s `specs/Fields.antt`). Each byte of a line is passed once
//! to find its field and once or twice to read a number of it; no memory is taken.
ghost use Rattle.std.specs.Prelude.{◌≡◌, ◌∷◌, [], MatchOption, ◌<◌, ◌≤◌, ◌^◌, ◌*◌, ◌+◌, ◌⊎◌, IfNone, IfSome, true, false};
ghost use Rattle.std.specs.Char.{digit_value, is_digit};
ghost use Rattle.fab_dump.specs.FieldsLeft.{spelled_in};
ghost use Rattle.fab_text.specs.Fields.{fields, dec, dec_up_to, hex};

use fab_text::word;
use std::marker::Model;

/// The fields of a line that are still to be read.
#[derive(Drop)]
pub(crate) struct Fields<'t> {
    line: &'t [u8],
    // where the last field that was read ends
    from: usize,
    // the line begins with a blank, or is empty: so does its first field, which is still to be read
    empty_first: bool,
}

impl<'t> Model for Fields<'t> {
    ghost use Rattle.std.specs.Prelude.{List, ℕ, drop};
    ghost use Rattle.fab_dump.specs.FieldsLeft.{fields_left};

    ghost Value = { List (List ℕ) };

    ghost view = { λ f. fields_left f.empty_first (drop f.from f.line.now) };
}

impl<'t> Fields<'t> {
    pub(crate) fn of(line: &'t [u8]) -> Fields<'t>
        ensures { result ≡ fields line.now }
    {
        let empty_first = match line {
            [] => true,
            [byte, ..] => *byte == b' ' || *byte == b'\t',
        };
        Fields {
            line,
            from: 0,
            empty_first,
        }
    }

    pub(crate) fn next(&mut self) -> Option<&'t [u8]>
        ensures { MatchOption result ((self.old ≡ []) × (self.new ≡ [])) (λ field. self.old ≡ field.now ∷ self.new) }
    {
        let line = self.line;
        if self.empty_first {
            self.empty_first = false;
            return Some(&line[..0]);
        }
        match word(line, self.from) {
            Some(part) => {
                self.from = part.end;
                Some(&line[part.start..part.end])
            }
            None => None,
        }
    }
}

/// A number with one digit more behind it, if a byte is a digit of the base and the number stays within a `u64`.
fn with_digit(base: u8, number: u64, byte: u8) -> Option<u64>
    ensures some { IfSome result (λ next. (is_digit byte base ≡ true) × (next ≡ number * base + digit_value byte) × (next < 2 ^ 64)) }
    ensures none { IfNone result ((is_digit byte base ≡ false) ⊎ (2 ^ 64 ≤ number * base + digit_value byte)) }
{
    let value = match byte {
        b'0'..=b'9' => byte - 48,
        b'A'..=b'Z' => byte - 55,
        b'a'..=b'z' => byte - 87,
        _ => 36,
    };
    if value >= base {
        return None;
    }
    number
        .checked_mul(u64::from(base))?
        .checked_add(u64::from(value))
}

/// The number that digits of a base spell, if a field has no other bytes and the number is within a `u64`.
fn spelled_in(base: u8, field: &[u8]) -> Option<u64>
    requires { 0 < base }
    ensures { result ≡ spelled_in base field.now }
{
    let mut number = 0;
    let mut rest = field;
    while let [byte, after @ ..] = rest {
        match with_digit(base, number, *byte) {
            Some(next) => number = next,
            None => return None,
        }
        rest = after;
    }
    Some(number)
}

/// The decimal number that a field is, of at most so many digits and at most this value.
pub(crate) fn dec(digits: usize, greatest: u64, field: &[u8]) -> Option<u64>
    ensures number { result ≡ dec digits greatest field.now }
    ensures below { IfSome result (λ n. n ≤ greatest) }
{
    if field.len() > digits {
        return None;
    }
    dec_up_to(greatest, field)
}

/// The decimal number that a field is, of at most this value.
pub(crate) fn dec_up_to(greatest: u64, field: &[u8]) -> Option<u64>
    ensures number { result ≡ dec_up_to greatest field.now }
    ensures below { IfSome result (λ n. n ≤ greatest) }
{
    if field.is_empty() {
        return None;
    }
    match spelled_in(10, field) {
        Some(number) if number <= greatest => Some(number),
        _ => None,
    }
}

/// The number that a field of `0x` and 1 to so many hexadecimal digits is.
pub(crate) fn hex(digits: usize, field: &[u8]) -> Option<u64>
    requires { digits < 17 }
    ensures number { result ≡ hex digits field.now }
    ensures below { IfSome result (λ n. n < 16 ^ digits) }
{
    if !field.starts_with(b"0x") || field.len() < 3 || field.len() > 2 + digits {
        return None;
    }
    spelled_in(16, &field[2..])
}
