//! What stands in a text from a place on: its line, its next word, a number, a part in quotes.
//!
//! A line ends before a line feed, and before one carriage return in front of that; words are parted by spaces
//! and tabs. Each call passes over the bytes that it reads once, and takes no memory.
ghost use Rattle.std.specs.Prelude.{◌≡◌, ◌+◌, ◌*◌, ◌≤◌, IfSome, IfNone, ◌<◌, ◌^◌, length, not, None, Some, option_map, nat_lt, if◌then◌else◌, ◌==◌};
ghost use Rattle.std.specs.List.{prefix_len, list_any, before_last};
ghost use Rattle.std.specs.Char.{digit_value, is_digit};
ghost use Rattle.std.specs.Str.Lines.{strip_carriage_return};
ghost use Rattle.fab_text.specs.Bytes.{is_blank, is_quote};
ghost use Rattle.fab_text.specs.Digits.{number_spelled};
ghost use Rattle.fab_text.specs.Fronts.{LiesWithin, line_at, word_at, dec_at, hex_at, quoted_at, desc_at};

/// A line, by places in its text.
#[derive(Clone, Copy, Debug, PartialEq, Eq)]
pub struct Line {
    /// The place of its first byte.
    pub start: usize,
    /// The place past its last byte.
    pub end: usize,
    /// The place where the next line begins.
    pub next: usize,
}

/// A part of a line, by places in it.
#[derive(Clone, Copy, Debug, PartialEq, Eq)]
pub struct Span {
    /// The place of its first byte.
    pub start: usize,
    /// The place past its last byte.
    pub end: usize,
}

/// Whether a byte parts words: a space or a tab.
pub fn is_blank(byte: u8) -> bool
    ensures { result ≡ is_blank byte }
{
    byte == b' ' || byte == b'\t'
}

fn length_before(end: u8, bytes: &[u8]) -> usize
    ensures count { result ≡ prefix_len (λ byte. not (byte == end)) bytes.now }
    ensures within { result ≤ length bytes.now }
{
    bytes.iter().take_while(|byte| **byte != end).count()
}

fn blanks_in_front(bytes: &[u8]) -> usize
    ensures count { result ≡ prefix_len is_blank bytes.now }
    ensures within { result ≤ length bytes.now }
{
    bytes.iter().take_while(|byte| is_blank(**byte)).count()
}

fn length_of_word(bytes: &[u8]) -> usize
    ensures count { result ≡ prefix_len (λ byte. not (is_blank byte)) bytes.now }
    ensures within { result ≤ length bytes.now }
{
    bytes.iter().take_while(|byte| !is_blank(**byte)).count()
}

fn without_return(line: &[u8]) -> &[u8]
    ensures line { result.now ≡ strip_carriage_return line.now }
    ensures within { length result.now ≤ length line.now }
{
    match line {
        [front @ .., b'\r'] => front,
        _ => line,
    }
}

/// The line that begins at a place, none from the end of the text on. It ends before the next line feed, and
/// before one carriage return that stands there too, or at the end of the text. Time: the bytes of the line.
pub fn next_line(text: &[u8], from: usize) -> Option<Line>
    ensures line { result ≡ line_at text.now from }
    ensures within { IfSome result (LiesWithin text.now from) }
{
    if from >= text.len() {
        return None;
    }
    let (_, rest) = text.split_at(from);
    let count = length_before(b'\n', rest);
    let end = from + count;
    if end == text.len() {
        return Some(Line {
            start: from,
            end,
            next: end,
        });
    }
    let (raw, _) = rest.split_at(count);
    Some(Line {
        start: from,
        end: from + without_return(raw).len(),
        next: end + 1,
    })
}

/// The next run of bytes that are neither a space nor a tab, from a place on; none where no such byte is left.
/// Time: the bytes up to its end.
pub fn word(line: &[u8], from: usize) -> Option<Span>
    ensures part { result ≡ word_at line.now from }
    ensures within { IfSome result (λ part. (part.start ≤ part.end) × (part.end ≤ length line.now)) }
{
    if from >= line.len() {
        return None;
    }
    let (_, rest) = line.split_at(from);
    let start = from + blanks_in_front(rest);
    let (_, rest) = line.split_at(start);
    let count = length_of_word(rest);
    if count == 0 {
        return None;
    }
    Some(Span {
        start,
        end: start + count,
    })
}

/// The bytes between the quote at a place and the next quote, none where either is missing. Time: the bytes
/// up to that quote.
pub fn read_quoted(line: &[u8], from: usize) -> Option<Span>
    ensures part { result ≡ quoted_at line.now from }
    ensures within { IfSome result (λ part. (part.start ≤ part.end) × (part.end ≤ length line.now)) }
{
    if from >= line.len() || line[from] != b'"' {
        return None;
    }
    let start = from + 1;
    let (_, rest) = line.split_at(start);
    let end = start + length_before(b'"', rest);
    if end == line.len() {
        return None;
    }
    Some(Span { start, end })
}

fn digit_value_of(byte: u8) -> u8
    ensures { result ≡ digit_value byte }
{
    match byte {
        b'0'..=b'9' => byte - 48,
        b'A'..=b'Z' => byte - 55,
        b'a'..=b'z' => byte - 87,
        _ => 36,
    }
}

fn digits_in_front(base: u8, bytes: &[u8]) -> usize
    ensures count { result ≡ prefix_len (λ byte. is_digit byte base) bytes.now }
    ensures within { result ≤ length bytes.now }
{
    bytes
        .iter()
        .take_while(|byte| digit_value_of(**byte) < base)
        .count()
}

/// One digit more, where the number stays within a u64.
fn with_digit(base: u8, value: u64, digit: u8) -> Option<u64>
    ensures some { IfSome result (λ next. (next ≡ value * base + digit_value digit) × (next < 2 ^ 64)) }
    ensures none { IfNone result (2 ^ 64 ≤ value * base + digit_value digit) }
{
    match value.checked_mul(u64::from(base)) {
        Some(product) => product.checked_add(u64::from(digit_value_of(digit))),
        None => None,
    }
}

#[tactic(auto, using(crate::proofs::Numbers::passes_u64))]
fn spelled(base: u8, digits: &[u8]) -> Option<u64>
    requires { 0 < base }
    ensures { result ≡ (if nat_lt (number_spelled base digits.now) (2 ^ 64) then Some (number_spelled base digits.now) else None) }
{
    let mut value = 0u64;
    let mut rest = digits;
    while let [digit, after @ ..] = rest {
        match with_digit(base, value, *digit) {
            Some(next) => value = next,
            None => return None,
        }
        rest = after;
    }
    Some(value)
}

/// The number of the longest run of decimal digits at a place, zeros in front included, and the place after
/// it. None where no digit stands there, or the number passes a u64. Time: the digits.
pub fn read_dec(line: &[u8], from: usize) -> Option<(u64, usize)>
    ensures number { result ≡ dec_at line.now from }
    ensures within { IfSome result (λ found. (from < found.1) × (found.1 ≤ length line.now)) }
{
    if from >= line.len() {
        return None;
    }
    let (_, rest) = line.split_at(from);
    let count = digits_in_front(10, rest);
    if count == 0 {
        return None;
    }
    let (digits, _) = rest.split_at(count);
    match spelled(10, digits) {
        Some(value) => Some((value, from + count)),
        None => None,
    }
}

fn before_last_quote(bytes: &[u8]) -> Option<&[u8]>
    ensures { option_map (λ front. front.now) result ≡ (if list_any is_quote bytes.now then Some (before_last is_quote bytes.now) else None) }
{
    let mut rest = bytes;
    while let [front @ .., byte] = rest {
        if *byte == b'"' {
            return Some(front);
        }
        rest = front;
    }
    None
}

/// The bytes between the quote at a place and the last quote of the line, none where either is missing. Time:
/// the bytes behind the last quote.
pub fn read_desc(line: &[u8], from: usize) -> Option<Span>
    ensures part { result ≡ desc_at line.now from }
    ensures within { IfSome result (λ part. (part.start ≤ part.end) × (part.end ≤ length line.now)) }
{
    if from >= line.len() || line[from] != b'"' {
        return None;
    }
    let start = from + 1;
    let (_, rest) = line.split_at(start);
    match before_last_quote(rest) {
        Some(front) => Some(Span {
            start,
            end: start + front.len(),
        }),
        None => None,
    }
}

/// The number of the longest run of hexadecimal digits at a place, of either case, and the place after it.
/// None where no digit stands there, or more than 16 do. Time: the digits.
#[tactic(auto, using(crate::proofs::Numbers::hex_fits))]
pub fn read_hex(line: &[u8], from: usize) -> Option<(u64, usize)>
    ensures number { result ≡ hex_at line.now from }
    ensures within { IfSome result (λ found. (from < found.1) × (found.1 ≤ length line.now)) }
{
    if from >= line.len() {
        return None;
    }
    let (_, rest) = line.split_at(from);
    let count = digits_in_front(16, rest);
    if count == 0 || count > 16 {
        return None;
    }
    let (digits, _) = rest.split_at(count);
    match spelled(16, digits) {
        Some(value) => Some((value, from + count)),
        None => None,
    }
}
