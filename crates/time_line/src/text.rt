//! Ends, instants and marks as texts: an end is a number, or a word where it is absent.
ghost use Rattle.std.specs.Prelude.{◌≡◌, ℕ, ◌+◌, ◌*◌, ◌-◌, ◌^◌, ◌≤◌, ◌<◌, ◌↔◌, ◌++◌, ◌∷◌, unsigned_abs, length, List, Some, Ok, Err, IsTrue, IfOk, IfSome, IfNone};
ghost use Rattle.std.specs.List.{AllByRecursion};
ghost use Rattle.std.specs.Option.{SomeIff};
ghost use Rattle.std.specs.Fmt.{decimal};
ghost use Rattle.time_line.specs.Span.{IsWithinLimit, IsWithinInstants};
ghost use Rattle.time_line.specs.Numeral.{IsDigit, IsPositive, IsNumber, IsMark, value_of, number_of, word_of, IsEnd, end_text};

use std::marker::Model;

/// The greatest distance of an end from 0.
const LIMIT: u64 = 1_000_000_000_000_000;

/// The greatest distance of an instant from 0.
const INSTANT_LIMIT: u64 = 2_000_000_000_000_000;

/// Which end of a span a text is.
#[derive(Clone, Copy, Debug, PartialEq, Eq)]
pub enum Side {
    /// Where the span starts.
    Start,
    /// Where the span stops.
    End,
}

impl Side {
    // The word for an absent end.
    fn word(self) -> &'static [u8]
        ensures { result.now ≡ word_of self }
    {
        match self {
            Side::Start => b"-inf",
            Side::End => b"inf",
        }
    }
}

/// Why a text is no end.
#[derive(Clone, Copy, Debug, PartialEq, Eq)]
pub enum EndFault {
    /// The text is neither the word of its side nor a number.
    E1,
    /// The number is outside the limit.
    E2,
}

/// The text of an end, in at most 17 bytes.
#[derive(Debug, Drop)]
pub struct EndText {
    bytes: [u8; 17],
    start: usize,
}

impl Model for EndText {
    ghost use Rattle.std.specs.Prelude.{ℕ, ◌≤◌, List, drop};

    ghost Value = { List ℕ };

    ghost view = { λ t. drop t.start t.bytes };

    ghost invariant = { λ t. t.start ≤ 17 };
}

impl EndText {
    /// The bytes of the text.
    pub fn as_bytes(&self) -> &[u8]
        ensures value { result.now ≡ self.now }
        ensures short { length self.now ≤ 17 }
    {
        &self.bytes[self.start..]
    }

    // A text of these bytes.
    fn new(bytes: &[u8]) -> Self
        requires { length bytes.now ≤ 17 }
        ensures { result ≡ bytes.now }
    {
        let start = 17 - bytes.len();
        let mut text = EndText {
            bytes: [0; 17],
            start,
        };
        text.bytes[start..].copy_from_slice(bytes);
        text
    }

    // Puts a byte before the others.
    fn prepend(&mut self, byte: u8)
        requires { length self.old < 17 }
        ensures { self.new ≡ byte ∷ self.old }
    {
        self.start -= 1;
        self.bytes[self.start] = byte;
    }

    // Puts the digits of a number before the others.
    fn prepend_number(&mut self, number: u64)
        requires { length (decimal number) + length self.old ≤ 17 }
        ensures { self.new ≡ decimal number ++ self.old }
    {
        let mut rest = number;
        while rest >= 10 {
            self.prepend(b'0' + (rest % 10) as u8);
            rest /= 10;
        }
        self.prepend(b'0' + rest as u8);
    }
}

/// The end that the text is.
pub fn read_end(bytes: &[u8], side: Side) -> Result<Option<i64>, EndFault>
    ensures value { IfOk result (λ end. IsEnd side bytes.now end × IsWithinLimit end) }
    ensures form { (result ≡ Err EndFault.E1)
        ↔ (¬ (bytes.now ≡ word_of side) × ¬ IsNumber bytes.now) }
    ensures limit { (result ≡ Err EndFault.E2)
        ↔ (IsNumber bytes.now × ¬ IsWithinLimit (Some (number_of bytes.now))) }
{
    if bytes == side.word() {
        return Ok(None);
    }
    let number = read_number(bytes, LIMIT)?;
    Ok(Some(number))
}

/// The instant that the text is: a number, and no word.
pub fn read_instant(bytes: &[u8]) -> Result<i64, EndFault>
    ensures value { IfOk result (λ t. IsNumber bytes.now × (number_of bytes.now ≡ t)) }
    ensures within { IfOk result (λ t. IsWithinInstants (Some t)) }
    ensures form { (result ≡ Err EndFault.E1) ↔ ¬ IsNumber bytes.now }
    ensures limit { (result ≡ Err EndFault.E2)
        ↔ (IsNumber bytes.now × ¬ IsWithinInstants (Some (number_of bytes.now))) }
{
    read_number(bytes, INSTANT_LIMIT)
}

// The number that the text is, where it is no farther from 0 than the limit.
fn read_number(bytes: &[u8], limit: u64) -> Result<i64, EndFault>
    requires { limit < 2 ^ 63 }
    ensures value { IfOk result (λ n. IsNumber bytes.now × (number_of bytes.now ≡ n)) }
    ensures within { IfOk result (λ n. unsigned_abs n ≤ limit) }
    ensures form { (result ≡ Err EndFault.E1) ↔ ¬ IsNumber bytes.now }
    ensures limit { (result ≡ Err EndFault.E2)
        ↔ (IsNumber bytes.now × (limit < unsigned_abs (number_of bytes.now))) }
{
    match bytes {
        b"0" => Ok(0),
        [b'-', digits @ ..] => Ok(-(read_positive(digits, limit)? as i64)),
        digits => Ok(read_positive(digits, limit)? as i64),
    }
}

/// The number of a mark such as `?7`, where the text is one whose number fits.
pub fn read_mark(bytes: &[u8]) -> Option<u64>
    ensures value { IfSome result (λ n. IsMark bytes.now n) }
    ensures none { IfNone result ((n : ℕ) → n < 2 ^ 64 → ¬ IsMark bytes.now n) }
{
    match bytes {
        [b'?', digits @ ..] => read_positive(digits, u64::MAX).ok(),
        _ => None,
    }
}

/// The number that digits are, where the first is not 0. The limit may be any number of 64 bits.
pub fn read_positive(digits: &[u8], limit: u64) -> Result<u64, EndFault>
    ensures value { IfOk result (λ n. IsPositive digits.now × (value_of digits.now ≡ n)) }
    ensures within { IfOk result (λ n. n ≤ limit) }
    ensures form { (result ≡ Err EndFault.E1) ↔ ¬ IsPositive digits.now }
    ensures limit { (result ≡ Err EndFault.E2)
        ↔ (IsPositive digits.now × (limit < value_of digits.now)) }
{
    if !is_positive(digits) {
        return Err(EndFault::E1);
    }
    magnitude_of(digits, limit).ok_or(EndFault::E2)
}

// Whether the text is digits, and the first is not 0.
fn is_positive(digits: &[u8]) -> bool
    ensures { IsTrue result ↔ IsPositive digits.now }
{
    match digits {
        [first, rest @ ..] => (b'1'..=b'9').contains(first) && are_digits(rest),
        [] => false,
    }
}

fn are_digits(bytes: &[u8]) -> bool
    ensures { IsTrue result ↔ AllByRecursion IsDigit bytes.now }
{
    bytes.iter().all(|byte| byte.is_ascii_digit())
}

// What the digits stand for, where that is within the limit.
fn magnitude_of(digits: &[u8], limit: u64) -> Option<u64>
    requires { AllByRecursion IsDigit digits.now }
    ensures { SomeIff result (value_of digits.now ≤ limit) (value_of digits.now) }
{
    let mut value = 0;
    for digit in digits {
        let Some(longer) = with_digit(value, *digit, limit) else {
            return None;
        };
        value = longer;
    }
    Some(value)
}

// What a number stands for with one more digit, where that is within the limit.
fn with_digit(value: u64, digit: u8, limit: u64) -> Option<u64>
    requires { IsDigit digit }
    ensures { SomeIff result (10 * value + (digit - 48) ≤ limit) (10 * value + (digit - 48)) }
{
    let unit = u64::from(digit - b'0');
    let longer = value.checked_mul(10)?.checked_add(unit)?;
    if longer <= limit { Some(longer) } else { None }
}

/// The one text of an end.
pub fn write_end(end: Option<i64>, side: Side) -> EndText
    requires { IsWithinInstants end }
    ensures { result ≡ end_text side end }
{
    let Some(end) = end else {
        return EndText::new(side.word());
    };
    let mut text = EndText::new(b"");
    text.prepend_number(end.unsigned_abs());
    if end < 0 {
        text.prepend(b'-');
    }
    text
}
