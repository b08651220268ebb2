// The numbers of a mappings text.
ghost use Rattle.std.specs.Prelude.{◌≡◌, ◌+◌, ◌*◌, ◌<◌, ◌≤◌, ◌^◌, ◌++◌, ◌==◌, if◌then◌else◌, IfSome, None, OnOk, length};
ghost use Rattle.std.specs.String.{string_bytes};
ghost use Rattle.source_map.specs.Answers.{PutsNumbers, with_sixth};
ghost use Rattle.source_map.specs.Vlq.{digit_code, digit_of, number_text, numbers};

use crate::segment::MapFault;
use css_text::stop::Stop;
use std::alloc::AllocError;

/// The number of a digit of the Base64 alphabet.
#[tactic(auto, unfolding(crate::specs::Vlq::digit_of))]
fn digit_of(byte: u8) -> Option<u8>
    ensures value { result ≡ digit_of byte }
    ensures small { IfSome result (λ d. d < 64) }
{
    if byte >= b'A' && byte <= b'Z' {
        Some(byte - b'A')
    } else if byte >= b'a' && byte <= b'z' {
        Some(byte - 71)
    } else if byte >= b'0' && byte <= b'9' {
        Some(byte + 4)
    } else if byte == b'+' {
        Some(62)
    } else if byte == b'/' {
        Some(63)
    } else {
        None
    }
}

/// The digit that a byte is behind so many digits of its number, which has seven at most.
fn digit_behind(digits: u32, byte: u8) -> Option<u8>
    ensures value { result ≡ (if digits == 7 then None else digit_of byte) }
    ensures small { IfSome result (λ d. d < 64) }
{
    if digits == 7 { None } else { digit_of(byte) }
}

/// The digit of the Base64 alphabet of a number.
fn digit_code(digit: u8) -> u8
    requires { digit < 64 }
    ensures value { result ≡ digit_code digit }
    ensures ascii { result < 128 }
{
    if digit < 26 {
        digit + b'A'
    } else if digit < 52 {
        digit + 71
    } else if digit < 62 {
        digit - 4
    } else if digit == 62 {
        b'+'
    } else {
        b'/'
    }
}

/// The number that the digits so far make, how many they are, and what a further digit counts for.
#[derive(Clone, Copy)]
struct Number {
    value: u64,
    digits: u32,
    weight: u64,
}

impl Number {
    fn new() -> Number
        ensures { result ≡ record { value = 0; digits = 0; weight = 1 } }
    {
        Number {
            value: 0,
            digits: 0,
            weight: 1,
        }
    }

    /// With five more bits above.
    fn with(self, bits: u8) -> Number
        requires bits { bits < 32 }
        requires digits { self.digits < 7 }
        requires weight { self.weight ≤ 2 ^ 30 }
        requires value { self.value < self.weight }
        ensures { result ≡ record { value = self.value + self.weight * bits; digits = self.digits + 1; weight = self.weight * 32 } }
    {
        Number {
            value: self.value + self.weight * bits as u64,
            digits: self.digits + 1,
            weight: self.weight * 32,
        }
    }
}

fn put(fields: &mut Vec<u64>, number: u64) -> Result<(), AllocError>
    ensures { OnOk result (fields.new.items ≡ with_sixth fields.old.items number) }
{
    if fields.len() < 6 {
        fields.push(number)?;
    }
    Ok(())
}

/// Puts the first six numbers of a slot that begins at the byte `at` in the list. It has room for six.
pub fn put_numbers(slot: &[u8], at: u32, fields: &mut Vec<u64>) -> Result<(), Stop<MapFault>>
    requires { at + length slot.now < 2 ^ 32 }
    ensures { PutsNumbers (numbers at 0 slot.now) fields.new.items result }
{
    fields.clear();
    let mut number = Number::new();
    for (i, byte) in slot.iter().enumerate() {
        let digit = match digit_behind(number.digits, *byte) {
            Some(digit) => digit,
            None => return Err(Stop::Fault(MapFault { at: at + i as u32 })),
        };
        if digit < 32 {
            let whole = number.with(digit);
            match put(fields, whole.value) {
                Ok(()) => {}
                Err(error) => return Err(Stop::Memory(error)),
            }
            number = Number::new();
        } else {
            number = number.with(digit - 32);
        }
    }
    if number.digits == 0 {
        Ok(())
    } else {
        Err(Stop::Fault(MapFault {
            at: at + slot.len() as u32,
        }))
    }
}

/// Adds the text of a number.
pub fn push_number(text: &mut String, number: u64) -> Result<(), AllocError>
    requires { number < 2 ^ 35 }
    ensures { OnOk result (string_bytes text.new ≡ string_bytes text.old ++ number_text number) }
{
    let mut rest = number;
    while rest >= 32 {
        text.push(digit_code((rest % 32) as u8 + 32) as char)?;
        rest /= 32;
    }
    text.push(digit_code(rest as u8) as char)?;
    Ok(())
}
