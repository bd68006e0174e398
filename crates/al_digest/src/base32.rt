//! Base32 text: five bits a letter.
ghost use Rattle.std.specs.Prelude.{◌≡◌, ◌+◌, ◌*◌, ◌^◌, ◌≤◌, ◌<◌, length, get_or, MatchOption, All, OnOk};
ghost use Rattle.al_digest.specs.Base32.{letter_of, digit_of, IsLetter, letters_for, base32};
ghost use Rattle.al_digest.specs.Reading.{Decodes};

use crate::TextFault;

/// Bits that wait between bytes and letters.
#[derive(Clone, Copy)]
struct Bits {
    value: u32,
    count: u32,
    ghost few: { count ≤ 12 },
    ghost fits: { value < 2 ^ count },
}

impl Bits {
    fn none() -> Bits
        ensures value { result.value ≡ 0 }
        ensures count { result.count ≡ 0 }
    {
        Bits { value: 0, count: 0 }
    }

    // So many more bits, behind those that wait.
    fn with(self, width: u32, low: u32) -> Bits
        requires room { self.count + width ≤ 12 }
        requires fits { low < 2 ^ width }
        ensures count { result.count ≡ self.count + width }
        ensures value { result.value ≡ self.value * 2 ^ width + low }
    {
        Bits {
            value: (self.value << width) + low,
            count: self.count + width,
        }
    }

    // The highest bits, of which there are so many, and the rest.
    fn split(self, width: u32) -> (u32, Bits)
        requires { width ≤ self.count }
        ensures count { result.1.count + width ≡ self.count }
        ensures value { result.0 * 2 ^ result.1.count + result.1.value ≡ self.value }
        ensures high { result.0 < 2 ^ width }
    {
        let count = self.count - width;
        let rest = Bits {
            value: self.value % (1 << count),
            count,
        };
        (self.value >> count, rest)
    }
}

// The letter of a digit.
fn letter(digit: u8) -> u8
    requires { digit < 32 }
    ensures { result ≡ letter_of digit }
{
    if digit < 26 {
        b'A' + digit
    } else {
        b'2' + (digit - 26)
    }
}

// The digit of a letter.
fn digit(letter: u8) -> Option<u8>
    ensures { MatchOption result (IsLetter letter → ⊥) (λ d. IsLetter letter × (d ≡ digit_of letter)) }
{
    match letter {
        b'A'..=b'Z' => Some(letter - b'A'),
        b'2'..=b'7' => Some(letter - b'2' + 26),
        _ => None,
    }
}

// The byte at a place, and 0 past the end.
fn byte_at(bytes: &[u8], i: usize) -> u8
    ensures { result ≡ get_or bytes.now i 0 }
{
    if i < bytes.len() { bytes[i] } else { 0 }
}

/// Writes the text of bytes.
pub(crate) fn encode(bytes: &[u8], text: &mut [u8])
    requires { length text.old ≡ letters_for (length bytes.now) }
    ensures { text.new ≡ base32 bytes.now }
{
    let mut bits = Bits::none();
    let mut next = 0;
    for place in text.iter_mut() {
        if bits.count < 5 {
            bits = bits.with(8, u32::from(byte_at(bytes, next)));
            next += 1;
        }
        let (digit, rest) = bits.split(5);
        *place = letter(digit as u8);
        bits = rest;
    }
}

/// Reads the bytes of a text.
pub(crate) fn decode(text: &[u8], bytes: &mut [u8]) -> Result<(), TextFault>
    requires { length text.now ≡ letters_for (length bytes.old) }
    ensures reads { Decodes text.now bytes.new result }
    ensures bytes { OnOk result (All (λ b. b < 256) bytes.new) }
{
    let mut bits = Bits::none();
    let mut next = 0;
    for (at, letter) in text.iter().enumerate() {
        let Some(digit) = digit(*letter) else {
            return Err(TextFault::Letter { at });
        };
        bits = bits.with(5, u32::from(digit));
        if bits.count >= 8 {
            let (byte, rest) = bits.split(8);
            bytes[next] = byte as u8;
            next += 1;
            bits = rest;
        }
    }
    if bits.value == 0 {
        Ok(())
    } else {
        Err(TextFault::SpareBits)
    }
}
