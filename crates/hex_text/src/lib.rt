// Hexadecimal text and the bytes that it stands for, two digits a byte.
#![tactic(auto)]

ghost use Rattle.std.specs.Prelude.{◌≡◌, ◌<◌, IfOk, string_bytes};
ghost use Rattle.hex_text.specs.declared.HexFault.TheVariants.{Memory};
ghost use Rattle.hex_text.specs.Hex.{digit_of, byte_of, bytes_of, char_of, fault_alone, Says, text_of, ReadsBack};

use std::alloc::{AllocError, AllocFailed, Global};
use std::error::Error;
use std::fmt;

#[derive(Clone, Copy, Debug, PartialEq, Eq)]
pub enum HexFault {
    // A character is no hexadecimal digit.
    Digit,
    // All are digits, and their number is odd.
    Odd,
    // There is no memory for the bytes.
    Memory,
}

impl fmt::Display for HexFault {
    fn fmt<W: fmt::Write>(&self, f: &mut fmt::Formatter<W>) -> fmt::Result {
        f.write_str(match self {
            HexFault::Digit => "not hexadecimal",
            HexFault::Odd => "odd number of digits",
            HexFault::Memory => "out of memory",
        })
    }
}

impl Error for HexFault {}

impl<T: Drop> From<AllocFailed<T>> for HexFault {
    ghost from_gives = { λ _ r. r ≡ Memory };

    fn from(_refused: AllocFailed<T>) -> HexFault {
        HexFault::Memory
    }
}

fn digit(c: u8) -> Result<u8, HexFault>
    ensures value { result ≡ digit_of c }
    ensures small { IfOk result (λ d. d < 16) }
{
    let d = char::from(c).to_digit(16).ok_or(HexFault::Digit)?;
    Ok(d as u8)
}

fn byte(high: u8, low: u8) -> Result<u8, HexFault>
    ensures { result ≡ byte_of high low }
{
    Ok(digit(high)? * 16 + digit(low)?)
}

// Why a character that stands alone gives no byte.
fn fault_alone(c: u8) -> HexFault
    ensures { result ≡ fault_alone (digit_of c) }
{
    match digit(c) {
        Ok(_) => HexFault::Odd,
        Err(fault) => fault,
    }
}

// The bytes of a text of digits, upper or lower case.
#[tactic(auto, using(crate::proofs::Reading::says, crate::proofs::Reading::alone_left))]
pub fn decode(heap: Global, text: &[u8]) -> Result<Vec<u8>, HexFault>
    ensures { Says (bytes_of text.now) result }
{
    let (pairs, rest) = text.as_chunks::<2>();
    let mut bytes = Vec::new(heap);
    for [high, low] in pairs {
        bytes.push(byte(*high, *low)?)?;
    }
    match rest {
        [] => Ok(bytes),
        [alone, ..] => Err(fault_alone(*alone)),
    }
}

// The digit of a number below 16, in lower case.
fn digit_char(n: u8) -> char
    requires { n < 16 }
    ensures value { result ≡ char_of n }
    ensures ascii { result < 128 }
{
    char::from_digit(u32::from(n), 16).unwrap()
}

// The digits of the bytes, in lower case. Not by a format `{b:02x}`, which takes more than twice the time.
pub fn encode(heap: Global, bytes: &[u8]) -> Result<String, AllocError>
    ensures { IfOk result (λ s. string_bytes s ≡ text_of bytes.now) }
{
    let mut text = String::new(heap);
    for b in bytes {
        text.push(digit_char(*b / 16))?;
        text.push(digit_char(*b % 16))?;
    }
    Ok(text)
}

// What `encode` writes, `decode` reads back.
pub fn texts_read_back()
    ensures { ReadsBack }
{}
