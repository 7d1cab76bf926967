// The values of an attribute.
ghost use Rattle.std.specs.Prelude.{◌≡◌, ◌<◌, ◌≤◌, not, [], ◌∷◌, length, option_map, slice_get, ◌==◌, IfSome};
ghost use Rattle.std.specs.Iterator.{YieldsFirstBy, item_count};
ghost use Rattle.std.specs.List.{list_all};
ghost use Rattle.ipp.specs.Attributes.{furthers, tagged, values_from, values_in};
ghost use Rattle.ipp.specs.Conditions.{distinct_numbers, number_in};
ghost use Rattle.ipp.specs.Values.{boolean_of, integer_of, positive_of};
ghost use Rattle.ipp.specs.Walk.{items_in};

use crate::attributes::Fault;
use crate::items::{Item, Items};

#[derive(Clone, Copy, Debug, PartialEq, Eq)]
pub struct Value<'a> {
    pub tag: u8,
    pub bytes: &'a [u8],
}

impl Value<'_> {
    // Whether its number is another than `n`.
    fn differs_from(self, n: u32) -> bool
        ensures { result ≡ not (number_in self.entry.bytes.now == n) }
    {
        number(self.bytes) != n
    }
}

// The values of an attribute from one on: that value with the items behind it, if one is left.
#[derive(Clone, Copy, Debug)]
pub struct Values<'a> {
    next: Option<(Value<'a>, Items<'a>)>,
}

impl<'a> Values<'a> {
    // A value, and the further values that the items behind it begin with.
    pub fn new(first: Value<'a>, behind: Items<'a>) -> Values<'a>
        ensures { values_in result ≡ tagged first.entry ∷ furthers (items_in behind.entry) }
    {
        Values {
            next: Some((first, behind)),
        }
    }

    pub fn none() -> Values<'a>
        ensures { values_in result ≡ [] }
    {
        Values { next: None }
    }

    // The first of those that are left.
    pub fn first(&self) -> Option<Value<'a>>
        ensures { option_map tagged result ≡ slice_get (values_in self.now) 0 }
    {
        let (first, _) = self.next?;
        Some(first)
    }

    // Whether no number stands twice among them.
    pub fn numbers_differ(mut self) -> bool
        ensures { result ≡ distinct_numbers (values_in self.entry) }
    {
        while let Some(value) = self.next() {
            if !self.all_differ_from(number(value.bytes)) {
                return false;
            }
        }
        true
    }

    // Whether each number among them is another than `n`. Not by `all`, which reads the value behind one
    // before it looks at that one: 1.6 times the instructions for a request full of ids.
    fn all_differ_from(mut self, n: u32) -> bool
        ensures { result ≡ list_all (λ v. not (number_in v.1 == n)) (values_in self.entry) }
    {
        while let Some((value, behind)) = self.next {
            if !value.differs_from(n) {
                return false;
            }
            self.next = further_value(behind);
        }
        true
    }
}

impl<'a> Iterator for Values<'a> {
    type Item = Value<'a>;

    ghost next_gives = { YieldsFirstBy tagged values_in };

    ghost remaining = { item_count values_in };

    fn next(&mut self) -> Option<Value<'a>> {
        let (value, behind) = self.next?;
        self.next = further_value(behind);
        Some(value)
    }
}

// The further value that the items begin with, and the items behind it.
pub fn further_value<'a>(mut items: Items<'a>) -> Option<(Value<'a>, Items<'a>)>
    ensures values { values_from result ≡ furthers (items_in items.entry) }
    ensures within { IfSome result (λ p. (items.entry.at < p.1.at) × (p.1.at ≤ length items.entry.src.now)) }
    ensures src { IfSome result (λ p. p.1.src.now ≡ items.entry.src.now) }
{
    match items.next()? {
        Item::Further { tag, value } => {
            let bytes = value.bytes;
            Some((Value { tag, bytes }, items))
        }
        _ => None,
    }
}

pub fn boolean(bytes: &[u8]) -> Result<bool, Fault>
    ensures { result ≡ boolean_of bytes.now }
{
    match bytes {
        [0x00] => Ok(false),
        [0x01] => Ok(true),
        _ => Err(Fault::Value),
    }
}

pub fn integer(bytes: &[u8]) -> Result<i32, Fault>
    ensures { result ≡ integer_of bytes.now }
{
    match bytes {
        [a, b, c, d] => Ok(i32::from_be_bytes([*a, *b, *c, *d])),
        _ => Err(Fault::Value),
    }
}

// An integer from 1 on.
pub fn positive(bytes: &[u8]) -> Result<u32, Fault>
    ensures { result ≡ positive_of bytes.now }
{
    let n = integer(bytes)?;
    if n < 1 {
        return Err(Fault::Value);
    }
    Ok(n as u32)
}

// The number in a value that is an integer from 1 on; 0 in any other. 0 is no such
// integer, so a plain number says as much as an Option, and two of them are compared at once.
pub fn number(bytes: &[u8]) -> u32
    ensures { result ≡ number_in bytes.now }
{
    positive(bytes).unwrap_or(0)
}
