// The attributes of a group.
ghost use Rattle.std.specs.Prelude.{◌≡◌, ◌<◌, ◌≤◌, length, IfSome};
ghost use Rattle.std.specs.Iterator.{YieldsFirstBy, item_count};
ghost use Rattle.ipp.specs.declared.attributes.Fault.TheVariants.{Bytes};
ghost use Rattle.ipp.specs.Attributes.{attributes, attributes_from, attributes_in, distinct_names, named_of, values_in, values_of};
ghost use Rattle.ipp.specs.Walk.{items_in};

use crate::bytes;
use crate::items::{Item, Items};
use crate::values::{Value, Values};
use std::error::Error;
use std::fmt;

#[derive(Clone, Copy, Debug, PartialEq, Eq)]
pub enum Fault {
    // a fault of the bytes below
    Bytes(bytes::Fault),
    // an item begins with 0x00
    ZeroTag,
    // a further value with no attribute before it in its group
    StrayValue,
    // a value that is no integer or no boolean where one has to stand
    Value,
}

// Written out, as the like of the other errors: a derived one would not say which fault it gives.
impl From<bytes::Fault> for Fault {
    ghost from_gives = { λ e r. r ≡ Bytes e };

    fn from(e: bytes::Fault) -> Fault {
        Fault::Bytes(e)
    }
}

impl fmt::Display for Fault {
    fn fmt<W: fmt::Write>(&self, f: &mut fmt::Formatter<W>) -> fmt::Result {
        match self {
            Fault::Bytes(e) => e.fmt(f),
            Fault::ZeroTag => f.write_str("an item begins with 0x00"),
            Fault::StrayValue => f.write_str("a further value with no attribute before it"),
            Fault::Value => f.write_str("a value of the wrong form"),
        }
    }
}

impl Error for Fault {}

#[derive(Clone, Copy, Debug)]
pub struct Attribute<'a> {
    pub name: &'a [u8],
    pub values: Values<'a>,
}

// The first attribute among the items in their group, and the items behind its first value.
pub fn next_attribute<'a>(mut items: Items<'a>) -> Option<(Attribute<'a>, Items<'a>)>
    ensures attributes { attributes_from result ≡ attributes (items_in items.entry) }
    ensures within { IfSome result (λ p. (items.entry.at < p.1.at) × (p.1.at ≤ length items.entry.src.now)) }
    ensures src { IfSome result (λ p. p.1.src.now ≡ items.entry.src.now) }
{
    while let Some(item) = items.next() {
        match item {
            Item::Attribute { tag, name, value } => {
                let first = Value {
                    tag,
                    bytes: value.bytes,
                };
                let attribute = Attribute {
                    name: name.bytes,
                    values: Values::new(first, items),
                };
                return Some((attribute, items));
            }
            Item::Further { .. } => {}
            _ => return None,
        }
    }
    None
}

// The attributes of a group, from an item on.
#[derive(Clone, Copy, Debug)]
pub struct Attributes<'a> {
    items: Items<'a>,
}

impl<'a> Attributes<'a> {
    // Those up to the next group mark.
    pub fn new(items: Items<'a>) -> Attributes<'a>
        ensures { attributes_in result ≡ attributes (items_in items.entry) }
    {
        Attributes { items }
    }

    // The values of the first attribute of that name; none where there is no such attribute.
    pub fn find_values(self, name: &[u8]) -> Values<'a>
        ensures { values_in result ≡ values_of name.now (attributes_in self.entry) }
    {
        for attribute in self {
            if attribute.name == name {
                return attribute.values;
            }
        }
        Values::none()
    }

    // Whether no name stands twice.
    pub fn names_differ(mut self) -> bool
        ensures { result ≡ distinct_names (attributes_in self.entry) }
    {
        while let Some(attribute) = self.next() {
            if self.find_values(attribute.name).first().is_some() {
                return false;
            }
        }
        true
    }
}

impl<'a> Iterator for Attributes<'a> {
    type Item = Attribute<'a>;

    ghost next_gives = { YieldsFirstBy named_of attributes_in };

    ghost remaining = { item_count attributes_in };

    // The walk does not go past the mark behind the group, so that nothing comes after the last attribute.
    fn next(&mut self) -> Option<Attribute<'a>> {
        let (attribute, behind) = next_attribute(self.items)?;
        self.items = behind;
        Some(attribute)
    }
}
