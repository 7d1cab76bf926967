// The rules on the attributes of the operation group.
ghost use Rattle.std.specs.Prelude.{◌≡◌, ◌==◌, is_ok};
ghost use Rattle.ipp.specs.Attributes.{attributes_in, named_of, values_in};
ghost use Rattle.ipp.specs.Values.{positive_of};
ghost use Rattle.request.specs.Rules.{all_from_one, all_named, all_tagged, checked, good_ids, good_numbers, good_wait, is_named, leading, operands_in, operands_of, only_plural, outcome_in, single, starts};

use crate::{Fault, Operands};
use ipp::attributes::{Attribute, Attributes};
use ipp::values::{Value, Values, boolean, positive};

// Tags stay numbers: any from 0x10 on may stand in a request, and the rules look at these five.
pub const INTEGER: u8 = 0x21;

pub const BOOLEAN: u8 = 0x22;

pub const URI: u8 = 0x45;

pub const CHARSET: u8 = 0x47;

pub const LANGUAGE: u8 = 0x48;

// Whether the first value is there, and has that tag.
fn starts(values: Values, tag: u8) -> bool
    ensures { result ≡ starts tag (values_in values.entry) }
{
    values.first().is_some_and(|first| first.tag == tag)
}

// Whether a value is an integer from 1 on.
fn is_from_one(value: Value) -> bool
    ensures { result ≡ is_ok (positive_of value.entry.bytes.now) }
{
    positive(value.bytes).is_ok()
}

// Whether a value has that tag.
fn is_tagged(value: Value, tag: u8) -> bool
    ensures { result ≡ (value.entry.tag == tag) }
{
    value.tag == tag
}

// Whether each value is an integer from 1 on.
fn all_from_one(mut values: Values) -> bool
    ensures { result ≡ all_from_one (values_in values.entry) }
{
    values.all(|value| is_from_one(value))
}

// Whether each value has that tag.
fn all_tagged(mut values: Values, tag: u8) -> bool
    ensures { result ≡ all_tagged tag (values_in values.entry) }
{
    values.all(|value| is_tagged(value, tag))
}

// Whether an attribute has that name, and its first value that tag.
fn is_named(attribute: &Attribute, name: &[u8], tag: u8) -> bool
    ensures { result ≡ is_named name.now tag (named_of attribute.now) }
{
    attribute.name == name && starts(attribute.values, tag)
}

// Whether attributes-charset is the first attribute, and attributes-natural-language the second.
pub fn leads(mut attributes: Attributes) -> bool
    ensures { result ≡ leading (attributes_in attributes.entry) }
{
    let (Some(first), Some(second)) = (attributes.next(), attributes.next()) else {
        return false;
    };
    is_named(&first, b"attributes-charset", CHARSET)
        && is_named(&second, b"attributes-natural-language", LANGUAGE)
}

// The values of the attributes that the rules name.
pub fn find_operands<'a>(attributes: Attributes<'a>) -> Operands<'a>
    ensures { operands_in result ≡ operands_of (attributes_in attributes.entry) }
{
    Operands {
        charset: attributes.find_values(b"attributes-charset"),
        language: attributes.find_values(b"attributes-natural-language"),
        uri: attributes.find_values(b"printer-uri"),
        ids: attributes.find_values(b"notify-subscription-ids"),
        numbers: attributes.find_values(b"notify-sequence-numbers"),
        wait: attributes.find_values(b"notify-wait"),
    }
}

// Whether the ids are integers from 1 on, at least one, none twice.
pub fn ids_stand(ids: Values) -> bool
    ensures { result ≡ good_ids (values_in ids.entry) }
{
    starts(ids, INTEGER) && all_from_one(ids) && ids.numbers_differ()
}

// Whether the sequence numbers, if any, are integers from 1 on. By a match: with `is_none_or` the
// search for a proof stops at its bound.
pub fn numbers_stand(numbers: Values) -> bool
    ensures { result ≡ good_numbers (values_in numbers.entry) }
{
    match numbers.first() {
        Some(first) => first.tag == INTEGER && all_from_one(numbers),
        None => true,
    }
}

// Whether notify-wait, if there, is a boolean.
pub fn wait_stands(wait: Values) -> bool
    ensures { result ≡ good_wait (values_in wait.entry) }
{
    match wait.first() {
        Some(first) => first.tag == BOOLEAN && boolean(first.bytes).is_ok(),
        None => true,
    }
}

// Whether a printer-uri, which is a URI by its tag, is there.
pub fn has_uri(uri: Values) -> bool
    ensures { result ≡ starts 0x45 (values_in uri.entry) }
{
    starts(uri, URI)
}

// Whether there is at most one value.
pub fn is_single(mut values: Values) -> bool
    ensures { result ≡ single (values_in values.entry) }
{
    values.nth(1).is_none()
}

// Whether only the ids and the sequence numbers have further values, each with an integer's tag.
pub fn only_plural_go_on(named: Operands) -> bool
    ensures { result ≡ only_plural (operands_in named.entry) }
{
    is_single(named.charset)
        && is_single(named.language)
        && is_single(named.uri)
        && is_single(named.wait)
        && all_tagged(named.ids, INTEGER)
        && all_tagged(named.numbers, INTEGER)
}

// The values that the rules name, if the rules on them hold; else the first rule that does not.
pub fn check_values<'a>(named: Operands<'a>) -> Result<Operands<'a>, Fault>
    ensures { outcome_in result ≡ all_named (operands_in named.entry) }
{
    if !has_uri(named.uri) {
        return Err(Fault::PrinterUri);
    }
    if !ids_stand(named.ids) {
        return Err(Fault::SubscriptionIds);
    }
    if !numbers_stand(named.numbers) {
        return Err(Fault::SequenceNumbers);
    }
    if !wait_stands(named.wait) {
        return Err(Fault::Wait);
    }
    if !only_plural_go_on(named) {
        return Err(Fault::FurtherValues);
    }
    Ok(named)
}

// The values that the rules name, if the rules on the group hold; else the first that does not.
pub fn check_group<'a>(attributes: Attributes<'a>) -> Result<Operands<'a>, Fault>
    ensures { outcome_in result ≡ checked (attributes_in attributes.entry) }
{
    if !attributes.names_differ() {
        return Err(Fault::NameTwice);
    }
    if !leads(attributes) {
        return Err(Fault::FirstTwo);
    }
    check_values(find_operands(attributes))
}
