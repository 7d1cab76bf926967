// The items of a request: group marks, attributes, further values and the end.
ghost use Rattle.std.specs.Prelude.{◌≡◌, ◌<◌, ◌≤◌, ◌+◌, false, length, ⊤, IfOk, IfSome};
ghost use Rattle.std.specs.Iterator.{MakesProgress, YieldsFirstBy, item_count};
ghost use Rattle.ipp.specs.Attributes.{any_mark, is_mark};
ghost use Rattle.ipp.specs.declared.attributes.Fault.TheVariants.{Bytes};
ghost use Rattle.ipp.specs.Bytes.{counted_at};
ghost use Rattle.ipp.specs.Items.{shown, next_item, piece_of, then, valued};
ghost use Rattle.ipp.specs.Walk.{opened, end_from, items_from, items_in};

use crate::attributes::Fault;
use crate::bytes::{self, Part, counted};

#[derive(Clone, Copy, Debug, PartialEq, Eq)]
pub enum Item<'a> {
    // a group begins
    Mark(u8),
    // an attribute with its first value
    Attribute {
        tag: u8,
        name: Part<'a>,
        value: Part<'a>,
    },
    // one more value of the attribute before it: its name is empty
    Further {
        tag: u8,
        value: Part<'a>,
    },
    // no item follows
    End,
}

impl<'a> Item<'a> {
    // Whether it is that group mark.
    pub fn is_mark(self, mark: u8) -> bool
        ensures { result ≡ is_mark mark (piece_of self.entry) }
    {
        matches!(self, Item::Mark(m) if m == mark)
    }
}

pub const END: u8 = 0x03;

// Tags of values begin here; below stand the marks of groups and of the end. They stay numbers, since
// a message may have any of them.
pub const FIRST_VALUE_TAG: u8 = 0x10;

// The item at `at`, with the place past it.
pub fn next_item<'a>(src: &'a [u8], at: usize) -> Result<(Item<'a>, usize), Fault>
    ensures item { shown result ≡ next_item src.now at }
    ensures within { IfOk result (λ q. (at < q.1) × (q.1 ≤ length src.now)) }
{
    let Some(tag) = src.get(at).copied() else {
        return Err(Fault::Bytes(bytes::Fault::CutShort));
    };
    match tag {
        0x00 => Err(Fault::ZeroTag),
        END => Ok((Item::End, at + 1)),
        0x01..FIRST_VALUE_TAG => Ok((Item::Mark(tag), at + 1)),
        _ => next_value(src, at, tag),
    }
}

// The item of that tag at `at`: an attribute, or with an empty name a further value.
fn next_value<'a>(src: &'a [u8], at: usize, tag: u8) -> Result<(Item<'a>, usize), Fault>
    requires { at < length src.now }
    ensures { shown result ≡ then Bytes (counted_at src.now (at + 1)) (λ n. then Bytes (counted_at src.now n.1) (valued tag n)) }
{
    let (name, middle) = counted(src, at + 1)?;
    let (value, next) = counted(src, middle)?;
    let item = if name.bytes.is_empty() {
        Item::Further { tag, value }
    } else {
        Item::Attribute { tag, name, value }
    };
    Ok((item, next))
}

// The items from a place on, up to the end or to where none can be read. It is copied to walk from there again.
#[derive(Clone, Copy, Debug)]
pub struct Items<'a> {
    src: &'a [u8],
    // where the first of them stands
    pub at: usize,
}

impl<'a> Items<'a> {
    pub fn new(src: &'a [u8], at: usize) -> Items<'a>
        ensures items { items_in result ≡ items_from src.now at }
        ensures from { (result.src.now ≡ src.now) × (result.at ≡ at) }
    {
        Items { src, at }
    }

    // Whether a group with that mark begins there.
    pub fn has_group(mut self, mark: u8) -> bool
        ensures { result ≡ any_mark mark (items_in self.entry) }
    {
        self.any(|item| item.is_mark(mark))
    }
}

impl<'a> Iterator for Items<'a> {
    type Item = Item<'a>;

    ghost next_gives = { YieldsFirstBy piece_of items_in };

    ghost remaining = { item_count items_in };

    // Those that are left stand behind the item.
    #[tactic(auto, using(crate::proofs::Walking::items_are, crate::proofs::Walking::linked_more))]
    fn next(&mut self) -> Option<Item<'a>>
        ensures steps { YieldsFirstBy piece_of items_in self.old result self.new }
        ensures goes { MakesProgress (λ _. ⊤) (item_count items_in) self.old result self.new }
        ensures within { IfSome result (λ _. (self.old.at < self.new.at) × (self.new.at ≤ length self.old.src.now)) }
        ensures src { self.new.src ≡ self.old.src }
    {
        let Ok((item, next)) = next_item(self.src, self.at) else {
            return None;
        };
        if let Item::End = item {
            return None;
        }
        self.at = next;
        Some(item)
    }
}

// Whether an attribute of the same group stands before the item that follows `item`, if one stands before `item` itself.
fn opens(before: bool, item: Item) -> Result<bool, Fault>
    ensures { result ≡ opened before (piece_of item.entry) }
{
    match item {
        Item::Mark(_) => Ok(false),
        Item::Attribute { .. } => Ok(true),
        Item::Further { .. } if before => Ok(true),
        Item::Further { .. } => Err(Fault::StrayValue),
        Item::End => Ok(before),
    }
}

// Walks over all items from `start` up to the end, and answers the place past that; or the first fault.
#[tactic(auto, using(crate::proofs::Walking::walk_is, crate::proofs::Walking::turned_more))]
pub fn check_items(src: &[u8], start: usize) -> Result<usize, Fault>
    ensures { result ≡ end_from src.now (false, start) }
{
    let mut open = false;
    let mut at = start;
    // no iterator: it ends with the place past the end item, or with a fault
    loop {
        let (item, next) = next_item(src, at)?;
        if let Item::End = item {
            return Ok(next);
        }
        open = opens(open, item)?;
        at = next;
    }
}
