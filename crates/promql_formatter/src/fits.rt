//! Whether what comes fits on a line.

use crate::items::Item;
use crate::piece::{Break, Context};

/// How far to look.
#[derive(Clone, Copy, Debug, PartialEq, Eq)]
pub(crate) enum Until {
    /// To the end of the group that has begun, and then to the first place where the line may be broken.
    End,
    /// As `End`, but past operators before a number.
    EndAndNumbers,
    /// To the first place before an operator or an item where the line may be broken, outside of the groups that begin here.
    Item,
    /// As `Item`, but past operators before a number.
    ItemAndNumbers,
    /// To the first place where the line may be broken, past labels and right sides.
    Head,
    /// To the first such place between brackets that begin here.
    InnerHead,
}

/// How far was looked.
#[derive(Clone, Copy)]
struct Look {
    until: Until,
    /// How many groups are open.
    depth: usize,
    /// Whether the group that had begun has ended.
    is_past: bool,
    /// What is inside the bracket that began last, if it is open.
    context: Option<Context>,
}

impl Look {
    fn new(until: Until) -> Look {
        Look {
            until,
            depth: match until {
                Until::End | Until::EndAndNumbers => 1,
                _ => 0,
            },
            is_past: false,
            context: None,
        }
    }

    fn begin(&mut self, context: Option<Context>) {
        self.depth = self.depth.saturating_add(1);
        self.context = context;
    }

    fn end(&mut self) {
        self.depth = self.depth.saturating_sub(1);
        self.is_past = self.is_past || self.depth == 0;
        self.context = None;
    }

    /// Whether a line may end here.
    fn may_end(self) -> bool {
        match self.until {
            Until::End | Until::EndAndNumbers => self.is_past,
            Until::Item | Until::ItemAndNumbers => self.depth == 0,
            Until::Head => true,
            Until::InnerHead => self.depth > 0,
        }
    }

    /// Whether to look no further than to this place.
    fn stops_at(self, place: Break) -> bool {
        match place {
            Break::No => false,
            _ if self.context == Some(Context::Labels) || !self.may_end() => false,
            Break::Number => !matches!(self.until, Until::EndAndNumbers | Until::ItemAndNumbers),
            Break::RightSide | Break::Grouped => {
                matches!(self.until, Until::End | Until::EndAndNumbers)
            }
            _ => true,
        }
    }
}

/// Whether the items fit into so many characters, in one line. Where they begin a line, no space is before the first.
pub(crate) fn fits(items: &[Item], room: usize, is_fresh: bool, until: Until) -> bool {
    let mut left = room;
    let mut look = Look::new(until);
    let mut begins_line = is_fresh;
    for item in items {
        match *item {
            Item::Text(text) => {
                let space = usize::from(text.is_apart && !begins_line);
                let width = text.width.saturating_add(space);
                begins_line = false;
                if width > left {
                    return false;
                }
                left -= width;
            }
            Item::Comment(_) => return look.may_end() && left < room,
            Item::Break(place) if look.stops_at(place) => return true,
            Item::Comma if look.depth == 0 && left == 0 => return false,
            Item::Break(_) | Item::Comma => {}
            Item::BeginBracket(context) => look.begin(Some(context)),
            Item::BeginChain => look.begin(None),
            Item::End => look.end(),
        }
    }
    true
}

/// Whether the chain that has begun has an operator that begins a line.
pub(crate) fn has_lines(items: &[Item]) -> bool {
    let mut depth: usize = 1;
    for item in items {
        match *item {
            Item::Break(Break::Lines) if depth == 1 => return true,
            Item::BeginBracket(_) | Item::BeginChain => depth = depth.saturating_add(1),
            Item::End if depth <= 1 => return false,
            Item::End => depth = depth.saturating_sub(1),
            _ => {}
        }
    }
    false
}

/// The items of the group that has begun from its first one on, without the bracket and the place after it; none where a comment is there.
pub(crate) fn inner_items(items: &[Item]) -> &[Item] {
    match items {
        [Item::Text(_), Item::Break(_), inner @ ..] => inner,
        _ => &[],
    }
}

/// The items of the group that has begun from its closing bracket on; none where it is empty.
pub(crate) fn closing_items(items: &[Item]) -> &[Item] {
    let mut depth: usize = 1;
    let mut after: usize = 0;
    for item in items {
        after = after.saturating_add(1);
        match *item {
            Item::Break(Break::Close) if depth == 1 => return items.get(after..).unwrap_or(&[]),
            Item::BeginBracket(_) | Item::BeginChain => depth = depth.saturating_add(1),
            Item::End if depth <= 1 => return &[],
            Item::End => depth = depth.saturating_sub(1),
            _ => {}
        }
    }
    &[]
}
