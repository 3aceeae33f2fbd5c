//! Writes items into lines: docs/reference/formatting.md, "Lines".

ghost use Rattle.std.specs.Prelude.{◌≤◌, IfErr, IfOk, length};
ghost use Rattle.promql_formatter.specs.Options.{HasNoLayout};

use crate::comments::between;
use crate::fits::{Until, closing_items, fits, has_lines, inner_items};
use crate::format_error::FormatError;
use crate::items::{Item, Text};
use crate::options::FormatOptions;
use crate::piece::{Break, Context};
use promql_span::limits::LongOutput;
use std::alloc::{AllocError, Global};

/// A group that is open.
#[derive(Clone, Copy)]
struct Frame {
    /// Whether it has several lines.
    is_broken: bool,
    /// Whether it is a chain with an operator that begins a line.
    has_lines: bool,
    /// Whether its brackets stay on the lines of what is in it.
    is_tight: bool,
    /// The spaces before a line of it.
    indent: usize,
    /// The spaces before its closing bracket.
    close_indent: usize,
}

/// What is written so far.
#[derive(Drop)]
struct Writer {
    /// The beginning of the layout: all of it, unless it is longer than it may be.
    out: Vec<u8>,
    /// How many bytes the layout has.
    len: usize,
    frames: Vec<Frame>,
    options: FormatOptions,
    /// How many characters the line has.
    column: usize,
    /// How many spaces the line begins with.
    line_indent: usize,
    /// Whether nothing is on the line but its indentation.
    is_fresh: bool,
    /// Whether the line ends with a comment.
    is_ended: bool,
}

/// Writes the items, whose texts are in these bytes.
///
/// # Errors
///
/// `TooLong` where they come to more bytes than a layout may have, `Memory` where an allocation failed.
pub(crate) fn written(
    alloc: Global,
    bytes: &[u8],
    items: &[Item],
    options: &FormatOptions,
) -> Result<Vec<u8>, FormatError>
    ensures within { IfOk result (λ out. length out.items ≤ options.now.max_output) }
    ensures err { IfErr result (HasNoLayout options.now) }
{
    let mut writer = Writer {
        out: Vec::with_capacity(alloc, bytes.len().min(options.max_output))?,
        len: 0,
        frames: Vec::new(alloc),
        options: *options,
        column: 0,
        line_indent: 0,
        is_fresh: true,
        is_ended: false,
    };
    let mut after: usize = 0;
    for item in items {
        after = after.saturating_add(1);
        writer.write(bytes, *item, items.get(after..).unwrap_or(&[]))?;
    }
    let len = writer.len.max(writer.out.len());
    let most = options.max_output;
    if len > most {
        return Err(FormatError::TooLong(LongOutput { len, most }));
    }
    Ok(writer.out)
}

impl Writer {
    /// Adds bytes to the layout, unless it is longer than it may be.
    fn push(&mut self, text: &[u8]) -> Result<(), AllocError> {
        self.len = self.len.saturating_add(text.len());
        if self.len <= self.options.max_output {
            self.out.extend_from_slice(text)?;
        }
        Ok(())
    }

    /// Adds so many spaces in the same way.
    fn push_spaces(&mut self, count: usize) -> Result<(), AllocError> {
        self.len = self.len.saturating_add(count);
        if self.len <= self.options.max_output {
            for _ in 0..count {
                self.out.push(b' ')?;
            }
        }
        Ok(())
    }

    /// Writes an item, before the others.
    fn write(&mut self, bytes: &[u8], item: Item, rest: &[Item]) -> Result<(), AllocError> {
        match item {
            Item::Text(text) => self.write_text(bytes, text),
            Item::Comment(text) => self.write_comment(bytes, text),
            Item::Break(place) => self.write_break(place, rest),
            Item::Comma if self.frame().is_broken => self.write_bytes(b",", 1),
            Item::Comma => Ok(()),
            Item::BeginBracket(context) => self.begin_bracket(context, rest),
            Item::BeginChain => self.begin_chain(rest),
            Item::End => {
                self.frames.pop();
                Ok(())
            }
        }
    }

    /// The group around; that of the whole text has several lines.
    fn frame(&self) -> Frame {
        match self.frames.last() {
            Some(frame) => *frame,
            None => Frame {
                is_broken: true,
                has_lines: false,
                is_tight: false,
                indent: 0,
                close_indent: 0,
            },
        }
    }

    /// How many characters are left on the line.
    fn room(&self) -> usize {
        self.options.width.saturating_sub(self.column)
    }

    fn write_bytes(&mut self, text: &[u8], width: usize) -> Result<(), AllocError> {
        self.push(text)?;
        self.column = self.column.saturating_add(width);
        self.is_fresh = false;
        Ok(())
    }

    /// An indentation of at most half of the width.
    fn capped(&self, indent: usize) -> usize {
        indent.min(self.options.width / 2)
    }

    /// Begins a line. At most half of the width is indentation.
    fn write_line(&mut self, indent: usize) -> Result<(), AllocError> {
        let indent = self.capped(indent);
        self.push(b"\n")?;
        self.push_spaces(indent)?;
        self.column = indent;
        self.line_indent = indent;
        self.is_fresh = true;
        self.is_ended = false;
        Ok(())
    }

    /// Begins a line where none may be broken, after a comment.
    fn continue_line(&mut self) -> Result<(), AllocError> {
        let indent = self.frame().indent;
        self.write_line(indent.saturating_add(self.options.indent_width))
    }

    fn write_text(&mut self, bytes: &[u8], text: Text) -> Result<(), AllocError> {
        if self.is_ended {
            self.continue_line()?;
        }
        if text.is_apart && !self.is_fresh {
            self.write_bytes(b" ", 1)?;
        }
        self.write_bytes(between(bytes, text.start, text.end), text.width)
    }

    fn write_comment(&mut self, bytes: &[u8], text: Text) -> Result<(), AllocError> {
        if self.is_ended || (text.is_apart && !self.is_fresh) {
            self.continue_line()?;
        }
        if !self.is_fresh {
            self.write_bytes(b" ", 1)?;
        }
        self.write_bytes(between(bytes, text.start, text.end), text.width)?;
        self.is_ended = true;
        Ok(())
    }

    fn write_break(&mut self, place: Break, rest: &[Item]) -> Result<(), AllocError> {
        let frame = self.frame();
        let is_begun = self.len == 0 || (self.is_fresh && !self.is_ended);
        let is_tight = frame.is_tight && !self.is_ended;
        if is_begun || is_tight || !frame.is_broken || !self.is_due(place, rest) {
            return Ok(());
        }
        match place {
            Break::Close => self.write_line(frame.close_indent),
            Break::RightSide | Break::Grouped => self.continue_line(),
            _ => self.write_line(frame.indent),
        }
    }

    /// Whether the line is broken at this place, where its group has several lines.
    fn is_due(&self, place: Break, rest: &[Item]) -> bool {
        match place {
            Break::No => false,
            Break::Lines | Break::Close => true,
            _ if self.is_ended => true,
            Break::Fill => !self.fits_here(rest, Until::ItemAndNumbers),
            Break::Number => !self.fits_here(rest, Until::Item),
            Break::RightSide => self.is_right_side_due(rest),
            Break::Grouped => !self.fits_here(rest, Until::Head),
            Break::AfterNumber => self.is_due_after_number(rest),
        }
    }

    /// Whether the line is broken before a right side: if it fits on a line of its own, or not even its head fits here.
    fn is_right_side_due(&self, rest: &[Item]) -> bool {
        let indent = self
            .frame()
            .indent
            .saturating_add(self.options.indent_width);
        let room = self.options.width.saturating_sub(self.capped(indent));
        !self.fits_here(rest, Until::ItemAndNumbers)
            && (fits(rest, room, true, Until::ItemAndNumbers) || !self.fits_here(rest, Until::Head))
    }

    /// Whether the line is broken after a number: if not even the head of what follows fits, or it is a chain that does not fit.
    fn is_due_after_number(&self, rest: &[Item]) -> bool {
        let is_chain = matches!(rest.first(), Some(Item::BeginChain));
        let until = if is_chain { Until::Item } else { Until::Head };
        !self.fits_here(rest, until)
    }

    /// Whether the items fit on the rest of the line.
    fn fits_here(&self, rest: &[Item], until: Until) -> bool {
        fits(rest, self.room(), self.is_fresh, until)
    }

    /// Whether the group that has begun stays on its line. It is broken, too, where only so a number after it stays with it.
    fn stays_on_line(&self, context: Context, rest: &[Item]) -> bool {
        if matches!(context, Context::Labels | Context::Matchers) {
            return self.fits_here(rest, Until::End);
        }
        let room = self.options.width.saturating_sub(self.line_indent);
        self.fits_here(rest, Until::EndAndNumbers)
            || (self.fits_here(rest, Until::End)
                && !fits(closing_items(rest), room, true, Until::EndAndNumbers))
    }

    /// Whether what is in brackets begins and ends beside them: it does not fit on a line of its own, and its head fits here.
    fn is_tight(&self, rest: &[Item]) -> bool {
        let indent = self.line_indent.saturating_add(self.options.indent_width);
        let room = self.options.width.saturating_sub(self.capped(indent));
        let inner = inner_items(rest);
        !inner.is_empty()
            && !fits(inner, room, true, Until::Item)
            && self.fits_here(rest, Until::InnerHead)
    }

    fn begin_bracket(&mut self, context: Context, rest: &[Item]) -> Result<(), AllocError> {
        if self.is_ended {
            self.continue_line()?;
        }
        let is_broken = self.frame().is_broken && !self.stays_on_line(context, rest);
        let is_tight = is_broken && context == Context::Single && self.is_tight(rest);
        self.frames.push(Frame {
            is_broken,
            has_lines: false,
            is_tight,
            indent: self.line_indent.saturating_add(self.options.indent_width),
            close_indent: self.line_indent,
        })?;
        Ok(())
    }

    fn begin_chain(&mut self, rest: &[Item]) -> Result<(), AllocError> {
        let around = self.frame();
        let is_broken = around.is_broken && !self.fits_here(rest, Until::EndAndNumbers);
        let indent = if around.has_lines {
            around.indent.saturating_add(self.options.indent_width)
        } else {
            around.indent
        };
        self.frames.push(Frame {
            is_broken,
            has_lines: is_broken && has_lines(rest),
            is_tight: false,
            indent,
            close_indent: indent,
        })?;
        Ok(())
    }
}
