//! Where a query may be broken: docs/reference/formatting.md, "Lines".

use crate::chains::{Chains, Operand, Size};
use crate::comments::between;
use crate::piece::{Bracket, Break, Context, Piece, Pieces};
use promql_grammar::TokenKind;
use promql_grammar::precedence::precedence;
use promql_token::TokenId;
use promql_token::ids::{T_ADD, T_LOR, T_SUB};
use std::alloc::{AllocError, Global};

/// A bracket that is open, or the whole text.
#[derive(Clone, Copy)]
struct Level {
    context: Context,
    /// Whether the last token was the bracket itself.
    is_new: bool,
    /// Whether an operand is to come, with the modifiers before it.
    wants_operand: bool,
    /// Whether the time of an `offset` or the moment of an `@` is to come.
    wants_time: bool,
    /// The first token of the operand, once it began.
    operand: Option<usize>,
    /// How long the operand is.
    size: Size,
    /// Where the line may be broken before the operand, after the modifiers before it.
    side: Break,
    /// The index of the bracket.
    bracket: usize,
    /// Whether nothing is before the operand but numbers and strings with commas after them.
    is_alone: bool,
    /// Whether the operand is a call, or a selector with matchers.
    has_bracket: bool,
}

/// A token, and what it does to the brackets that are open.
#[derive(Clone, Copy)]
struct Step {
    piece: Piece,
    level: Level,
    /// Whether it closes its level.
    ends: bool,
    /// What is inside the bracket that it opens.
    opens: Option<Context>,
    /// Whether it is a sign, so that no space comes after it.
    is_sign: bool,
    /// Whether it is a keyword.
    is_keyword: bool,
}

/// Goes over the tokens, and notes where lines may be broken.
#[derive(Drop)]
struct Structure {
    pieces: Pieces,
    levels: Vec<Level>,
    chains: Chains,
    /// The kind of the token before.
    before: TokenKind,
    /// Whether no space comes after the token before.
    is_glued: bool,
    lower_keywords: bool,
}

/// Notes spaces, groups and chains in the tokens of a query. Keywords are in lower case then, if that is asked for.
pub(crate) fn structured(
    alloc: Global,
    pieces: Pieces,
    lower_keywords: bool,
) -> Result<Pieces, AllocError> {
    let count = pieces.list.len();
    let mut structure = Structure {
        pieces,
        levels: Vec::new(alloc),
        chains: Chains::new(alloc),
        before: TokenKind::Other,
        is_glued: true,
        lower_keywords,
    };
    structure.levels.push(new_level(Context::Expressions, 0))?;
    for index in 0..count {
        structure.take(alloc, index)?;
    }
    Ok(structure.pieces)
}

fn new_level(context: Context, bracket: usize) -> Level {
    Level {
        context,
        is_new: true,
        bracket,
        is_alone: true,
        has_bracket: false,
        wants_operand: true,
        wants_time: false,
        operand: None,
        size: Size::Number,
        side: Break::No,
    }
}

/// The same level, where another operand is to come.
fn next_level(level: Level, is_alone: bool) -> Level {
    Level {
        is_new: false,
        is_alone,
        ..new_level(Context::Expressions, level.bracket)
    }
}

impl Structure {
    /// Notes what the token with this index is.
    fn take(&mut self, alloc: Global, index: usize) -> Result<(), AllocError> {
        let Some(piece) = self.pieces.list.get(index).copied() else {
            return Ok(());
        };
        let Some(level) = self.levels.pop() else {
            return Ok(());
        };
        let mut step = Step {
            piece,
            level,
            ends: false,
            opens: None,
            is_sign: false,
            is_keyword: false,
        };
        step.piece.space = !self.is_glued;
        let is_first = level.is_new && !self.levels.is_empty();
        if is_first || self.before == TokenKind::Comma {
            step.piece.place = self.place_of_item(index, level, piece.kind);
        }
        step.level.is_new = false;
        match level.context {
            Context::Expressions | Context::Single => {
                self.take_expression(index, level.is_new, &mut step)?;
            }
            Context::Labels => {
                take_label(level.is_new, &mut step);
                self.end_list(index, &step);
            }
            Context::Matchers => {
                self.keep_after_or(&piece);
                take_matcher(level.is_new, self.before, &mut step);
                self.end_list(index, &step);
            }
            Context::Value => take_value(&mut step),
        }
        self.finish(alloc, index, step)
    }

    /// Where the line may be broken before an item between brackets.
    fn place_of_item(&self, index: usize, level: Level, kind: TokenKind) -> Break {
        let is_string = kind == TokenKind::String
            && self.kind_at(index.saturating_sub(2)) == TokenKind::String;
        match level.context {
            _ if level.is_new => Break::Lines,
            Context::Labels | Context::Matchers => Break::Fill,
            _ if is_string => Break::Fill,
            _ if level.is_alone => Break::AfterNumber,
            _ => Break::Lines,
        }
    }

    /// Whether the operand that ends before the token with this index is a number or a string.
    fn is_literal(&self, index: usize, level: Level) -> bool {
        let is_one = level.operand == Some(index.saturating_sub(1));
        is_one
            && matches!(
                self.before,
                TokenKind::Number | TokenKind::Duration | TokenKind::String
            )
    }

    /// Notes whether the parentheses that end here are those of a call of a single call or selector.
    fn end_call(&mut self, step: &Step) {
        let level = step.level;
        let is_single = level.operand == Some(level.bracket.saturating_add(1));
        if !is_single || !level.has_bracket || step.piece.has_comments() {
            return;
        }
        if let Some(around) = self.levels.last()
            && around.operand != Some(level.bracket)
            && let Some(piece) = self.pieces.list.get_mut(level.bracket)
        {
            piece.bracket = Bracket::Open(Context::Single);
        }
    }

    /// The kind of the token with this index.
    fn kind_at(&self, index: usize) -> TokenKind {
        match self.pieces.list.get(index) {
            Some(piece) => piece.kind,
            None => TokenKind::Other,
        }
    }

    /// Puts each label or matcher of a list that ends on a line of its own, if a comment is in the list.
    fn end_list(&mut self, index: usize, step: &Step) {
        if !step.ends || !self.has_comments(step.level.bracket, index) {
            return;
        }
        for at in step.level.bracket..index {
            if let Some(piece) = self.pieces.list.get_mut(at)
                && piece.place == Break::Fill
            {
                piece.place = Break::Lines;
            }
        }
    }

    /// Whether a comment is after the token with one index, and before the one with another.
    fn has_comments(&self, after: usize, before: usize) -> bool {
        for at in after..before {
            if let Some(piece) = self.pieces.list.get(at.saturating_add(1))
                && piece.has_comments()
            {
                return true;
            }
        }
        false
    }

    /// Puts a comment after `or` on the line of it: between braces `or` is an operator only before a space.
    fn keep_after_or(&mut self, piece: &Piece) {
        if self.before != TokenKind::Operator(T_LOR) || !piece.has_comments() {
            return;
        }
        if let Some(comment) = self.pieces.comments.get_mut(piece.first_comment) {
            comment.own_line = false;
        }
    }

    /// Writes down what was found of a token, and opens or closes brackets.
    fn finish(&mut self, alloc: Global, index: usize, step: Step) -> Result<(), AllocError> {
        let mut piece = step.piece;
        if step.is_keyword && self.lower_keywords {
            let (start, end) = self.lowered(alloc, piece)?;
            piece.start = start;
            piece.end = end;
        }
        if let Some(context) = step.opens
            && context != Context::Value
        {
            piece.bracket = Bracket::Open(context);
        }
        if let Some(slot) = self.pieces.list.get_mut(index) {
            *slot = piece;
        }
        self.before = piece.kind;
        self.is_glued = step.is_sign || step.opens.is_some();
        if !step.ends {
            self.levels.push(step.level)?;
        }
        if let Some(context) = step.opens {
            self.levels.push(new_level(context, index))?;
        }
        Ok(())
    }

    /// Where the text of a keyword is in lower case.
    fn lowered(&mut self, alloc: Global, piece: Piece) -> Result<(usize, usize), AllocError> {
        let mut lower = Vec::new(alloc);
        for byte in between(&self.pieces.bytes, piece.start, piece.end) {
            lower.push(byte.to_ascii_lowercase())?;
        }
        self.pieces.push_text(&lower)
    }

    /// A token of an expression, or between two.
    fn take_expression(
        &mut self,
        index: usize,
        is_new: bool,
        step: &mut Step,
    ) -> Result<(), AllocError> {
        match step.piece.kind {
            TokenKind::Comma => {
                self.end_operand(index, 0, step.level);
                step.piece.space = false;
                let is_alone = step.level.is_alone && self.is_literal(index, step.level);
                step.level = next_level(step.level, is_alone);
            }
            TokenKind::RightParen => {
                self.end_operand(index, 0, step.level);
                close(is_new, Bracket::Close, step);
                self.end_call(step);
            }
            TokenKind::Other => {
                self.end_operand(index, 0, step.level);
            }
            TokenKind::Operator(op) if !step.level.wants_operand && !step.level.wants_time => {
                self.take_operator(index, op, step)?;
            }
            _ if step.level.wants_operand => self.take_operand(index, step),
            _ => self.take_postfix(step),
        }
        Ok(())
    }

    /// The operand that ends before this token, with the chains that bind tighter than the precedence.
    fn end_operand(&mut self, index: usize, precedence: usize, level: Level) -> Operand {
        let last = index.saturating_sub(1);
        let operand = Operand {
            start: level.operand.unwrap_or(last),
            last,
            size: level.size,
        };
        let depth = self.levels.len();
        self.chains
            .end(&mut self.pieces.list, depth, precedence, operand)
    }

    /// An operator between two operands.
    fn take_operator(
        &mut self,
        index: usize,
        op: TokenId,
        step: &mut Step,
    ) -> Result<(), AllocError> {
        let operand = self.end_operand(index, precedence(op), step.level);
        let depth = self.levels.len();
        self.chains
            .join(&mut self.pieces.list, depth, op, index, operand)?;
        step.level = next_level(step.level, false);
        step.piece.place = Break::Lines;
        step.is_keyword = true;
        Ok(())
    }

    /// A token where an operand is to come: a modifier, a sign, or the first token of the operand.
    fn take_operand(&self, index: usize, step: &mut Step) {
        if take_modifier(self.before, step) {
            return;
        }
        if step.level.operand.is_none() {
            step.level.operand = Some(index);
            if step.level.side != Break::No {
                step.piece.place = step.level.side;
            }
        }
        if let TokenKind::Operator(T_ADD | T_SUB) = step.piece.kind {
            step.is_sign = true;
            return;
        }
        step.level.wants_operand = false;
        match step.piece.kind {
            TokenKind::LeftParen => {
                step.level.size = Size::Long;
                step.opens = Some(Context::Expressions);
            }
            TokenKind::LeftBrace => {
                step.level.size = Size::Short;
                step.level.has_bracket = true;
                step.opens = Some(Context::Matchers);
            }
            TokenKind::Number | TokenKind::Duration => {}
            kind => self.take_name(kind, index, step),
        }
    }

    /// A string, a name of a selector, or the name of a call or an aggregation.
    fn take_name(&self, kind: TokenKind, index: usize, step: &mut Step) {
        let next = self.kind_at(index.saturating_add(1));
        let is_aggregator = matches!(kind, TokenKind::Aggregator(_));
        let has_clause = is_aggregator && matches!(next, TokenKind::By | TokenKind::Without);
        step.level.size = Size::Short;
        if next == TokenKind::LeftParen || has_clause {
            step.level.size = self.size_of_call(index);
            step.is_keyword = is_aggregator;
        }
    }

    /// The size of the call whose name has this index.
    fn size_of_call(&self, index: usize) -> Size {
        let first = self.kind_at(index.saturating_add(2));
        let second = self.kind_at(index.saturating_add(3));
        match (first, second) {
            (TokenKind::RightParen, _) | (TokenKind::Number, TokenKind::RightParen) => Size::Number,
            _ => Size::Long,
        }
    }

    /// A token after the first of an operand.
    fn take_postfix(&self, step: &mut Step) {
        let before = self.before;
        match step.piece.kind {
            TokenKind::LeftParen if matches!(before, TokenKind::By | TokenKind::Without) => {
                step.opens = Some(Context::Labels);
            }
            TokenKind::LeftParen if step.level.size == Size::Number => {
                step.piece.space = false;
                step.opens = Some(Context::Value);
            }
            TokenKind::LeftParen => {
                step.piece.space = before == TokenKind::RightParen;
                step.level.has_bracket = true;
                step.opens = Some(Context::Expressions);
            }
            TokenKind::LeftBrace => {
                step.piece.space = false;
                step.level.has_bracket = true;
                step.opens = Some(Context::Matchers);
            }
            TokenKind::LeftBracket => {
                step.piece.space = false;
                step.opens = Some(Context::Value);
            }
            TokenKind::At | TokenKind::Offset => {
                step.level.wants_time = true;
                step.is_keyword = true;
            }
            TokenKind::Operator(_) => step.is_sign = true,
            _ => {
                step.level.wants_time = false;
                step.is_keyword = true;
            }
        }
    }
}

/// Takes a modifier before a right side, or the bracket after one, and says whether it is one.
fn take_modifier(before: TokenKind, step: &mut Step) -> bool {
    match step.piece.kind {
        TokenKind::On | TokenKind::Ignoring => step.level.side = Break::RightSide,
        TokenKind::GroupLeft | TokenKind::GroupRight => {
            step.piece.place = step.level.side;
            step.level.side = Break::Grouped;
        }
        TokenKind::LeftParen if has_labels(before) => {
            step.opens = Some(Context::Labels);
            return true;
        }
        TokenKind::LeftParen if has_value(before) => {
            step.opens = Some(Context::Value);
            return true;
        }
        TokenKind::Bool | TokenKind::Fill | TokenKind::FillLeft | TokenKind::FillRight => {}
        _ => return false,
    }
    step.is_keyword = true;
    true
}

/// Whether a parenthesis after a token of this kind has labels in it.
fn has_labels(before: TokenKind) -> bool {
    matches!(
        before,
        TokenKind::On | TokenKind::Ignoring | TokenKind::GroupLeft | TokenKind::GroupRight
    )
}

/// Whether a parenthesis after a token of this kind has a fill value in it.
fn has_value(before: TokenKind) -> bool {
    matches!(
        before,
        TokenKind::Fill | TokenKind::FillLeft | TokenKind::FillRight
    )
}

/// A bracket that closes its level.
fn close(is_new: bool, bracket: Bracket, step: &mut Step) {
    step.ends = true;
    step.piece.space = false;
    step.piece.bracket = if is_new { Bracket::Close } else { bracket };
    step.piece.place = if is_new { Break::No } else { Break::Close };
}

/// A token in the labels of a clause.
fn take_label(is_new: bool, step: &mut Step) {
    match step.piece.kind {
        TokenKind::RightParen => close(is_new, Bracket::CloseList, step),
        TokenKind::Comma => step.piece.space = false,
        _ => {}
    }
}

/// A token between braces.
fn take_matcher(is_new: bool, before: TokenKind, step: &mut Step) {
    step.piece.space = before == TokenKind::Operator(T_LOR);
    match step.piece.kind {
        TokenKind::RightBrace => close(is_new, Bracket::CloseList, step),
        TokenKind::Operator(T_LOR) => {
            step.piece.space = true;
            step.piece.place = Break::Lines;
            step.is_keyword = true;
        }
        _ => {}
    }
}

/// A token of a range, of a fill value or of the number of a call.
fn take_value(step: &mut Step) {
    step.piece.space = false;
    step.piece.place = Break::No;
    step.ends = matches!(
        step.piece.kind,
        TokenKind::RightBracket | TokenKind::RightParen
    );
}
