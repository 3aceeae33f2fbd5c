//! The parts of a node that hold no expression: what is taken of the tokens for each, and where it is.

ghost use Rattle.std.specs.Prelude.{◌≡◌, ◌++◌, ◌∷◌, [], OnOk};
ghost use Rattle.promql_places.specs.CursorTokens.{kinds_left};
ghost use Rattle.promql_places.specs.PartSteps as step;
ghost use Rattle.promql_places.specs.PartSteps.{Takes};

use crate::kinds::{
    is_group_word, is_grouping_word, is_left_brace, is_left_paren, is_matching_word, is_shift,
    shift_kind,
};
use crate::parts::{Part, PartKind};
use crate::token_cursor::TokenCursor;
use promql_span::Span;
use std::alloc::AllocError;

impl<'a> TokenCursor<'a> {
    /// Adds a part from this byte through the last token that was taken.
    fn push_part(
        &self,
        kind: PartKind,
        start: usize,
        parts: &mut Vec<Part>,
    ) -> Result<(), AllocError>
        ensures { OnOk result (parts.new.items ≡ parts.old.items
            ++ record { kind = kind; span = record { start = start; end = self.now.end } } ∷ []) }
    {
        let end = self.end();
        let span = Span { start, end };
        parts.push(Part { kind, span })?;
        Ok(())
    }

    /// Takes the first token as a part.
    fn take_word(&mut self, kind: PartKind, parts: &mut Vec<Part>) -> Result<(), AllocError>
        ensures { OnOk result (Takes (step.word kind (kinds_left self.old))
            self.old self.new parts.old.items parts.new.items) }
    {
        let start = self.start();
        self.bump();
        self.push_part(kind, start, parts)
    }

    /// A part of a list, and what separates it from the next.
    fn take_item(&mut self, kind: PartKind, parts: &mut Vec<Part>) -> Result<(), AllocError>
        ensures { OnOk result (Takes (step.item kind (kinds_left self.old))
            self.old self.new parts.old.items parts.new.items) }
    {
        let start = self.start();
        self.bump();
        self.skip_item();
        self.push_part(kind, start, parts)?;
        self.skip_separator();
        Ok(())
    }

    /// The parts of a list, through the bracket that closes it.
    fn take_items(&mut self, kind: PartKind, parts: &mut Vec<Part>) -> Result<(), AllocError>
        ensures { OnOk result (Takes (step.items kind (kinds_left self.old))
            self.old self.new parts.old.items parts.new.items) }
    {
        while !self.ends_list() {
            self.take_item(kind, parts)?;
        }
        self.bump();
        Ok(())
    }

    /// Labels in parentheses, if there are any.
    fn take_labels(&mut self, kind: PartKind, parts: &mut Vec<Part>) -> Result<(), AllocError>
        ensures { OnOk result (Takes (step.labels kind (kinds_left self.old))
            self.old self.new parts.old.items parts.new.items) }
    {
        if is_left_paren(self.kind()) {
            self.bump();
            return self.take_items(kind, parts);
        }
        Ok(())
    }

    /// The clause of an aggregation, if there is one.
    fn take_clause(&mut self, parts: &mut Vec<Part>) -> Result<(), AllocError>
        ensures { OnOk result (Takes (step.clause (kinds_left self.old))
            self.old self.new parts.old.items parts.new.items) }
    {
        if is_grouping_word(self.kind()) {
            self.bump();
            return self.take_labels(PartKind::Label, parts);
        }
        Ok(())
    }

    fn take_group(&mut self, parts: &mut Vec<Part>) -> Result<(), AllocError>
        ensures { OnOk result (Takes (step.group (kinds_left self.old))
            self.old self.new parts.old.items parts.new.items) }
    {
        if is_group_word(self.kind()) {
            self.bump();
            return self.take_labels(PartKind::GroupLabel, parts);
        }
        Ok(())
    }

    /// `on` or `ignoring`, and a grouping word after it.
    fn take_matching(&mut self, parts: &mut Vec<Part>) -> Result<(), AllocError>
        ensures { OnOk result (Takes (step.matching (kinds_left self.old))
            self.old self.new parts.old.items parts.new.items) }
    {
        if is_matching_word(self.kind()) {
            self.bump();
            self.take_labels(PartKind::Label, parts)?;
            return self.take_group(parts);
        }
        Ok(())
    }

    fn take_name(&mut self, parts: &mut Vec<Part>) -> Result<(), AllocError>
        ensures { OnOk result (Takes (step.name (kinds_left self.old))
            self.old self.new parts.old.items parts.new.items) }
    {
        if is_left_brace(self.kind()) {
            return Ok(());
        }
        self.take_word(PartKind::Name, parts)
    }

    fn take_braces(&mut self, parts: &mut Vec<Part>) -> Result<(), AllocError>
        ensures { OnOk result (Takes (step.braces (kinds_left self.old))
            self.old self.new parts.old.items parts.new.items) }
    {
        if is_left_brace(self.kind()) {
            self.bump();
            return self.take_items(PartKind::Matcher, parts);
        }
        Ok(())
    }

    /// A name, braces, or both.
    fn take_selector(&mut self, parts: &mut Vec<Part>) -> Result<(), AllocError>
        ensures { OnOk result (Takes (step.selector (kinds_left self.old))
            self.old self.new parts.old.items parts.new.items) }
    {
        self.take_name(parts)?;
        self.take_braces(parts)
    }

    /// A shift in time, or a range mode.
    fn take_shift(&mut self, parts: &mut Vec<Part>) -> Result<(), AllocError>
        ensures { OnOk result (Takes (step.shift (kinds_left self.old))
            self.old self.new parts.old.items parts.new.items) }
    {
        let kind = shift_kind(self.kind());
        let start = self.start();
        self.skip_shift();
        self.push_part(kind, start, parts)
    }

    fn take_shifts(&mut self, parts: &mut Vec<Part>) -> Result<(), AllocError>
        ensures { OnOk result (Takes (step.shifts (kinds_left self.old))
            self.old self.new parts.old.items parts.new.items) }
    {
        while is_shift(self.kind()) {
            self.take_shift(parts)?;
        }
        Ok(())
    }

    /// A selector with what shifts it.
    pub fn take_vector(&mut self, parts: &mut Vec<Part>) -> Result<(), AllocError>
        ensures { OnOk result (Takes (step.vector (kinds_left self.old))
            self.old self.new parts.old.items parts.new.items) }
    {
        self.skip_signs();
        self.take_selector(parts)?;
        self.take_shifts(parts)
    }

    /// A selector before a range, as a part that comes after those in it.
    pub fn take_ranged(&mut self, parts: &mut Vec<Part>) -> Result<(), AllocError>
        ensures { OnOk result (Takes (step.ranged (kinds_left self.old))
            self.old self.new parts.old.items parts.new.items) }
    {
        self.skip_signs();
        let start = self.start();
        self.take_selector(parts)?;
        self.take_shifts(parts)?;
        self.push_part(PartKind::Selector, start, parts)
    }

    /// A range, and the shifts after it.
    pub fn take_range(&mut self, parts: &mut Vec<Part>) -> Result<(), AllocError>
        ensures { OnOk result (Takes (step.range (kinds_left self.old))
            self.old self.new parts.old.items parts.new.items) }
    {
        let start = self.start();
        self.skip_brackets();
        self.push_part(PartKind::Range, start, parts)?;
        self.take_shifts(parts)
    }

    /// The minus of a unary operator, after pluses.
    pub fn take_minus(&mut self, parts: &mut Vec<Part>) -> Result<(), AllocError>
        ensures { OnOk result (Takes (step.minus (kinds_left self.old))
            self.old self.new parts.old.items parts.new.items) }
    {
        self.skip_pluses();
        self.take_word(PartKind::Operator, parts)
    }

    /// An operator, and what comes between it and its right side.
    pub fn take_operator(&mut self, parts: &mut Vec<Part>) -> Result<(), AllocError>
        ensures { OnOk result (Takes (step.operator (kinds_left self.old))
            self.old self.new parts.old.items parts.new.items) }
    {
        self.take_word(PartKind::Operator, parts)?;
        self.skip_flag();
        self.take_matching(parts)?;
        self.skip_fill();
        self.skip_fill();
        Ok(())
    }

    /// The name of a call, through the opening parenthesis.
    pub fn take_called(&mut self, parts: &mut Vec<Part>) -> Result<(), AllocError>
        ensures { OnOk result (Takes (step.called (kinds_left self.old))
            self.old self.new parts.old.items parts.new.items) }
    {
        self.skip_signs();
        self.take_word(PartKind::Name, parts)?;
        self.bump();
        Ok(())
    }

    /// The operator of an aggregation with a clause after it, through the opening parenthesis.
    pub fn take_aggregate(&mut self, parts: &mut Vec<Part>) -> Result<(), AllocError>
        ensures { OnOk result (Takes (step.aggregate (kinds_left self.old))
            self.old self.new parts.old.items parts.new.items) }
    {
        self.skip_signs();
        self.take_word(PartKind::Operator, parts)?;
        self.take_clause(parts)?;
        self.bump();
        Ok(())
    }

    /// The closing parenthesis of an aggregation, and a clause after it.
    pub fn take_aggregate_end(&mut self, parts: &mut Vec<Part>) -> Result<(), AllocError>
        ensures { OnOk result (Takes (step.aggregate_end (kinds_left self.old))
            self.old self.new parts.old.items parts.new.items) }
    {
        self.bump();
        self.take_clause(parts)
    }
}
