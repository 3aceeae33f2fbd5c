//! What the parts of nodes are: docs/reference/walks.md, "Parts of nodes".

use promql_span::Span;

/// What a part of a node is.
#[derive(Clone, Copy, Debug, PartialEq, Eq)]
pub enum PartKind {
    /// The name of a call's function, or of a selector's metric where it stands before the braces.
    Name,
    /// The operator of an aggregation, or of a unary or a binary expression.
    Operator,
    /// The selector of a matrix selector: what the range follows.
    Selector,
    /// A matcher, from its label through its value, or the name of a metric as a string in braces.
    Matcher,
    /// A label of `by`, `without`, `on` or `ignoring`.
    Label,
    /// A label of `group_left` or `group_right`.
    GroupLabel,
    /// A range, or the range and the step of a subquery, with the brackets.
    Range,
    /// `offset` with its duration.
    Offset,
    /// `@` with its time.
    At,
    /// `smoothed` or `anchored`.
    Mode,
}

/// A part of a node: what it is, and the part of the text that it takes, in bytes.
#[derive(Clone, Copy, Debug, PartialEq, Eq)]
pub struct Part {
    pub kind: PartKind,
    pub span: Span,
}
