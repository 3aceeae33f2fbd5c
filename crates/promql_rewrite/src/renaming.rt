//! A metric or a label by another name: docs/guide/rewriting.md, "Renaming".

ghost use Rattle.std.specs.Prelude.{◌≡◌, ◌↔◌, ◌&&◌, ◌||◌, IfOk, IsErrOf, OnOk, codes, false, map, not, option_map, string_bytes, true};
ghost use Rattle.std.specs.Str.{bytes_eq};
ghost use Rattle.promql_token.specs.Cursor.{ends_in_fault, tokens_left};
ghost use Rattle.promql_label.specs.Labels.{labels_of};
ghost use Rattle.promql_label.specs.MatcherViews.{plain_matcher_of, plain_matchers_of};
ghost use Rattle.promql_kind.specs.ModifierViews.{cardinality_of, clause_of, matching_of};
ghost use Rattle.promql_ast.specs.View.{selector_of, tree_of};
ghost use Rattle.promql_rewrite.specs.Renaming.{clashes, is_name, of_label, of_metric, renamed, renamed_cardinality, renamed_clause, renamed_labels, renamed_matcher, renamed_matchers, renamed_matching, renamed_name, renamed_selector, replaced};
ghost use Rattle.promql_rewrite.specs.Renamings.{is_name_token, is_nothing, renaming_of};

use crate::changing::{PartChange, change_parts};
use crate::clashing::has_clash;
use crate::collecting::is_metric_name;
use promql_ast::{Expr, VectorSelector};
use promql_grammar::token_kind;
use promql_kind::{BinModifier, LabelModifier, VectorMatchCardinality};
use promql_label::{Labels, METRIC_NAME, Matcher, Matchers};
use promql_token::TokenId;
use promql_token::cursor::Cursor;
use std::alloc::{AllocError, Global};
use thiserror::Error;

/// Why a label was not renamed.
#[derive(PartialEq, Eq, Debug, Drop, Error)]
pub enum RenameLabelError {
    /// An allocation failed.
    #[error("out of memory")]
    Memory,
    /// The old name or the new one is `__name__`, which names no label but the metric.
    #[error("the label of the metric name cannot be renamed")]
    MetricName,
    /// Both names are in the matchers of one selector, or in the lists of one aggregation or of one operator.
    #[error("both labels are in one list")]
    Clash,
}

impl From<AllocError> for RenameLabelError {
    ghost use Rattle.std.specs.Prelude.{◌≡◌};
    ghost use Rattle.promql_rewrite.specs.declared.renaming.RenameLabelError.TheVariants.{Memory};

    ghost from_gives = { λ _ e. e ≡ Memory };

    fn from(_e: AllocError) -> RenameLabelError {
        RenameLabelError::Memory
    }
}

/// Why a metric was not renamed.
#[derive(PartialEq, Eq, Debug, Drop, Error)]
pub enum RenameMetricError {
    /// An allocation failed.
    #[error("out of memory")]
    Memory,
    /// The new name is no word that may be before braces.
    #[error("the new name is no name of a metric")]
    NotAName,
}

impl From<AllocError> for RenameMetricError {
    ghost use Rattle.std.specs.Prelude.{◌≡◌};
    ghost use Rattle.promql_rewrite.specs.declared.renaming.RenameMetricError.TheVariants.{Memory};

    ghost from_gives = { λ _ e. e ≡ Memory };

    fn from(_e: AllocError) -> RenameMetricError {
        RenameMetricError::Memory
    }
}

/// What is renamed.
#[derive(Clone, Copy)]
enum Named {
    Metric,
    Label,
}

/// The old name and the new one.
#[derive(Clone, Copy)]
struct Renaming<'a> {
    named: Named,
    from: &'a str,
    to: &'a str,
}

/// The expression with another name for a label: in matchers and after `by`, `without`, `on`, `ignoring`, `group_left` and
/// `group_right`. Strings stay as they are, also those that name labels, as in `label_replace`.
///
/// # Errors
///
/// `MetricName` exactly where one of the names is `__name__`; otherwise `Clash` exactly where the names differ, and both are
/// in the matchers of one selector, after the `by` or `without` of one aggregation, or in the lists of one operator;
/// `Memory` where an allocation failed.
#[tactic(auto, using(crate::proofs::renamed::ClashingLabels::clash_is))]
pub fn rename_label(
    alloc: Global,
    expr: Expr,
    from: &str,
    to: &str,
) -> Result<Expr, RenameLabelError>
    ensures ok { IfOk result (λ e.
        tree_of e ≡ renamed (of_label from.now to.now) (tree_of expr)) }
    ensures name { IsErrOf result RenameLabelError.MetricName
        ↔ (bytes_eq from.now (codes "__name__") || bytes_eq to.now (codes "__name__") ≡ true) }
    ensures clash { IsErrOf result RenameLabelError.Clash
        ↔ ((bytes_eq from.now (codes "__name__") || bytes_eq to.now (codes "__name__") ≡ false)
        × (clashes from.now to.now (tree_of expr) ≡ true)) }
{
    if from == METRIC_NAME || to == METRIC_NAME {
        drop(expr);
        return Err(RenameLabelError::MetricName);
    }
    if from != to && has_clash(&expr, from, to) {
        drop(expr);
        return Err(RenameLabelError::Clash);
    }
    let mut expr = expr;
    let renaming = Renaming {
        named: Named::Label,
        from,
        to,
    };
    match rename_expr(alloc, &mut expr, &renaming) {
        Ok(()) => Ok(expr),
        Err(error) => {
            drop(expr);
            Err(RenameLabelError::from(error))
        }
    }
}

/// The expression with another name for a metric: before braces, and in equal matchers of `__name__`. Patterns and unequal
/// matchers of `__name__` stay as they are.
///
/// # Errors
///
/// `NotAName` exactly where the new name is no word that the grammar takes for the name of a metric, as `a.b` and `bool`;
/// `Memory` where an allocation failed.
pub fn rename_metric(
    alloc: Global,
    expr: Expr,
    from: &str,
    to: &str,
) -> Result<Expr, RenameMetricError>
    ensures ok { IfOk result (λ e.
        tree_of e ≡ renamed (of_metric from.now to.now) (tree_of expr)) }
    ensures name { IsErrOf result RenameMetricError.NotAName ↔ (is_name to.now ≡ false) }
{
    if !is_name(to) {
        drop(expr);
        return Err(RenameMetricError::NotAName);
    }
    let mut expr = expr;
    let renaming = Renaming {
        named: Named::Metric,
        from,
        to,
    };
    match rename_expr(alloc, &mut expr, &renaming) {
        Ok(()) => Ok(expr),
        Err(error) => {
            drop(expr);
            Err(RenameMetricError::from(error))
        }
    }
}

/// Whether the text is a word that may be before braces.
fn is_name(text: &str) -> bool
    ensures { result ≡ is_name text.now }
{
    let mut tokens = Cursor::new(text);
    match tokens.next() {
        Some((id, word)) => is_name_token(id, word, text) && is_at_end(&mut tokens),
        None => false,
    }
}

/// Whether the token is all of the text, and may be before braces.
fn is_name_token(id: TokenId, word: &str, text: &str) -> bool
    ensures { result ≡ is_name_token id word.now text.now }
{
    word == text && token_kind(id).may_be_name()
}

/// Whether neither a token nor a fault is left.
fn is_at_end(tokens: &mut Cursor<'_>) -> bool
    ensures { result ≡ (is_nothing (tokens_left tokens.old) && not (ends_in_fault tokens.old)) }
{
    match tokens.next() {
        Some(_) => false,
        None => !tokens.is_at_fault(),
    }
}

impl PartChange for Renaming<'_> {
    ghost selectors = { λ r. renamed_selector (renaming_of r) };

    ghost clauses = { λ r. option_map (renamed_clause (renaming_of r)) };

    ghost matchings = { λ r. option_map (renamed_matching (renaming_of r)) };

    fn change_selector(
        &self,
        alloc: Global,
        selector: &mut VectorSelector,
    ) -> Result<(), AllocError> {
        rename_selector(alloc, selector, self)
    }

    fn change_clause(
        &self,
        alloc: Global,
        clause: &mut Option<LabelModifier>,
    ) -> Result<(), AllocError> {
        rename_clause(alloc, clause, self)
    }

    fn change_matching(
        &self,
        alloc: Global,
        modifier: &mut Option<BinModifier>,
    ) -> Result<(), AllocError> {
        rename_modifier(alloc, modifier, self)
    }
}

/// Renames in every node. Where an allocation fails, some names may be the new one.
fn rename_expr(alloc: Global, expr: &mut Expr, renaming: &Renaming<'_>) -> Result<(), AllocError>
    ensures { OnOk result
        (tree_of expr.new ≡ renamed (renaming_of renaming.now) (tree_of expr.old)) }
{
    change_parts(alloc, expr, renaming)
}

fn rename_selector(
    alloc: Global,
    selector: &mut VectorSelector,
    renaming: &Renaming<'_>,
) -> Result<(), AllocError>
    ensures { OnOk result (selector_of selector.new
        ≡ renamed_selector (renaming_of renaming.now) (selector_of selector.old)) }
{
    rename_name(alloc, &mut selector.name, renaming)?;
    rename_matchers(alloc, &mut selector.matchers, renaming)
}

/// Renames the name before the braces, if a metric is renamed.
fn rename_name(
    alloc: Global,
    name: &mut Option<String>,
    renaming: &Renaming<'_>,
) -> Result<(), AllocError>
    ensures { OnOk result (option_map string_bytes name.new
        ≡ renamed_name (renaming_of renaming.now) (option_map string_bytes name.old)) }
{
    match renaming.named {
        Named::Metric => replace_optional(alloc, name, renaming),
        Named::Label => Ok(()),
    }
}

fn replace_optional(
    alloc: Global,
    name: &mut Option<String>,
    renaming: &Renaming<'_>,
) -> Result<(), AllocError>
    ensures { OnOk result (option_map string_bytes name.new
        ≡ option_map (replaced renaming.now.from.now renaming.now.to.now)
        (option_map string_bytes name.old)) }
{
    match name {
        Some(name) => replace(alloc, name, renaming),
        None => Ok(()),
    }
}

/// Puts the new name for the old one.
fn replace(alloc: Global, name: &mut String, renaming: &Renaming<'_>) -> Result<(), AllocError>
    ensures { OnOk result (string_bytes name.new
        ≡ replaced renaming.now.from.now renaming.now.to.now (string_bytes name.old)) }
{
    if name.as_str() == renaming.from {
        *name = String::from_str(alloc, renaming.to)?;
    }
    Ok(())
}

/// Renames in the list, and in each or-group.
fn rename_matchers(
    alloc: Global,
    matchers: &mut Matchers,
    renaming: &Renaming<'_>,
) -> Result<(), AllocError>
    ensures { OnOk result (plain_matchers_of matchers.new
        ≡ renamed_matchers (renaming_of renaming.now) (plain_matchers_of matchers.old)) }
{
    rename_list(alloc, &mut matchers.matchers, renaming)?;
    rename_groups(alloc, &mut matchers.or_matchers, renaming)
}

fn rename_groups(
    alloc: Global,
    groups: &mut [Vec<Matcher>],
    renaming: &Renaming<'_>,
) -> Result<(), AllocError>
    ensures { OnOk result (map (λ g. map plain_matcher_of g.items) groups.new
        ≡ map (λ g. map (renamed_matcher (renaming_of renaming.now))
        (map plain_matcher_of g.items)) groups.old) }
{
    for i in 0..groups.len() {
        rename_list(alloc, &mut groups[i], renaming)?;
    }
    Ok(())
}

fn rename_list(
    alloc: Global,
    matchers: &mut Vec<Matcher>,
    renaming: &Renaming<'_>,
) -> Result<(), AllocError>
    ensures { OnOk result (map plain_matcher_of matchers.new.items
        ≡ map (renamed_matcher (renaming_of renaming.now)) (map plain_matcher_of matchers.old.items)) }
{
    rename_each(alloc, matchers.as_mut_slice(), renaming)
}

fn rename_each(
    alloc: Global,
    matchers: &mut [Matcher],
    renaming: &Renaming<'_>,
) -> Result<(), AllocError>
    ensures { OnOk result (map plain_matcher_of matchers.new
        ≡ map (λ m. renamed_matcher (renaming_of renaming.now) (plain_matcher_of m)) matchers.old) }
{
    for i in 0..matchers.len() {
        rename_matcher(alloc, &mut matchers[i], renaming)?;
    }
    Ok(())
}

/// Renames the value of a matcher that names a metric, or the label.
fn rename_matcher(
    alloc: Global,
    matcher: &mut Matcher,
    renaming: &Renaming<'_>,
) -> Result<(), AllocError>
    ensures { OnOk result (plain_matcher_of matcher.new
        ≡ renamed_matcher (renaming_of renaming.now) (plain_matcher_of matcher.old)) }
{
    match renaming.named {
        Named::Metric => {
            if is_metric_name(matcher) {
                replace(alloc, &mut matcher.value, renaming)
            } else {
                Ok(())
            }
        }
        Named::Label => replace(alloc, &mut matcher.name, renaming),
    }
}

/// Renames after `by`, `without`, `on` or `ignoring`, if there is one of them.
fn rename_clause(
    alloc: Global,
    clause: &mut Option<LabelModifier>,
    renaming: &Renaming<'_>,
) -> Result<(), AllocError>
    ensures { OnOk result (option_map clause_of clause.new
        ≡ option_map (renamed_clause (renaming_of renaming.now)) (option_map clause_of clause.old)) }
{
    match clause {
        Some(LabelModifier::Include(labels)) => rename_labels(alloc, labels, renaming),
        Some(LabelModifier::Exclude(labels)) => rename_labels(alloc, labels, renaming),
        None => Ok(()),
    }
}

/// Renames in the modifier of an operator, if there is one.
fn rename_modifier(
    alloc: Global,
    modifier: &mut Option<BinModifier>,
    renaming: &Renaming<'_>,
) -> Result<(), AllocError>
    ensures { OnOk result (option_map matching_of modifier.new
        ≡ option_map (renamed_matching (renaming_of renaming.now)) (option_map matching_of modifier.old)) }
{
    match modifier {
        Some(modifier) => rename_matching(alloc, modifier, renaming),
        None => Ok(()),
    }
}

fn rename_matching(
    alloc: Global,
    modifier: &mut BinModifier,
    renaming: &Renaming<'_>,
) -> Result<(), AllocError>
    ensures { OnOk result (matching_of modifier.new
        ≡ renamed_matching (renaming_of renaming.now) (matching_of modifier.old)) }
{
    rename_clause(alloc, &mut modifier.matching, renaming)?;
    rename_cardinality(alloc, &mut modifier.card, renaming)
}

/// Renames after `group_left` or `group_right`.
fn rename_cardinality(
    alloc: Global,
    card: &mut VectorMatchCardinality,
    renaming: &Renaming<'_>,
) -> Result<(), AllocError>
    ensures { OnOk result (cardinality_of card.new
        ≡ renamed_cardinality (renaming_of renaming.now) (cardinality_of card.old)) }
{
    match card {
        VectorMatchCardinality::OneToOne => Ok(()),
        VectorMatchCardinality::ManyToOne(labels) => rename_labels(alloc, labels, renaming),
        VectorMatchCardinality::OneToMany(labels) => rename_labels(alloc, labels, renaming),
        VectorMatchCardinality::ManyToMany => Ok(()),
    }
}

/// Renames in a list of labels, if a label is renamed.
fn rename_labels(
    alloc: Global,
    labels: &mut Labels,
    renaming: &Renaming<'_>,
) -> Result<(), AllocError>
    ensures { OnOk result (labels_of labels.new
        ≡ renamed_labels (renaming_of renaming.now) (labels_of labels.old)) }
{
    match renaming.named {
        Named::Metric => Ok(()),
        Named::Label => replace_all(alloc, &mut labels.labels, renaming),
    }
}

fn replace_all(
    alloc: Global,
    names: &mut Vec<String>,
    renaming: &Renaming<'_>,
) -> Result<(), AllocError>
    ensures { OnOk result (map string_bytes names.new.items
        ≡ map (replaced renaming.now.from.now renaming.now.to.now) (map string_bytes names.old.items)) }
{
    replace_each(alloc, names.as_mut_slice(), renaming)
}

fn replace_each(
    alloc: Global,
    names: &mut [String],
    renaming: &Renaming<'_>,
) -> Result<(), AllocError>
    ensures { OnOk result (map string_bytes names.new
        ≡ map (λ s. replaced renaming.now.from.now renaming.now.to.now (string_bytes s)) names.old) }
{
    for i in 0..names.len() {
        replace(alloc, &mut names[i], renaming)?;
    }
    Ok(())
}
