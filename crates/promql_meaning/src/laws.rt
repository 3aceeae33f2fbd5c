//! Laws: the contracts of functions that do nothing.

ghost use Rattle.std.specs.Prelude.{◌≡◌, ◌≢◌, ◌++◌, ◌∷◌, ℕ, ℤ, List, [], Ok, Option, false, true, codes, map, unwrap_or};
ghost use Rattle.promql_text.specs.Texts.{Text};
ghost use Rattle.promql_text.specs.declared.number.Number.{Number};
ghost use Rattle.promql_label.specs.Answers.{Answer};
ghost use Rattle.promql_label.specs.PlainMatchers.{PlainMatcher, PlainMatchers};
ghost use Rattle.promql_kind.specs.Functions.{Signature};
ghost use Rattle.promql_kind.specs.Modifiers.{Clause, Matching, including};
ghost use Rattle.promql_kind.specs.declared.value.ValueType.{ValueType};
ghost use Rattle.promql_ast.specs.Layout.{layout_of};
ghost use Rattle.promql_ast.specs.Normal.{normal};
ghost use Rattle.promql_ast.specs.Selectors.{Selector, selector};
ghost use Rattle.promql_ast.specs.Shifts.{Moment, Shift};
ghost use Rattle.promql_ast.specs.Text.{text};
ghost use Rattle.promql_ast.specs.Tree.{MaybeTree, Tree, Trees, aggregate, binary, call, extension, matrix, number, string, subquery, unary, vector};
ghost use Rattle.promql_ast.specs.declared.range_mode.RangeMode.{RangeMode};
ghost use Rattle.promql_syntax.specs.ParseAnswers.{HasTree, IsAnswerTo, IsServed};
ghost use Rattle.promql_syntax.specs.Asking.{Asked};
ghost use Rattle.promql_rewrite.specs.Enforced.{IsEnforced};
ghost use Rattle.promql_rewrite.specs.Enforcing.{enforced, has_bare_info};
ghost use Rattle.promql_rewrite.specs.Mapping.{KindedSelector, outline, selectors_of};
ghost use Rattle.promql_rewrite.specs.MatcherTexts.{IsMatcherText};
ghost use Rattle.promql_rewrite.specs.Parenthesizing.{parenthesized};
ghost use Rattle.promql_rewrite.specs.Renaming.{of_label, of_metric, renamed};
ghost use Rattle.promql_rewrite.specs.Selecting.{Series, selects};
ghost use Rattle.promql_when.specs.Last.{is_constant};
ghost use Rattle.promql_when.specs.Pinned.{over, pinned};
ghost use Rattle.promql_when.specs.Reads.{is_read, reads};
ghost use Rattle.promql_when.specs.Windows.{IsAsked};
ghost use Rattle.promql_when.specs.declared.times.Times.{Times};
ghost use Rattle.promql_query.specs.EnforcedLines.{IsEnforcedLine};
ghost use Rattle.promql_run.specs.Running.{IsPrinted};
ghost use Rattle.promql_run.specs.declared.format.Format.TheVariants.{Line, Pretty};
ghost use Rattle.promql_span.specs.declared.limits.Limits.{Limits};
ghost use Rattle.promql_meaning.specs.Relabeled.{relabeled, under_old_name};
ghost use Rattle.promql_meaning.specs.Seen.{all_seen, beside, has_call_that_sees_beside, joined, maybe_seen, seen};
ghost use Rattle.promql_meaning.specs.SeenAt.{in_windows, read_at, seen_at, up_to_last};
ghost use Rattle.promql_meaning.specs.Stores.{Store, kept, one_sample, read, readable};

/// A tree's normal form sees what the tree sees. So, with one answer for each pattern, the text of a text's tree, on one line or
/// laid out, has a tree that sees what that tree sees; and two texts that print alike see alike.
pub fn printed_queries_mean_the_same()
    ensures normal { (s : Store) (t : Tree) → seen s (normal t) ≡ seen s t }
    ensures line { (g : Text → Answer) (source : Text) (t : Tree) → HasTree g source t
        → (u : Tree) × HasTree g (text t) u × ((s : Store) → seen s u ≡ seen s t) }
    ensures lines { (g : Text → Answer) (source : Text) (t : Tree) → HasTree g source t
        → (level most : ℕ)
        → (u : Tree) × HasTree g (layout_of t level most) u × ((s : Store) → seen s u ≡ seen s t) }
    ensures alike { (g : Text → Answer) (first second : Text) (t u : Tree) → HasTree g first t
        → HasTree g second u → text t ≡ text u → (s : Store) → seen s t ≡ seen s u }
{
    promql_syntax::laws::laid_reads_back();
    promql_syntax::laws::prints_alike();
}

/// An enforced query sees nothing but what its matcher allows: it sees the same where the store has these series alone. So two
/// stores in which the matcher allows the same series, in the same order, cannot be told apart by it.
pub fn enforced_queries_see_only_what_is_allowed()
    ensures kept { (s : Store) (c : PlainMatcher) (t : Tree) → has_bare_info t ≡ false
        → seen s (enforced c t) ≡ seen (kept c s) (enforced c t) }
    ensures apart { (r s : Store) (c : PlainMatcher) (t : Tree) → has_bare_info t ≡ false
        → kept c r ≡ kept c s → seen r (enforced c t) ≡ seen s (enforced c t) }
{}

/// Where a store has nothing but what the matcher allows, an enforced query sees what the query sees, if none of its calls sees
/// the matchers of an argument.
pub fn enforcing_changes_nothing_at_home()
    ensures { (s : Store) (c : PlainMatcher) (t : Tree) → has_call_that_sees_beside t ≡ false
        → seen (kept c s) (enforced c t) ≡ seen (kept c s) t }
{}

/// A tree sees the same with parentheses where its text needs them.
pub fn parentheses_mean_nothing()
    ensures { (s : Store) (t : Tree) → seen s (parenthesized t) ≡ seen s t }
{}

/// Over a store in which a label has another name, a query in which the label is renamed sees what the query sees where each series
/// has it under the old name, with the labels of its clauses renamed, if none of its calls sees the matchers of an argument. Labels
/// in strings are texts: they are seen as they are.
pub fn renamed_labels_are_seen_renamed()
    ensures { (s : Store) (from to : Text) (t : Tree) → from ≢ codes "__name__"
        → has_call_that_sees_beside t ≡ false
        → relabeled (under_old_name from to) (of_metric [] []) (seen s (renamed (of_label from to) t))
        ≡ relabeled (λ xs. xs) (of_label from to) (seen (under_old_name from to s) t) }
{}

/// Trees that are alike but for their selectors see alike where each selector reads the same series at the same times as that of
/// the other tree, if no call sees the matchers of an argument. So where a mapper's selectors read what those before them did,
/// nothing else is changed.
pub fn selectors_that_read_alike_see_alike()
    ensures { (s : Store) (t u : Tree) → outline t ≡ outline u
        → map (λ (x : KindedSelector). seen s (vector x.1)) (selectors_of t)
        ≡ map (λ (x : KindedSelector). seen s (vector x.1)) (selectors_of u)
        → has_call_that_sees_beside t ≡ false → seen s t ≡ seen s u }
{}

/// A query sees the same where a store has only the series that it may read (`may_read`). So a series that it may not read changes nothing
/// of what it sees, and stores that have the same of the others, in the same order, cannot be told apart by it.
pub fn unread_series_change_nothing()
    ensures kept { (s : Store) (t : Tree) → seen s t ≡ seen (readable t s) t }
    ensures apart { (r s : Store) (t : Tree) → readable t r ≡ readable t s → seen r t ≡ seen s t }
{}

/// Nothing of a query is forgotten. Queries that are seen alike have the same parts: operators and functions, modifiers and clauses, offsets,
/// `@`, ranges, steps and literals, and what is seen of their expressions. Where a selector selects a series that another one does not, there
/// is a store over which the two are seen apart.
pub fn nothing_is_forgotten()
    ensures aggregates { (s : Store) (op other : ℕ) (e f : Tree) (p q : MaybeTree) (m n : Option Clause)
        → seen s (aggregate op e p m) ≡ seen s (aggregate other f q n)
        → (op ≡ other) × (seen s e ≡ seen s f) × (maybe_seen s p ≡ maybe_seen s q) × (unwrap_or m (including []) ≡ unwrap_or n (including [])) }
    ensures unaries { (s : Store) (e f : Tree) → seen s (unary e) ≡ seen s (unary f) → seen s e ≡ seen s f }
    ensures binaries { (s : Store) (op other : ℕ) (l r x y : Tree) (m n : Option Matching)
        → seen s (binary op l r m) ≡ seen s (binary other x y n)
        → (op ≡ other) × (seen s l ≡ seen s x) × (seen s r ≡ seen s y) × (joined m ≡ joined n) }
    ensures subqueries { (s : Store) (e f : Tree) (offset back : Option Shift) (at moment : Option Moment) (range length : ℕ) (step each : Option ℕ)
        → seen s (subquery e offset at range step) ≡ seen s (subquery f back moment length each)
        → (seen s e ≡ seen s f) × (offset ≡ back) × (at ≡ moment) × (range ≡ length) × (step ≡ each) }
    ensures numbers { (s : Store) (n m : Number) → seen s (number n) ≡ seen s (number m) → number n ≡ number m }
    ensures strings { (s : Store) (a b : Text) → seen s (string a) ≡ seen s (string b) → string a ≡ string b }
    ensures vectors { (s : Store) (name other : Option Text) (cs ds : PlainMatchers) (offset back : Option Shift) (at moment : Option Moment)
        → seen s (vector (selector name cs offset at)) ≡ seen s (vector (selector other ds back moment))
        → (offset ≡ back) × (at ≡ moment) × (read (selector name cs offset at) s ≡ read (selector other ds back moment) s) }
    ensures matrices { (s : Store) (name other : Option Text) (cs ds : PlainMatchers) (offset back : Option Shift) (at moment : Option Moment)
        (range length : ℕ) (mode way : RangeMode)
        → seen s (matrix (selector name cs offset at) range mode) ≡ seen s (matrix (selector other ds back moment) length way)
        → (offset ≡ back) × (at ≡ moment) × (range ≡ length) × (mode ≡ way)
        × (read (selector name cs offset at) s ≡ read (selector other ds back moment) s) }
    ensures calls { (s : Store) (f g : Signature) (es fs : Trees) → seen s (call f es) ≡ seen s (call g fs)
        → (f ≡ g) × (beside s f es ≡ beside s g fs) × (all_seen s es ≡ all_seen s fs) }
    ensures extensions { (s : Store) (name other : Text) (gives type : ValueType) (es fs : Trees)
        → seen s (extension name gives es) ≡ seen s (extension other type fs)
        → (name ≡ other) × (gives ≡ type) × (all_seen s es ≡ all_seen s fs) }
    ensures selectors { (a b : Selector) (labels : Series) → selects a labels ≡ true → selects b labels ≡ false
        → (s : Store) × (seen s (vector a) ≢ seen s (vector b)) }
{}

/// What is seen alike is seen alike at each time. So each law here about what is seen holds of what is seen at a time, too.
pub fn seen_alike_at_each_time()
    ensures { (r s : Store) (t u : Tree) → seen r t ≡ seen s u → (ts : Times) (x : ℤ) → seen_at ts r t x ≡ seen_at ts s u x }
{}

/// At a time a query sees the same where a store has only the samples that it reads then (`reads`), and at each of its times where a store
/// has only those in its windows (`windows`). So no other sample changes anything of what it sees.
pub fn unread_samples_change_nothing()
    ensures read { (ts : Times) (s : Store) (t : Tree) (x : ℤ) → seen_at ts (read_at ts t x s) t x ≡ seen_at ts s t x }
    ensures apart { (ts : Times) (r s : Store) (t : Tree) (x : ℤ) → read_at ts t x r ≡ read_at ts t x s → seen_at ts r t x ≡ seen_at ts s t x }
    ensures windows { (ts : Times) (s : Store) (t : Tree) (x : ℤ) → IsAsked ts x → seen_at ts (in_windows ts t s) t x ≡ seen_at ts s t x }
{}

/// Each sample that a query reads at a time is seen then: a store that has it alone and an empty one are seen apart.
pub fn read_samples_are_seen()
    ensures { (ts : Times) (t : Tree) (x y : ℤ) (labels : Series) (value : ℕ) → is_read (λ s. selects s labels) y (reads ts t x) ≡ true
        → seen_at ts (one_sample labels y value) t x ≢ seen_at ts [] t x }
{}

/// Two stores that are the same up to the last millisecond that a query reads at a time are seen alike then. So an answer is final once all
/// samples up to there are known.
pub fn answers_are_final()
    ensures { (ts : Times) (r s : Store) (t : Tree) (x : ℤ) → up_to_last ts t x r ≡ up_to_last ts t x s → seen_at ts r t x ≡ seen_at ts s t x }
{}

/// Over any times a pinned query sees at each time what the query sees there over its own. So where a query is evaluated in parts, each over
/// times of its own, all that is seen is what the query sees.
pub fn pinned_queries_see_the_same()
    ensures other_times { (ts : Times) (start end : ℤ) (step : ℕ) (s : Store) (t : Tree) (x : ℤ)
        → seen_at (over start end step ts) s (pinned ts.start ts.end t) x ≡ seen_at ts s t x }
    ensures parts { (ts : Times) (a b c d : ℤ) (m n : ℕ) (s : Store) (t : Tree) (xs ys : List ℤ)
        → map (seen_at ts s t) (xs ++ ys)
        ≡ map (seen_at (over a b m ts) s (pinned ts.start ts.end t)) xs ++ map (seen_at (over c d n ts) s (pinned ts.start ts.end t)) ys }
{}

/// A constant query sees the same at every time.
pub fn constant_queries_see_the_same()
    ensures { (ts : Times) (s : Store) (t : Tree) (x y : ℤ) → is_constant t ≡ true → seen_at ts s t x ≡ seen_at ts s t y }
{}

/// From text to text: what `enforce_query` and `promql_enforce` write of a query is answered by a tree which sees nothing but what
/// the matcher allows, and which sees what the query sees where the store has nothing else and no call sees the matchers of an
/// argument.
pub fn enforced_lines_see_only_what_is_allowed()
    ensures { (query line : Text) (c : PlainMatcher) → IsEnforced query c line
        → (t u : Tree) × IsAnswerTo query (Ok t)
        × ((answers : List Asked) × IsServed line answers (Ok u))
        × ((s : Store) → seen s u ≡ seen (kept c s) u)
        × (has_call_that_sees_beside t ≡ false → (s : Store) → seen (kept c s) u ≡ seen (kept c s) t) }
{}

/// What the programs write, by their contracts. With one answer for each pattern, what `promql line` or `promql pretty` writes is, but
/// for the line feed at its end, a text whose tree sees what the tree of the input sees. What `promql_enforce` writes of a query is
/// what `enforced_lines_see_only_what_is_allowed` speaks of, for the matcher that its argument is.
pub fn programs_keep_what_is_meant()
    ensures line { (g : Text → Answer) (query printed : Text) (p : IsPrinted Line query printed)
        → HasTree g query p.1.0 → (body : Text) × (printed ≡ body ++ 10 ∷ [])
        × ((u : Tree) × HasTree g body u × ((s : Store) → seen s u ≡ seen s p.1.0)) }
    ensures pretty { (g : Text → Answer) (query printed : Text) (p : IsPrinted (Pretty (record { level = 0; width = 100 })) query printed)
        → HasTree g query p.1.0 → (body : Text) × (printed ≡ body ++ 10 ∷ [])
        × ((u : Tree) × HasTree g body u × ((s : Store) → seen s u ≡ seen s p.1.0)) }
    ensures enforce { (limits : Limits) (query matcher line : Text) → IsEnforcedLine limits query matcher (Ok line)
        → (c : PlainMatcher) × IsMatcherText matcher (Ok c) × IsEnforced query c line }
{
    promql_syntax::laws::laid_reads_back();
}
