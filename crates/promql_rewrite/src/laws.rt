//! Laws: the contracts of functions that do nothing.

ghost use Rattle.std.specs.Prelude.{◌≡◌, ◌≢◌, ◌↔◌, ◌⊎◌, ◌&&◌, ◌*◌, ◌<◌, ◌≤◌, [], ◌∷◌, false, ℕ, List, length, Ok, Option, Some, codes, map, option_map, true};
ghost use Rattle.std.specs.List.{AllByRecursion};
ghost use Rattle.promql_text.specs.Texts.{Text};
ghost use Rattle.promql_label.specs.Answers.{Answer, built};
ghost use Rattle.promql_label.specs.PlainMatchers.{Operator, equal, matches, matches_not, PlainMatcher, plain_matcher, plain_matchers, name_of};
ghost use Rattle.promql_token.specs.declared.ids.TheConstants.{T_POW};
ghost use Rattle.promql_grammar.specs.Grammar.{precedence};
ghost use Rattle.promql_grammar.specs.SourceTokens.{Token, tokens};
ghost use Rattle.promql_grammar.specs.Symbols.{may_be_name, token_kind};
ghost use Rattle.promql_kind.specs.Functions.{Signature};
ghost use Rattle.promql_kind.specs.Modifiers.{Matching};
ghost use Rattle.promql_ast.specs.Arguments.{count};
ghost use Rattle.promql_ast.specs.Checked.{check_tree};
ghost use Rattle.promql_ast.specs.Faults.{passes};
ghost use Rattle.promql_ast.specs.Height.{height};
ghost use Rattle.promql_ast.specs.Layout.{layout_of};
ghost use Rattle.promql_ast.specs.Mapped.{mapped};
ghost use Rattle.promql_ast.specs.Normal.{normal};
ghost use Rattle.promql_ast.specs.Selectors.{Selector};
ghost use Rattle.promql_ast.specs.Shifts.{Shift, ahead, back};
ghost use Rattle.promql_ast.specs.Text.{text};
ghost use Rattle.promql_ast.specs.Tree.{Tree, Trees, binary, call, matrix, vector};
ghost use Rattle.promql_ast.specs.Typed.{Typed};
ghost use Rattle.promql_ast.specs.Types.{type_of};
ghost use Rattle.promql_ast.specs.declared.range_mode.RangeMode.{RangeMode};
ghost use Rattle.promql_syntax.specs.Asking.{Asked};
ghost use Rattle.promql_syntax.specs.ParseAnswers.{HasTree, IsServed};
ghost use Rattle.promql_syntax.specs.declared.parser.TheConstants.{MAX_DEPTH};
ghost use Rattle.promql_rewrite.specs.AddedParens.{AddsParens};
ghost use Rattle.promql_rewrite.specs.Answered.{IsAnswered};
ghost use Rattle.promql_rewrite.specs.Collecting.{IsSetOf, from_nodes, is_metric_name, own_functions, own_labels, own_metrics};
ghost use Rattle.promql_rewrite.specs.Enforcing.{enforced, enforced_selector, has_bare_info, is_info};
ghost use Rattle.promql_rewrite.specs.Everywhere.{Everywhere};
ghost use Rattle.promql_rewrite.specs.Faithful.{Means};
ghost use Rattle.promql_rewrite.specs.Mapping.{KindedSelector, outline, selectors_of};
ghost use Rattle.promql_rewrite.specs.Parenthesizing.{parenthesized};
ghost use Rattle.promql_rewrite.specs.Patterns.{has_pattern, is_regex};
ghost use Rattle.promql_rewrite.specs.PrintableConditions.{AreGrouped, IsRightSide, PrintableOffset, PrintableTime};
ghost use Rattle.promql_rewrite.specs.PrintableTrees.{HasParts, IsPlaced, IsPrintable, IsPrintableAlone, PatternsAnswered, printed_height};
ghost use Rattle.promql_rewrite.specs.RenamedParts.{clause_with, label_with, matching_with, metric_with, selector_with};
ghost use Rattle.promql_rewrite.specs.Renaming.{Renaming, clashes, is_name, of_label, of_metric, renamed, renamed_selector, replaced};
ghost use Rattle.promql_rewrite.specs.Selecting.{Series, allows, selects};

/// Where a matcher is enforced, a selector selects exactly the series that it selected before and that the matcher allows.
pub fn enforced_selectors_select()
    ensures { (c : PlainMatcher) (s : Selector) (series : Series)
        → selects (enforced_selector c s) series ≡ selects s series && allows c series }
{}

/// A tree keeps its type and its height where a matcher is enforced, and it stays well typed.
pub fn enforced_trees_are_typed()
    ensures types { (c : PlainMatcher) (t : Tree) → type_of (enforced c t) ≡ type_of t }
    ensures heights { (c : PlainMatcher) (t : Tree) → height (enforced c t) ≡ height t }
    ensures typed { (c : PlainMatcher) (t : Tree) → name_of c ≢ codes "__name__"
        → Typed t → Typed (enforced c t) }
{}

/// A tree is well typed exactly if each of its nodes passes its checks, and is left as it is by them. Of a matrix selector that
/// is asked of its selector.
pub fn well_typed_trees_pass_their_checks()
    ensures { (t : Tree) → Typed t ↔ Everywhere (λ n. (check_tree n ≡ passes n)
        × ((s : Selector) (range : ℕ) (mode : RangeMode) → n ≡ matrix s range mode
        → check_tree (vector s) ≡ passes (vector s))) t }
{
    promql_ast::laws::checked_trees_are_typed();
}

/// A matcher is answered exactly if its pattern, where it has one, is the answer for its value. It names a metric exactly if it
/// is an equal matcher of `__name__`.
pub fn matchers_by_operator()
    ensures answered { (g : Text → Answer) (op : Operator) (name value : Text) → IsAnswered g (plain_matcher op name value)
        ↔ ((w : Text) → (op ≡ matches w) ⊎ (op ≡ matches_not w) → g value ≡ built w) }
    ensures metrics { (op : Operator) (name value : Text) → (is_metric_name (plain_matcher op name value) ≡ true)
        ↔ ((op ≡ equal) × (name ≡ codes "__name__")) }
{}

/// A tree has no bare call of `info` exactly if each of its calls of `info` has two arguments at least.
pub fn calls_of_info()
    ensures { (t : Tree) → (has_bare_info t ≡ false) ↔ Everywhere (λ n. (f : Signature) (args : Trees)
        → n ≡ call f args → is_info f ≡ true → 2 ≤ count args) t }
{}

/// A matcher that is enforced twice is there once.
pub fn enforced_once()
    ensures { (c : PlainMatcher) (t : Tree) → enforced c (enforced c t) ≡ enforced c t }
{}

/// With one answer for each pattern, that of the matcher too, the texts of an enforced query's tree, on one line or laid out at
/// any level and width, have the tree's normal form.
pub fn enforced_queries_read_back()
    ensures line { (g : Text → Answer) (source : Text) (t : Tree) (c : PlainMatcher) → HasTree g source t
        → IsAnswered g c → name_of c ≢ codes "__name__"
        → HasTree g (text (enforced c t)) (normal (enforced c t)) }
    ensures lines { (g : Text → Answer) (source : Text) (t : Tree) (c : PlainMatcher) → HasTree g source t
        → IsAnswered g c → name_of c ≢ codes "__name__" → (level most : ℕ)
        → HasTree g (layout_of (enforced c t) level most) (normal (enforced c t)) }
{}

/// The line of a query in which a matcher was enforced means the enforced tree where neither has a pattern, with no premise on
/// `regex`.
pub fn enforced_lines_without_patterns()
    ensures { (source : Text) (answers : List Asked) (t : Tree) (c : PlainMatcher) → IsServed source answers (Ok t)
        → has_pattern t ≡ false → is_regex c ≡ false → name_of c ≢ codes "__name__"
        → Means (text (enforced c t)) (enforced c t) }
{
    promql_label::laws::small_patterns_have_one_answer();
    promql_syntax::laws::trees_are_answers();
}

/// With one answer for each pattern, the texts of a printable tree, on one line or laid out at any level and width, have the
/// tree's normal form, whoever built the tree.
pub fn printable_trees_read_back()
    ensures line { (g : Text → Answer) (t : Tree) → IsPrintable g t → HasTree g (text t) (normal t) }
    ensures lines { (g : Text → Answer) (t : Tree) → IsPrintable g t
        → (level most : ℕ) → HasTree g (layout_of t level most) (normal t) }
{}

/// With one answer for each pattern, the tree of a text is printable.
pub fn parsed_trees_are_printable()
    ensures { (g : Text → Answer) (source : Text) (t : Tree) → HasTree g source t → IsPrintable g t }
{
    promql_ast::laws::checked_trees_are_typed();
}

/// The texts of a list, each once, in byte order, are one list.
pub fn sets_are_one_list()
    ensures { (texts xs ys : List Text) → IsSetOf texts xs → IsSetOf texts ys → xs ≡ ys }
{}

/// A selector in which a label is renamed selects exactly the series that the selector selects where it reads the new label
/// for the old one.
pub fn renamed_selectors_select()
    ensures { (from to : Text) (s : Selector) (series : Series) → from ≢ codes "__name__"
        → selects (renamed_selector (of_label from to) s) series
        ≡ selects s (λ l. series (replaced from to l)) }
{}

/// A renamed tree is the tree with the new name for the old one in its parts. A metric is named before braces and by matchers,
/// a label by matchers and in the lists of aggregations and operators.
pub fn renamings_change_parts()
    ensures metrics { (from to : Text) (t : Tree) → renamed (of_metric from to) t
        ≡ mapped (selector_with (option_map (replaced from to)) (metric_with (replaced from to))) (λ m. m) (λ m. m) t }
    ensures labels { (from to : Text) (t : Tree) → renamed (of_label from to) t
        ≡ mapped (selector_with (λ n. n) (label_with (replaced from to)))
        (option_map (clause_with (replaced from to))) (option_map (matching_with (replaced from to))) t }
    ensures metric_selectors { (from to : Text) (s : Selector) → renamed_selector (of_metric from to) s
        ≡ selector_with (option_map (replaced from to)) (metric_with (replaced from to)) s }
    ensures label_selectors { (from to : Text) (s : Selector) → renamed_selector (of_label from to) s
        ≡ selector_with (λ n. n) (label_with (replaced from to)) s }
{}

/// A text may be the name of a metric exactly if it is one token that the grammar takes before braces.
pub fn names_of_metrics()
    ensures { (text : Text) → (is_name text ≡ true) ↔ ((t : Token) × (tokens text ≡ Ok (t ∷ [])) × (t.1 ≡ text)
        × (may_be_name (token_kind t.0) ≡ true)) }
{}

/// A tree may be a right side exactly if it is not binary, or has a higher precedence, or both are powers. Where there are
/// or-groups, there are two at least, none of them empty, and no matcher beside them.
pub fn places_and_groups()
    ensures right_sides { (op : ℕ) (t : Tree) → IsRightSide op t ↔ ((inner : ℕ) (l r : Tree) (m : Option Matching)
        → t ≡ binary inner l r m → (precedence op < precedence inner) ⊎ ((op ≡ T_POW) × (inner ≡ T_POW))) }
    ensures groups { (cs : List PlainMatcher) (gs : List (List PlainMatcher)) → AreGrouped (plain_matchers cs gs)
        ↔ (gs ≢ [] → (cs ≡ []) × (2 ≤ length gs) × AllByRecursion (λ g. g ≢ []) gs) }
{}

/// An offset is printable exactly if its length, in either direction, is a printable time.
pub fn offsets_by_length()
    ensures { (o : Option Shift) → PrintableOffset o
        ↔ ((n : ℕ) → (o ≡ Some (back n)) ⊎ (o ≡ Some (ahead n)) → PrintableTime n) }
{}

/// A tree keeps its type and its height where a metric or a label is renamed. It stays well typed where a metric gets a name
/// that is not empty, as no name of a metric is, and where two labels that no list has both are renamed.
pub fn renamed_trees_are_typed()
    ensures types { (r : Renaming) (t : Tree) → type_of (renamed r t) ≡ type_of t }
    ensures heights { (r : Renaming) (t : Tree) → height (renamed r t) ≡ height t }
    ensures labels { (from to : Text) (t : Tree) → from ≢ codes "__name__" → to ≢ codes "__name__"
        → clashes from to t ≡ false → Typed t → Typed (renamed (of_label from to) t) }
    ensures metrics { (from to : Text) (t : Tree) → to ≢ [] → Typed t
        → Typed (renamed (of_metric from to) t) }
    ensures names { (name : Text) → is_name name ≡ true → name ≢ [] }
{}

/// A printable tree is printable where two labels that no list has both are renamed, and where a metric gets a name of metrics:
/// its texts mean it.
pub fn renamed_trees_are_printable()
    ensures labels { (g : Text → Answer) (from to : Text) (t : Tree)
        → from ≢ codes "__name__" → to ≢ codes "__name__" → clashes from to t ≡ false
        → IsPrintable g t → IsPrintable g (renamed (of_label from to) t) }
    ensures metrics { (g : Text → Answer) (from to : Text) (t : Tree) → is_name to ≡ true
        → IsPrintable g t → IsPrintable g (renamed (of_metric from to) t) }
{}

/// Where the new name is the old one, nothing changes.
pub fn renamed_to_itself()
    ensures labels { (name : Text) (t : Tree) → renamed (of_label name name) t ≡ t }
    ensures metrics { (name : Text) (t : Tree) → renamed (of_metric name name) t ≡ t }
{}

/// With one answer for each pattern, a tree is printable exactly if its line has its normal form: the rules of printable trees
/// ask for no more than is needed.
pub fn printable_trees_are_those_that_read_back()
    ensures { (g : Text → Answer) (t : Tree) → HasTree g (text t) (normal t) ↔ IsPrintable g t }
{
    promql_ast::laws::checked_trees_are_typed();
}

/// A tree is printable exactly if it is so by itself, and each of its patterns is the one of its value.
pub fn printable_trees_come_apart()
    ensures { (g : Text → Answer) (t : Tree)
        → IsPrintable g t ↔ (IsPrintableAlone t × Everywhere (PatternsAnswered g) t) }
{}

/// With parentheses where it needs them, a well typed tree whose nodes have what is printed as it is read is printable, if it
/// is not too high then. It keeps its type, it stays well typed, and its height less than doubles.
pub fn parenthesized_trees_are_printable()
    ensures alone { (t : Tree) → Typed t → Everywhere HasParts t
        → printed_height (parenthesized t) ≤ MAX_DEPTH
        → IsPrintableAlone (parenthesized t) }
    ensures printable { (g : Text → Answer) (t : Tree) → Typed t → Everywhere HasParts t → Everywhere (PatternsAnswered g) t
        → printed_height (parenthesized t) ≤ MAX_DEPTH
        → IsPrintable g (parenthesized t) }
    ensures types { (t : Tree) → type_of (parenthesized t) ≡ type_of t }
    ensures typed { (t : Tree) → Typed t → Typed (parenthesized t) }
    ensures heights { (t : Tree) → printed_height (parenthesized t) < 2 * printed_height t }
{}

/// With parentheses where it needs them, a tree is well placed, and without those that were added it is the tree. No well
/// placed tree that has parentheses more than the tree has fewer of them, and no other tree is such; to a tree that is well
/// placed none are added.
pub fn parentheses_are_fewest()
    ensures placed { (t : Tree) → Everywhere IsPlaced (parenthesized t) }
    ensures added { (t : Tree) → AddsParens t (parenthesized t) }
    ensures fewest { (t u : Tree) → AddsParens t u → Everywhere IsPlaced u → AddsParens (parenthesized t) u }
    ensures only { (t u : Tree) → AddsParens t u → Everywhere IsPlaced u
        → ((v : Tree) → AddsParens t v → Everywhere IsPlaced v → AddsParens u v)
        → u ≡ parenthesized t }
    ensures unchanged { (t : Tree) → Everywhere IsPlaced t → parenthesized t ≡ t }
{}

/// The names of a renamed tree are those of the tree, with the new name for the old one: labels change where a label is
/// renamed, metrics where a metric is, and nothing else does.
pub fn renamed_names()
    ensures labels { (from to : Text) (t : Tree) → from ≢ codes "__name__" → to ≢ codes "__name__"
        → from_nodes own_labels (renamed (of_label from to) t) ≡ map (replaced from to) (from_nodes own_labels t) }
    ensures metrics { (from to : Text) (t : Tree)
        → from_nodes own_metrics (renamed (of_metric from to) t) ≡ map (replaced from to) (from_nodes own_metrics t) }
    ensures functions { (r : Renaming) (t : Tree)
        → from_nodes own_functions (renamed r t) ≡ from_nodes own_functions t }
    ensures other_metrics { (from to : Text) (t : Tree) → from ≢ codes "__name__"
        → to ≢ codes "__name__" → from_nodes own_metrics (renamed (of_label from to) t) ≡ from_nodes own_metrics t }
    ensures other_labels { (from to : Text) (t : Tree)
        → from_nodes own_labels (renamed (of_metric from to) t) ≡ from_nodes own_labels t }
{}

/// Trees of one outline, as the tree before and the one that `map_selectors` returns, have one type, one height and as many
/// selectors, each of the kind that it was. One is well typed where the other is and its own selectors are; with the same
/// selectors they are one tree.
pub fn mapped_trees()
    ensures types { (t u : Tree) → outline t ≡ outline u → type_of t ≡ type_of u }
    ensures heights { (t u : Tree) → outline t ≡ outline u → height t ≡ height u }
    ensures kinds { (t u : Tree) → outline t ≡ outline u
        → map (λ (x : KindedSelector). x.0) (selectors_of t)
        ≡ map (λ (x : KindedSelector). x.0) (selectors_of u) }
    ensures typed { (t u : Tree) → outline t ≡ outline u → Typed t
        → AllByRecursion (λ (x : KindedSelector). Typed (vector x.1)) (selectors_of u) → Typed u }
    ensures same { (t u : Tree) → outline t ≡ outline u → selectors_of t ≡ selectors_of u → t ≡ u }
{}

/// Enforcing a matcher and renaming a metric change selectors alone, and all of them alike.
pub fn changes_of_selectors()
    ensures enforced_outline { (c : PlainMatcher) (t : Tree) → outline (enforced c t) ≡ outline t }
    ensures enforced { (c : PlainMatcher) (t : Tree) → selectors_of (enforced c t)
        ≡ map (λ (x : KindedSelector). (x.0, enforced_selector c x.1)) (selectors_of t) }
    ensures renamed_outline { (from to : Text) (t : Tree)
        → outline (renamed (of_metric from to) t) ≡ outline t }
    ensures renamed { (from to : Text) (t : Tree) → selectors_of (renamed (of_metric from to) t)
        ≡ map (λ (x : KindedSelector). (x.0, renamed_selector (of_metric from to) x.1))
        (selectors_of t) }
{}
