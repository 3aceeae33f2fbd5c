//! Laws: the contracts of functions that do nothing.

ghost use Rattle.std.specs.Prelude.{◌≡◌, ◌↔◌, ◌+◌, ◌≤◌, ℕ, List, [], ◌∷◌, length, Result, Ok};
ghost use Rattle.promql_text.specs.Equalities.{IsSameBy};
ghost use Rattle.promql_grammar.specs.Grammar.{Arguments, Derivation, IsWellFormed, height, yield, yield_arguments};
ghost use Rattle.promql_grammar.specs.Symbols.{punct};
ghost use Rattle.promql_grammar.specs.declared.token_kinds.TokenKind.TheVariants as kind;
ghost use Rattle.promql_text.specs.Texts.{Text};
ghost use Rattle.promql_label.specs.Answers.{Allows, Answer, pattern_answer};
ghost use Rattle.promql_ast.specs.Layout.{layout_of};
ghost use Rattle.promql_ast.specs.Normal.{normal};
ghost use Rattle.promql_ast.specs.Text.{text};
ghost use Rattle.promql_ast.specs.Tree.{Tree};
ghost use Rattle.promql_syntax.specs.ParseAnswers.{Derives, HasTree, IsServed, PlainParseError, fault, plain_error_of};
ghost use Rattle.promql_syntax.specs.Asking.{AreAnswersOf, Asked, Asking, Ends, under};
ghost use Rattle.promql_syntax.specs.BuildErrors.{BuildError};
ghost use Rattle.promql_syntax.specs.Building.{build};
ghost use Rattle.promql_syntax.specs.FaultTokens.{rest_count};
ghost use Rattle.promql_syntax.specs.PartBuilding.{on_error};
ghost use Rattle.promql_syntax.specs.TreePatterns.{HasSmallPatterns};
ghost use Rattle.promql_syntax.specs.declared.parser.TheConstants.{MAX_DEPTH};

use crate::parser::ParseError;

/// The greatest height of an expression that is read: docs/reference/grammar.md, "The answer to a text".
pub fn greatest_height()
    ensures { MAX_DEPTH ≡ 512 }
{}

/// No two well formed derivations spell the same tokens, so a text has one tree.
pub fn one_tree()
    ensures { (a b : Derivation) → IsWellFormed a → IsWellFormed b → yield a ≡ yield b → a ≡ b }
{
    promql_grammar::laws::one_tree();
}

/// The tokens of arguments that follow another, and of the commas before them, are those up to the closing parenthesis.
pub fn argument_counts()
    ensures { (ds : Arguments) → 1 + rest_count ds ≡ length (yield_arguments (punct kind.Comma ∷ []) ds) }
{}

/// Errors are equal exactly if they are of one kind, with the same data.
pub fn equal_errors()
    ensures { IsSameBy plain_error_of ⟦<ParseError as PartialEq>⟧.eq }
{
    promql_token::laws::equal_faults();
}

/// With one answer for each pattern, building ends exactly in what it ends in with these answers; and where there is a
/// derivation, the answer to the text is what that builds.
pub fn single_answers()
    ensures ends { (g : Text → Answer) (building : Asking Tree) (result : Result Tree BuildError)
        → (under g building ≡ result)
        ↔ ((answers : List Asked) × AreAnswersOf g answers × Ends building answers result) }
    ensures built { (g : Text → Answer) (source : Text) (answers : List Asked)
        (answer : Result Tree PlainParseError) → IsServed source answers answer → AreAnswersOf g answers
        → (d : Derivation) → Derives source d → height d ≤ MAX_DEPTH
        → answer ≡ on_error fault (under g (build d)) }
{}

/// With one answer for each pattern, the answer to a text is a tree exactly if the text has it.
pub fn answers_are_trees()
    ensures has { (g : Text → Answer) (source : Text) (answers : List Asked) (t : Tree)
        → IsServed source answers (Ok t) → AreAnswersOf g answers → HasTree g source t }
    ensures is { (g : Text → Answer) (source : Text) (answers : List Asked)
        (answer : Result Tree PlainParseError) (t : Tree) → IsServed source answers answer
        → AreAnswersOf g answers → HasTree g source t → answer ≡ Ok t }
{}

/// With one answer for each pattern, which is allowed, a text that has a tree is answered by it.
pub fn trees_are_answers()
    ensures { (g : Text → Answer) → ((v : Text) → Allows v (g v)) → (source : Text) (t : Tree)
        → HasTree g source t → (answers : List Asked) × IsServed source answers (Ok t) }
{}

/// With one answer for each pattern, the text of a text's tree, on one line or laid out at any
/// level and width, has the tree's normal form.
pub fn laid_reads_back()
    ensures line { (g : Text → Answer) (source : Text) (t : Tree) → HasTree g source t
        → HasTree g (text t) (normal t) }
    ensures lines { (g : Text → Answer) (source : Text) (t : Tree) → HasTree g source t
        → (level most : ℕ) → HasTree g (layout_of t level most) (normal t) }
{}

/// With one answer for each pattern, the trees of two texts print alike exactly if their normal
/// forms are equal.
pub fn prints_alike()
    ensures { (g : Text → Answer) (first second : Text) (s t : Tree)
        → HasTree g first s → HasTree g second t → (text s ≡ text t) ↔ (normal s ≡ normal t) }
{}

/// Where a tree's patterns are small, nothing is assumed of `regex`: the answer to a text is such a tree
/// exactly if the text has it, each pattern with its computed answer. The patterns of its normal form are
/// small too, so the same holds of its printed texts.
pub fn small_patterns_need_no_premise()
    ensures has { (source : Text) (answers : List Asked) (t : Tree)
        → IsServed source answers (Ok t) → HasSmallPatterns t → HasTree pattern_answer source t }
    ensures is { (source : Text) (answers : List Asked) (answer : Result Tree PlainParseError) (t : Tree)
        → IsServed source answers answer → HasTree pattern_answer source t → HasSmallPatterns t
        → answer ≡ Ok t }
    ensures normal { (t : Tree) → HasSmallPatterns t → HasSmallPatterns (normal t) }
{
    promql_label::laws::small_patterns_have_one_answer();
}

/// A printed query with small patterns means the query that was read, with no premise on `regex`: where a
/// text was answered by such a tree, each answer to the tree's text, on one line or laid out at any level
/// and width, that is not for memory is its normal form; and two such texts print alike exactly if the
/// normal forms of their trees are equal.
pub fn small_patterns_read_back()
    ensures line { (source : Text) (answers again : List Asked) (t : Tree)
        (answer : Result Tree PlainParseError) → IsServed source answers (Ok t) → HasSmallPatterns t
        → IsServed (text t) again answer → answer ≡ Ok (normal t) }
    ensures lines { (source : Text) (answers again : List Asked) (t : Tree)
        (answer : Result Tree PlainParseError) → IsServed source answers (Ok t) → HasSmallPatterns t
        → (level most : ℕ) → IsServed (layout_of t level most) again answer → answer ≡ Ok (normal t) }
    ensures alike { (first second : Text) (answers others : List Asked) (s t : Tree)
        → IsServed first answers (Ok s) → IsServed second others (Ok t)
        → HasSmallPatterns s → HasSmallPatterns t → (text s ≡ text t) ↔ (normal s ≡ normal t) }
{
    small_patterns_need_no_premise();
    laid_reads_back();
    prints_alike();
}
