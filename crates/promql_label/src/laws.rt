//! Laws on the definitions alone. Each is the contract of a function that does nothing.

ghost use Rattle.regex.specs.Patterns.{default_config};
ghost use Rattle.regex_syntax.specs.Grammar.{read};
ghost use Rattle.std.specs.Prelude.{◌≡◌, ◌≢◌, ◌↔◌, ◌<◌, ◌≤◌, ◌++◌, ◌∷◌, ℕ, [], List, IsSomeAnd, IsTrue, Ok, Some, chars, codes, false, if◌then◌else◌, length, map, true};
ghost use Rattle.std.specs.List.{join_by, list_any, position_or_len, AllPairs, Contains};
ghost use Rattle.std.specs.Str.{bytes_eq};
ghost use Rattle.std.specs.List.Sorted.{IsSortedByKey, IsStableByKey};
ghost use Rattle.promql_text.specs.Quoting.{quoted_text, unquoted_text};
ghost use Rattle.promql_text.specs.Texts.{Text};
ghost use Rattle.promql_label.specs.Answers.{Allows, anchor, Answer, has_one_answer, is_read_pair, is_small, pattern_answer};
ghost use Rattle.promql_label.specs.Labels.{common, is_among, is_number_word, label_text, labels_of};
ghost use Rattle.promql_label.specs.MatcherRows.{WorkedLists};
ghost use Rattle.promql_label.specs.Operators.{IsMatcherOf};
ghost use Rattle.promql_label.specs.PatternSize.{size, weight};
ghost use Rattle.promql_label.specs.PlainPatterns.{is_plain};
ghost use Rattle.promql_label.specs.PlainMatchers.{Operator, PlainMatcher, PlainMatchers, append_plain, matcher_text, matchers_text, name_of, name_text, operator_text, plain_matchers, value_of};
ghost use Rattle.promql_label.specs.ReadMatchers.{MeanGroups, operator_id, parts_of, printed_groups, sorted_matchers};
ghost use Rattle.promql_label.specs.Repeats.{backslashed, escaped_repeats, opens_count, OpensCount};
ghost use Rattle.promql_label.specs.RepeatPlaces.{bytes_from};
ghost use Rattle.promql_label.specs.SortedTexts.{sorted_texts, text_order};
ghost use Rattle.promql_token.specs.Classes.{is_label};
ghost use Rattle.promql_token.specs.Ids.{text_of};
ghost use Rattle.promql_token.specs.Lexing.{pieces};
ghost use Rattle.promql_token.specs.declared.ids.TheConstants.{T_COMMA, T_IDENTIFIER, T_LOR, T_STRING};
ghost use Rattle.promql_token.specs.declared.state.Mode.TheVariants.{Braces};
ghost use Rattle.promql_text.specs.Equalities.{HashesAlike, IsSameBy};
ghost use Rattle.promql_label.specs.MatcherErrors.{plain_error_of};
ghost use Rattle.promql_label.specs.MatcherFeeds.{labels_feed, matcher_feed, matchers_feed, operator_feed};
ghost use Rattle.promql_label.specs.PatternRejections.{rejected_value};
ghost use Rattle.promql_label.specs.MatcherViews.{plain_matcher_of, plain_matchers_of, operator_of};

use crate::labels::Labels;
use crate::matcher::{MatchOp, Matcher, MatcherError};
use crate::matchers::Matchers;
use crate::pattern::{Pattern, PatternFault};
use crate::{ALERT_NAME, BUCKET_LABEL, INSTANCE_NAME, METRIC_NAME};
use std::hash::Hash;

/// The common labels of two lists are those that both have.
pub fn intersections()
    ensures { (ls others : List Text) (l : Text)
        → Contains (common ls others) l ↔ (Contains ls l × Contains others l) }
{}

/// Each common label is there once.
pub fn common_labels_are_distinct()
    ensures { (ls others : List Text) → AllPairs (λ l k. l ≢ k) (common ls others) }
{}

/// The common labels come in the order in which the first list has them first.
pub fn common_labels_keep_their_order()
    ensures { (ls others : List Text)
        → AllPairs (λ l k. position_or_len (bytes_eq l) ls < position_or_len (bytes_eq k) ls)
        (common ls others) }
{}

/// No other list has these labels in this order.
pub fn common_labels_are_one_list()
    ensures { (ls others both : List Text)
        → ((l : Text) → Contains both l ↔ (Contains ls l × Contains others l))
        → AllPairs (λ l k. position_or_len (bytes_eq l) ls < position_or_len (bytes_eq k) ls) both
        → both ≡ common ls others }
{}

/// A label of the one list is among the others exactly if there are common labels.
pub fn joint_lists_have_common_labels()
    ensures { (ls others : List Text)
        → IsTrue (list_any (is_among others) ls) ↔ (common ls others ≢ []) }
{}

/// A printed label means the label, as it is or unquoted, and is no word for a number; the printed name of a matcher means
/// the name.
pub fn printed_labels_read_back()
    ensures labels { (l : Text) → (if is_label (label_text l) then Some (label_text l)
        else unquoted_text (label_text l)) ≡ Some l }
    ensures no_numbers { (l : Text) → is_number_word (label_text l) ≡ false }
    ensures names { (name : Text) → (if is_label (name_text name) then Some (name_text name)
        else unquoted_text (name_text name)) ≡ Some name }
{}

/// The matchers of a normal form are in byte order of their texts, and those that print alike keep their order; no other list of
/// them is so. Their texts are the texts in byte order.
pub fn sorted_matchers_are_one_list()
    ensures one { (cs ds : List PlainMatcher) → (ds ≡ sorted_matchers cs)
        ↔ (IsSortedByKey matcher_text text_order ds × IsStableByKey matcher_text text_order cs ds) }
    ensures texts { (cs : List PlainMatcher)
        → sorted_texts (map matcher_text cs) ≡ map matcher_text (sorted_matchers cs) }
{}

/// An operator prints as the token of its id does.
pub fn operators_print_as_their_tokens()
    ensures { (op : Operator) → operator_text op ≡ text_of (operator_id op) }
{}

/// A printed list of matchers is read in braces, at any depth and before any text, as the tokens of its matchers, with a comma
/// between each two and an `or` between each two groups. They mean its matchers, group by group, in the order in which they print. Tokens mean one operator, name and value of each matcher, so lists that print alike have the
/// same. They mean nothing but what some list prints.
pub fn printed_matchers_read_back()
    ensures tokens { (cs : PlainMatchers)
        → (ts : List (ℕ × Text)) × (ts ≡ join_by (join_by (λ c.
        ((if is_label (name_of c) then T_IDENTIFIER else T_STRING), name_text (name_of c))
        ∷ ((parts_of c).0, text_of (parts_of c).0) ∷ (T_STRING, quoted_text (value_of c)) ∷ [])
        ((T_COMMA, codes ",") ∷ [])) ((T_LOR, codes "or") ∷ []) (printed_groups cs))
        × MeanGroups ts (printed_groups cs) × ((depth : ℕ) (r : Text)
        → pieces (record { depth = depth; mode = Braces }) (matchers_text cs ++ r)
        ≡ map (λ t. Ok t) ts ++ pieces (record { depth = depth; mode = Braces }) r) }
    ensures one_meaning { (ts : List (ℕ × Text)) (gs hs : List (List PlainMatcher))
        → MeanGroups ts gs → MeanGroups ts hs
        → map (map parts_of) gs ≡ map (map parts_of) hs }
    ensures nothing_else { (ts : List (ℕ × Text)) (gs : List (List PlainMatcher)) → MeanGroups ts gs
        → (cs : PlainMatchers) × (printed_groups cs ≡ gs) }
    ensures built { (id : ℕ) (name value : Text) (c : PlainMatcher)
        → IsMatcherOf id name value c
        → parts_of c ≡ (id, name, value) }
    ensures alike { (cs ds : PlainMatchers) → matchers_text cs ≡ matchers_text ds
        → map (map parts_of) (printed_groups cs) ≡ map (map parts_of) (printed_groups ds) }
    ensures worked { WorkedLists }
{}

/// Appending puts the matcher after those of the last group; without groups, after the plain ones.
pub fn appended_matchers()
    ensures grouped { (plain g : List PlainMatcher) (groups : List (List PlainMatcher)) (c : PlainMatcher)
        → append_plain (plain_matchers plain (groups ++ g ∷ [])) c
        ≡ plain_matchers plain (groups ++ (g ++ c ∷ []) ∷ []) }
    ensures plain { (plain : List PlainMatcher) (c : PlainMatcher)
        → append_plain (plain_matchers plain []) c ≡ plain_matchers (plain ++ c ∷ []) [] }
{}

/// A count, as the rules have it, comes before a text exactly if the test of `escape_repeats` says
/// so.
pub fn counts()
    ensures { (z : Text) → IsTrue (opens_count z) ↔ OpensCount z }
{}

/// The escaped form of a pattern is its bytes in order, with a backslash before each `{` that no
/// backslash takes and after which no count comes.
pub fn places_of_backslashes()
    ensures bytes { (z : Text) → escaped_repeats z ≡ backslashed false z }
    ensures places { (z : Text) → escaped_repeats z ≡ bytes_from z 0 (length z) }
{}

/// Lists of labels are equal exactly if they have the same texts in the same order.
pub fn equal_label_lists()
    ensures { IsSameBy labels_of ⟦<Labels as PartialEq>⟧.eq }
{}

/// Operators are equal exactly if they are of one kind, and of one text where they have a pattern.
pub fn equal_operators()
    ensures same { IsSameBy operator_of ⟦<MatchOp as PartialEq>⟧.eq }
    ensures hashed { HashesAlike operator_of ⟦<MatchOp as Hash>⟧.hash_input }
{}

/// Matchers are equal exactly if their operators, names and values are.
pub fn equal_matchers()
    ensures same { IsSameBy plain_matcher_of ⟦<Matcher as PartialEq>⟧.eq }
    ensures hashed { HashesAlike plain_matcher_of ⟦<Matcher as Hash>⟧.hash_input }
{}

/// Lists of matchers are equal exactly if they have the same matchers beside the groups, and the
/// same groups.
pub fn equal_matcher_lists()
    ensures { IsSameBy plain_matchers_of ⟦<Matchers as PartialEq>⟧.eq }
{}

/// Patterns are equal exactly if their built texts are, and then they are hashed alike.
pub fn equal_patterns()
    ensures same { IsSameBy (λ (p : Text). p) ⟦<Pattern as PartialEq>⟧.eq }
    ensures hashed { HashesAlike (λ (p : Text). p) ⟦<Pattern as Hash>⟧.hash_input }
{}

/// A pattern has one answer, which is computed, if each form of it that is tried is small or not read; any other may have it, or
/// be rejected for its size. A pattern is small if its grammar reads both its texts, and it measures at most 16,000.
pub fn small_patterns_have_one_answer()
    ensures small { (v : Text) → has_one_answer v ≡ true → (a : Answer) → Allows v a
        → a ≡ pattern_answer v }
    ensures allowed { (v : Text) → Allows v (pattern_answer v) }
{}

/// Plain patterns are read, by themselves and anchored.
pub fn plain_patterns_are_read()
    ensures { (v : Text) → is_plain v ≡ true → is_read_pair v ≡ true }
{}

/// What the grammar reads in a plain pattern, by itself and anchored, weighs no more than the pattern's size.
pub fn plain_patterns_weigh_their_size_at_most()
    ensures alone { (v : Text) → is_plain v ≡ true
        → IsSomeAnd (read default_config (chars v)) (λ p. weight p.0.value ≤ size v) }
    ensures anchored { (v : Text) → is_plain v ≡ true
        → IsSomeAnd (read default_config (chars (anchor v))) (λ p. weight p.0.value ≤ size v) }
{}

/// What is fed to a hasher: of labels their texts, of matchers their operators, names and values, of a
/// list its matchers and groups.
pub fn hash_inputs()
    ensures labels { (x : Labels) → ⟦<Labels as Hash>⟧.hash_input x ≡ labels_feed (labels_of x) }
    ensures operators { (op : MatchOp)
        → ⟦<MatchOp as Hash>⟧.hash_input op ≡ operator_feed (operator_of op) }
    ensures matchers { (m : Matcher)
        → ⟦<Matcher as Hash>⟧.hash_input m ≡ matcher_feed (plain_matcher_of m) }
    ensures lists { (m : Matchers)
        → ⟦<Matchers as Hash>⟧.hash_input m ≡ matchers_feed (plain_matchers_of m) }
{}

/// Faults of patterns are equal exactly if they are of one kind and have one value.
pub fn equal_pattern_faults()
    ensures { IsSameBy rejected_value ⟦<PatternFault as PartialEq>⟧.eq }
{}

/// Errors of matchers are equal exactly if they are of one kind and have one id or value.
pub fn equal_matcher_errors()
    ensures { IsSameBy plain_error_of ⟦<MatcherError as PartialEq>⟧.eq }
{}

/// The labels with a meaning of their own have these texts.
pub fn label_names()
    ensures metric_name { METRIC_NAME.now ≡ codes "__name__" }
    ensures alert_name { ALERT_NAME.now ≡ codes "alertname" }
    ensures bucket_label { BUCKET_LABEL.now ≡ codes "le" }
    ensures instance_name { INSTANCE_NAME.now ≡ codes "instance" }
{}
