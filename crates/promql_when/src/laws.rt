//! What holds of the times of queries: docs/reference/when.md. The functions do nothing; their contracts are the laws.

ghost use Rattle.std.specs.Prelude.{◌≡◌, Bool, ℕ, ℤ, map, true, Some};
ghost use Rattle.std.specs.Int.Signed.{◌≤ℤ◌};
ghost use Rattle.promql_ast.specs.Selectors.{Selector};
ghost use Rattle.promql_ast.specs.Tree.{Tree};
ghost use Rattle.promql_ast.specs.Typed.{Typed};
ghost use Rattle.promql_ast.specs.Types.{type_of};
ghost use Rattle.promql_when.specs.Ends as ends;
ghost use Rattle.promql_when.specs.Ends.{all_evaluated, first_of, has_read_to, has_window_to};
ghost use Rattle.promql_when.specs.Last.{is_constant, last_of};
ghost use Rattle.promql_when.specs.Pinned.{over, pinned, pinned_selector};
ghost use Rattle.promql_when.specs.Reached.{evaluation, is_reached, reach};
ghost use Rattle.promql_when.specs.Reads.{is_read, lies_within, reads, windows};
ghost use Rattle.promql_when.specs.Windows.{IsAsked, asked, instant};
ghost use Rattle.promql_when.specs.declared.times.Times.{Times};
ghost use Rattle.promql_when.specs.declared.times.Window.{Window};

/// What is read at a time of the query lies within its windows: a sample that is read of a selector lies within a window of that
/// selector.
pub fn reads_lie_within_windows()
    ensures { (ts : Times) (t : Tree) (x : ℤ) → IsAsked ts x → (is_one : Selector → Bool) (sample : ℤ)
        → is_read is_one sample (reads ts t x) ≡ true → lies_within is_one sample (windows ts t (asked ts)) ≡ true }
{}

/// Over any times, a pinned query reads at each time what the query reads there over its own.
pub fn pinned_queries_read_the_same()
    ensures { (ts : Times) (start end : ℤ) (step : ℕ) (t : Tree) (x : ℤ)
        → reads (over start end step ts) (pinned ts.start ts.end t) x
        ≡ map (λ r. (pinned_selector ts.start ts.end r.0, r.1)) (reads ts t x) }
{}

/// Nothing is read after the last time that is read.
pub fn nothing_is_read_after_the_last()
    ensures { (ts : Times) (t : Tree) (x sample : ℤ) (is_one : Selector → Bool) → is_read is_one sample (reads ts t x) ≡ true
        → (last : ℤ) × (last_of (windows ts t (Some (instant x))) ≡ Some last) × (sample ≤ℤ last) }
{}

/// A constant query reads the same at every time.
pub fn constant_queries_read_the_same()
    ensures { (ts : Times) (t : Tree) (x y : ℤ) → is_constant t ≡ true → reads ts t x ≡ reads ts t y }
{}

/// Both ends of a window are reached, where each subquery has a time in the first and the last window in which it is evaluated: at the
/// first time of the query a selector reads from the first millisecond of its window on, and at the last time up to the last one.
pub fn ends_are_reached()
    ensures first { (ts : Times) (t : Tree) (w : Window) → asked ts ≡ Some w → all_evaluated first_of ts t w.first ≡ true
        → (is_asked : Selector → ℤ → Bool) → has_window_to first_of is_asked (windows ts t (Some w)) ≡ true
        → has_read_to first_of is_asked (reads ts t w.first) ≡ true }
    ensures last { (ts : Times) (t : Tree) (w : Window) → asked ts ≡ Some w → all_evaluated ends.last_of ts t w.last ≡ true
        → (is_asked : Selector → ℤ → Bool) → has_window_to ends.last_of is_asked (windows ts t (Some w)) ≡ true
        → has_read_to ends.last_of is_asked (reads ts t w.last) ≡ true }
    ensures asked { (ts : Times) (w : Window) → asked ts ≡ Some w → IsAsked ts w.first × IsAsked ts w.last }
{}

/// A pinned query has the type of the query, and is well typed where the query is.
pub fn pinned_queries_are_typed()
    ensures types { (start end : ℤ) (t : Tree) → type_of (pinned start end t) ≡ type_of t }
    ensures typed { (start end : ℤ) (t : Tree) → Typed t → Typed (pinned start end t) }
{}

/// What is read at a time lies within reach of it: a sample that is read of a selector lies within the reach of that selector, moved to the
/// time unless it is fixed.
pub fn reads_lie_within_reach()
    ensures { (ts : Times) (t : Tree) (x sample : ℤ) (is_one : Selector → Bool) → is_read is_one sample (reads ts t x) ≡ true
        → is_reached is_one x sample (reach ts t evaluation) ≡ true }
{}
