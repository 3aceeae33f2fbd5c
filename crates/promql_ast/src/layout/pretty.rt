//! Layouts of nodes, of expressions and of lists of arguments: docs/reference/printing.md, "Nodes over several lines".

ghost use Rattle.std.specs.Prelude.{◌≡◌, ◌≤◌, ◌+◌, ◌++◌, ◌<◌, ◌*◌, ◌⊎◌, ◌&&◌, not, codes, ⊤, Err, Some, IfOk, OnOk, IfSome, IsTrue, string_bytes};
ghost use Rattle.promql_ast.specs.Layout.{deepest, deepests, is_leaf, layout_of, layouts_of, lines, lines_deepest};
ghost use Rattle.promql_ast.specs.Lines.{indent, is_longer, Keeps};
ghost use Rattle.promql_ast.specs.NodeView.{tree_of_node};
ghost use Rattle.promql_ast.specs.Nodes.{nodes};
ghost use Rattle.promql_ast.specs.Text.{text, texts};
ghost use Rattle.promql_ast.specs.Tree.{Tree};
ghost use Rattle.promql_ast.specs.View.{tree_of, trees_of};
ghost use Rattle.promql_text.specs.Texts.{joined_text};
ghost use Rattle.promql_text.specs.PrintedLen.{usize_max, cap_usize};

use crate::call::FunctionArgs;
use crate::expr::Expr;
use crate::layout::indent::indented_line;
use crate::layout::measurer::Measurer;
use crate::layout::node::Node;
use crate::layout::prettier::{Prettier, PrettyError};
use crate::layout::pretty::one_line::{args_len, line_len};
use crate::layout::tally::Tally;
use crate::layout::writer::LayoutWriter;
use std::alloc::Global;
use std::fmt::Display;

mod one_line;

impl Node<'_> {
    /// The node, laid out; `tally` counts the widths that are made.
    fn pretty(
        self,
        alloc: Global,
        level: usize,
        max: usize,
        tally: &mut Tally,
    ) -> Result<String, PrettyError>
        ensures text { IfOk result
            (λ s. string_bytes s ≡ layout_of (tree_of_node self.entry) level max) }
        ensures wide { result ≡ Err PrettyError.IndentTooWide
            → usize_max < 2 * deepest (tree_of_node self.entry) level max }
        ensures fits { IfOk result (λ s. 2 * deepest (tree_of_node self.entry) level max ≤ usize_max) }
        ensures counted { OnOk result
            (tally.new.widths ≡ cap_usize (tally.old.widths + nodes (tree_of_node self.entry))) }
        ensures between { (tally.old.widths ≤ tally.new.widths)
            × (tally.new.widths ≤ cap_usize (tally.old.widths + nodes (tree_of_node self.entry))) }
    {
        let mut measurer = Measurer::new(alloc);
        measurer.measure(self, max)?;
        tally.add(measurer.measured);
        let mut writer = LayoutWriter::new(alloc, &measurer.decisions);
        writer.write_layout(self, level)?;
        Ok(writer.out)
    }

    /// The node over several lines, if it has such a form, else its one line, indented.
    fn format(self, alloc: Global, level: usize, max: usize) -> Result<String, PrettyError>
        ensures text { IfOk result (λ s. string_bytes s ≡ lines (tree_of_node self.entry) level max) }
        ensures wide { result ≡ Err PrettyError.IndentTooWide
            → usize_max < 2 * lines_deepest (tree_of_node self.entry) level max }
        ensures fits { IfOk result
            (λ s. 2 * lines_deepest (tree_of_node self.entry) level max ≤ usize_max) }
    {
        let mut measurer = Measurer::new(alloc);
        measurer.measure_operands(self, max)?;
        let mut writer = LayoutWriter::new(alloc, &measurer.decisions);
        writer.write_lines(self, level)?;
        Ok(writer.out)
    }
}

/// A node that is laid out by itself.
pub trait LayoutNode: Display {
    ghost tree: { Self → Tree };

    fn node(&self) -> Node<'_>
        ensures { tree_of_node result ≡ tree self.now };

    /// It displays its one line.
    ghost shows: { (x : Self) → Self.output x ≡ Some (text (tree x)) };
}

impl<T: LayoutNode> Prettier for T {
    ghost use Rattle.std.proofs.Common.{ap};
    ghost use Rattle.std.specs.Option.{is_some};

    ghost own_pretty = { λ _ _ _ _. ⊤ };

    ghost own_format = { λ _ _ _ _. ⊤ };

    ghost states = { λ x. ap is_some (T.shows x) };

    fn pretty(&self, alloc: Global, level: usize, max: usize) -> Result<String, PrettyError>
        ensures keeps { Keeps (T.output self.now) result }
        ensures text { IfOk result (λ s. string_bytes s ≡ layout_of (T.tree self.now) level max) }
        ensures wide { result ≡ Err PrettyError.IndentTooWide
            → usize_max < 2 * deepest (T.tree self.now) level max }
        ensures fits { IfOk result (λ s. 2 * deepest (T.tree self.now) level max ≤ usize_max) }
    {
        self.node().pretty(alloc, level, max, &mut Tally::default())
    }

    fn format(&self, alloc: Global, level: usize, max: usize) -> Result<String, PrettyError>
        ensures keeps { Keeps (T.output self.now) result }
        ensures text { IfOk result (λ s. string_bytes s ≡ lines (T.tree self.now) level max) }
        ensures wide { result ≡ Err PrettyError.IndentTooWide
            → usize_max < 2 * lines_deepest (T.tree self.now) level max }
        ensures fits { IfOk result (λ s. 2 * lines_deepest (T.tree self.now) level max ≤ usize_max) }
    {
        self.node().format(alloc, level, max)
    }

    fn needs_split(&self, max: usize) -> bool
        ensures split { IfSome (T.output self.now)
            (λ t. (IsTrue result → IsTrue (is_longer max t)) ⊎ ⊥) }
        ensures exact { result
            ≡ (not (is_leaf (T.tree self.now)) && is_longer max (text (T.tree self.now))) }
    {
        let node = self.node();
        !node.is_leaf() && max < line_len(node)
    }
}

impl Expr {
    /// The expression, laid out; `tally` counts the widths that are made, one for each node.
    ///
    /// # Errors
    ///
    /// `IndentTooWide` where an indentation would have more bytes than a `usize` counts; `Memory` where an allocation
    /// failed.
    pub fn pretty_counted(
        &self,
        alloc: Global,
        level: usize,
        max: usize,
        tally: &mut Tally,
    ) -> Result<String, PrettyError>
        ensures text { IfOk result (λ s. string_bytes s ≡ layout_of (tree_of self.now) level max) }
        ensures wide { result ≡ Err PrettyError.IndentTooWide
            → usize_max < 2 * deepest (tree_of self.now) level max }
        ensures fits { IfOk result
            (λ s. 2 * deepest (tree_of self.now) level max ≤ usize_max) }
        ensures counted { OnOk result
            (tally.new.widths ≡ cap_usize (tally.old.widths + nodes (tree_of self.now))) }
        ensures between { (tally.old.widths ≤ tally.new.widths)
            × (tally.new.widths ≤ cap_usize (tally.old.widths + nodes (tree_of self.now))) }
    {
        self.node().pretty(alloc, level, max, tally)
    }

    /// The expression, laid out at level 0 in lines of at most 100 bytes.
    ///
    /// # Errors
    ///
    /// Those of `pretty`.
    pub fn prettify(&self, alloc: Global) -> Result<String, PrettyError>
        ensures text { IfOk result (λ s. string_bytes s ≡ layout_of (tree_of self.now) 0 100) }
        ensures wide { result ≡ Err PrettyError.IndentTooWide
            → usize_max < 2 * deepest (tree_of self.now) 0 100 }
        ensures fits { IfOk result
            (λ s. 2 * deepest (tree_of self.now) 0 100 ≤ usize_max) }
    {
        self.pretty(alloc, 0, 100)
    }
}

impl Prettier for Expr {
    ghost use Rattle.std.proofs.Common.{rules};

    ghost own_pretty = { λ _ _ _ _. ⊤ };

    ghost states = { λ e. Prim.search rules };

    fn pretty(&self, alloc: Global, level: usize, max: usize) -> Result<String, PrettyError>
        ensures keeps { Keeps (Some (text (tree_of self.now))) result }
        ensures text { IfOk result (λ s. string_bytes s ≡ layout_of (tree_of self.now) level max) }
        ensures wide { result ≡ Err PrettyError.IndentTooWide
            → usize_max < 2 * deepest (tree_of self.now) level max }
        ensures fits { IfOk result (λ s. 2 * deepest (tree_of self.now) level max ≤ usize_max) }
    {
        self.pretty_counted(alloc, level, max, &mut Tally::default())
    }

    fn format(&self, alloc: Global, level: usize, max: usize) -> Result<String, PrettyError>
        ensures keeps { Keeps (Some (text (tree_of self.now))) result }
        ensures text { IfOk result
            (λ s. string_bytes s ≡ indent level ++ text (tree_of self.now)) }
        ensures wide { result ≡ Err PrettyError.IndentTooWide → usize_max < 2 * level }
        ensures fits { IfOk result (λ s. 2 * level ≤ usize_max) }
    {
        let _ = max;
        indented_line(self, alloc, level)
    }

    fn needs_split(&self, max: usize) -> bool
        ensures split { IfSome (Some (text (tree_of self.now)))
            (λ t. (IsTrue result → IsTrue (is_longer max t)) ⊎ ⊥) }
        ensures exact { result ≡ is_longer max (text (tree_of self.now)) }
    {
        max < line_len(self.node())
    }
}

impl Prettier for FunctionArgs {
    ghost use Rattle.std.proofs.Common.{rules};

    ghost own_pretty = { λ _ _ _ _. ⊤ };

    ghost states = { λ e. Prim.search rules };

    fn pretty(&self, alloc: Global, level: usize, max: usize) -> Result<String, PrettyError>
        ensures keeps { Keeps (Some (joined_text (codes ", ") (texts
            (trees_of self.now.args.items)))) result }
        ensures text { IfOk result
            (λ s. string_bytes s ≡ joined_text (codes ",\n") (layouts_of (trees_of self.now.args.items) level max)) }
        ensures wide { result ≡ Err PrettyError.IndentTooWide
            → usize_max < 2 * deepests (trees_of self.now.args.items) level max }
        ensures fits { IfOk result
            (λ s. 2 * deepests (trees_of self.now.args.items) level max ≤ usize_max) }
    {
        let args = self.args.as_slice();
        let mut measurer = Measurer::new(alloc);
        measurer.measure_args(args, max)?;
        let mut writer = LayoutWriter::new(alloc, &measurer.decisions);
        writer.write_args(args, level)?;
        Ok(writer.out)
    }

    fn format(&self, alloc: Global, level: usize, max: usize) -> Result<String, PrettyError>
        ensures keeps { Keeps (Some (joined_text (codes ", ") (texts
            (trees_of self.now.args.items)))) result }
        ensures text { IfOk result (λ s. string_bytes s ≡ indent level
            ++ joined_text (codes ", ") (texts (trees_of self.now.args.items))) }
        ensures wide { result ≡ Err PrettyError.IndentTooWide → usize_max < 2 * level }
        ensures fits { IfOk result (λ s. 2 * level ≤ usize_max) }
    {
        let _ = max;
        indented_line(self, alloc, level)
    }

    fn needs_split(&self, max: usize) -> bool
        ensures split { IfSome (Some (joined_text (codes ", ") (texts
            (trees_of self.now.args.items))))
            (λ t. (IsTrue result → IsTrue (is_longer max t)) ⊎ ⊥) }
        ensures exact { result
            ≡ is_longer max (joined_text (codes ", ") (texts (trees_of self.now.args.items))) }
    {
        max < args_len(self.args.as_slice())
    }
}
