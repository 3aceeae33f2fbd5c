//! Chains of operators of one precedence: docs/reference/formatting.md, "Chains".

use crate::piece::{Break, Piece};
use promql_grammar::precedence::precedence;
use promql_token::TokenId;
use promql_token::ids::{T_LAND, T_LOR, T_LUNLESS};
use std::alloc::{AllocError, Global};

/// How many precedences there are.
const PRECEDENCES: usize = 6;

/// How an operand is written after an operator.
#[derive(Clone, Copy, Debug, PartialEq, Eq)]
pub(crate) enum Size {
    /// A number, or a call of nothing or of a number.
    Number,
    /// A string or a selector.
    Short,
    Long,
    /// A chain of operators.
    Chain,
}

/// An operand, by the indexes of its tokens.
#[derive(Clone, Copy)]
pub(crate) struct Operand {
    pub start: usize,
    pub last: usize,
    pub size: Size,
}

/// Operators of one precedence, with their operands.
#[derive(Clone, Copy)]
struct Chain {
    /// How many brackets are open around it.
    depth: usize,
    precedence: usize,
    is_set: bool,
    /// The first token of its first operand.
    start: usize,
    /// Its last operator so far.
    operator: usize,
    /// How many operators it has so far.
    count: usize,
    /// Whether its first operand is a number.
    after_number: bool,
}

/// The chains that are open, from the outermost to the innermost.
#[derive(Drop)]
pub(crate) struct Chains {
    open: Vec<Chain>,
}

impl Chains {
    pub fn new(alloc: Global) -> Chains {
        Chains {
            open: Vec::new(alloc),
        }
    }

    /// Ends the chains that bind tighter than an operator of this precedence, which comes after the operand (0 at the end
    /// of an expression), and returns the operand that they make.
    pub fn end(
        &mut self,
        list: &mut Vec<Piece>,
        depth: usize,
        precedence: usize,
        operand: Operand,
    ) -> Operand {
        let mut operand = operand;
        for _ in 0..PRECEDENCES {
            let Some(chain) = self.open.pop() else {
                return operand;
            };
            if chain.depth != depth || chain.precedence <= precedence {
                let _ = self.open.push(chain);
                return operand;
            }
            if !chain.is_set || chain.count == 1 {
                fill(list, &chain, operand.size);
            }
            if let Some(piece) = list.get_mut(operand.last) {
                piece.closes = piece.closes.saturating_add(1);
            }
            operand.start = chain.start;
            operand.size = Size::Chain;
        }
        operand
    }

    /// Adds an operator after an operand, to the chain of its precedence or to a new one.
    pub fn join(
        &mut self,
        list: &mut Vec<Piece>,
        depth: usize,
        op: TokenId,
        operator: usize,
        operand: Operand,
    ) -> Result<(), AllocError> {
        let precedence = precedence(op);
        let mut count: usize = 1;
        let mut start = operand.start;
        let mut after_number = operand.size == Size::Number;
        match self.open.pop() {
            Some(chain) if chain.depth == depth && chain.precedence == precedence => {
                if !chain.is_set {
                    fill(list, &chain, operand.size);
                }
                count = chain.count.saturating_add(1);
                start = chain.start;
                after_number = chain.after_number;
            }
            Some(chain) => {
                self.open.push(chain)?;
                begin(list, start);
            }
            None => begin(list, start),
        }
        self.open.push(Chain {
            depth,
            precedence,
            is_set: matches!(op, T_LAND | T_LOR | T_LUNLESS),
            start,
            operator,
            count,
            after_number,
        })?;
        Ok(())
    }
}

/// Lets the last operator of a chain stay on the line before it, where that suits its right side.
fn fill(list: &mut Vec<Piece>, chain: &Chain, size: Size) {
    if let Some(piece) = list.get_mut(chain.operator) {
        match size {
            Size::Number => piece.place = Break::Number,
            Size::Short => piece.place = Break::Fill,
            Size::Long if chain.after_number && chain.count == 1 => {
                piece.place = Break::AfterNumber;
            }
            Size::Long | Size::Chain => {}
        }
    }
}

/// Begins a chain with this token.
fn begin(list: &mut Vec<Piece>, start: usize) {
    if let Some(piece) = list.get_mut(start) {
        piece.opens = piece.opens.saturating_add(1);
    }
}
