//! Each query with its line once a matcher is enforced, a name is another one, or selectors are mapped, and with what it names; texts
//! that mean a tree, and trees that no text means; trees with parentheses where they need them.

mod collecting;
mod enforcing;
mod faithful;
mod mapping;
mod parenthesizing;
mod printable;
mod renaming;
