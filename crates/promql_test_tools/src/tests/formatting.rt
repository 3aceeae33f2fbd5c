//! Queries with their layouts at several widths, with comments, and with their spelling kept; texts that have none.

mod comments;
mod errors;
mod layouts;
mod rules;
mod spelling;
