//! What is wrong with the labels of a series: docs/guide/bindings.md, "Series that a query may read".

use thiserror::Error;

/// Why a text is not the labels of a series.
#[derive(Clone, Copy, Debug, PartialEq, Eq, Error)]
pub enum LabelsFault {
    /// It is not JSON.
    #[error("not JSON, or nested too deeply")]
    NotJson,
    /// It is no object, or a member of it is no text.
    #[error("not an object whose members are texts")]
    NotTexts,
}
