//! A query that is formatted: docs/reference/programs.md, "One query, formatted".

use crate::format_settings::FormatSettings;
use crate::query_layout::query_layout;
use crate::task::Task;
use promql_query::query_error::QueryError;
use promql_span::Target;
use std::alloc::Global;

impl Task for FormatSettings {
    ghost use Rattle.std.specs.Prelude.{Err, Ok};
    ghost use Rattle.promql_programs.specs.Layouts.{IsFormatAnswer};

    ghost makes = { λ settings query answer. IsFormatAnswer settings query (Ok answer) };

    ghost fails = { λ settings e query. IsFormatAnswer settings query (Err e) };

    ghost served = { λ settings. settings.limits.target };

    fn answer(&self, alloc: Global, query: &str) -> Result<String, QueryError> {
        query_layout(alloc, self, query)
    }

    fn target(&self) -> Target {
        self.limits.target
    }
}
