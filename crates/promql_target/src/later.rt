//! The functions that Prometheus 2.42 does not have: docs/reference/targets.md, "Later functions".

ghost use Rattle.std.specs.Prelude.{◌≡◌};
ghost use Rattle.promql_target.specs.Refusals as spec;

/// Whether the function of this name came after Prometheus 2.42.
pub fn is_later(name: &str) -> bool
    ensures { result ≡ spec.is_later name.now }
{
    matches!(
        name,
        "double_exponential_smoothing"
            | "end"
            | "first_over_time"
            | "histogram_avg"
            | "histogram_quantiles"
            | "histogram_stddev"
            | "histogram_stdvar"
            | "info"
            | "mad_over_time"
            | "max_of"
            | "min_of"
            | "range"
            | "sort_by_label"
            | "sort_by_label_desc"
            | "start"
            | "step"
            | "ts_of_first_over_time"
            | "ts_of_last_over_time"
            | "ts_of_max_over_time"
            | "ts_of_min_over_time"
    )
}

/// Whether the function of this name takes a number for its vector here.
pub fn is_logarithm(name: &str) -> bool
    ensures { result ≡ spec.is_logarithm name.now }
{
    matches!(name, "exp" | "ln" | "log2" | "log10")
}
