//! One file a recipe. Without its first line each file is the code under its heading in docs/guide/cookbook.md, which
//! `bin/check_docs` compares.

mod add_a_matcher_to_every_selector;
mod collect_metric_names;
mod find_out_what_a_query_returns;
mod format_within_a_width;
mod make_a_cache_key;
mod parse_and_print;
mod rename_a_label;
mod show_an_error_and_its_place;
mod stop_a_walk_early;
mod write_json;
