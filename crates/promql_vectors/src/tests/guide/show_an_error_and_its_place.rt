//! docs/guide/cookbook.md, "Show an error and its place".

use promql_parser::parser::diagnose;
use std::alloc::{AllocError, Global};
use std::test::Fail;

/// What is wrong with the query and where, and its line with a mark below; nothing where it is accepted.
fn complaint(alloc: Global, query: &str) -> Result<String, AllocError> {
    match diagnose(alloc, query) {
        Ok(_) => Ok(String::new(alloc)),
        Err(diagnosis) => {
            let snippet = diagnosis.snippet(alloc, query)?;
            format!(in alloc; "{}\n{snippet}", diagnosis.display(query))
        }
    }
}

#[test]
fn messages(rt: HostRuntime) -> Result<(), Fail> {
    for (query, want) in [
        ("rate(foo[5m])", ""),
        (
            "foo{a=\"b\"",
            "1:10: unexpected end of input inside braces\nfoo{a=\"b\"\n         ^",
        ),
        ("foo +", "1:6: invalid promql query\nfoo +\n     ^"),
        (
            "foo{a=~\"(\"}",
            "1:8: illegal regex for (\nfoo{a=~\"(\"}\n       ^~~",
        ),
        (
            "2 *\nrate(foo)",
            "2:6: expected type matrix in call to function 'rate', got vector\nrate(foo)\n     ^~~",
        ),
    ] {
        assert_eq!(rt; complaint(rt.alloc(), query)?.as_str(), want);
    }
    Ok(())
}
