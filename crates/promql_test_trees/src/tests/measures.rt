//! How large the patterns of a form are, by the rules of docs/reference/json.md, "The patterns of a form", and
//! docs/reference/matchers.md, "The measure of a pattern".

use super::columns;
use promql_from_json::form_measure;
use serde_json::{Error, Value};
use std::alloc::Global;
use std::process::Abort;

/// Values, and the measure of the patterns in each: that of `b` is 7, of `\w` 30, and of `\w{720}` 25,235.
const MEASURES: &str = r#"1 => 0
"=~" => 0
[] => 0
{} => 0
{"name":"a","type":"=~","value":"b"} => 7
{"name":"a","type":"!~","value":"b"} => 7
{"name":"a","type":"=","value":"b"} => 0
{"name":"a","type":"!=","value":"b"} => 0
{"name":"a","type":"=~","value":"\\w{720}"} => 25235
{"type":"=~","value":"b"} => 7
{"name":"=~","value":"b"} => 0
{"name":"a","type":"=~"} => 0
{"name":"b","type":"=~","value":1} => 0
{"name":"b","type":["=~"],"value":"b"} => 0
{"name":"b","type":"= ~","value":"b"} => 0
{"type":"=~","value":{"type":"=~","value":"b"}} => 7
{"type":"=~","value":"b","x":[{"type":"!~","value":"\\w"}]} => 37
[{"type":"=~","value":"b"},{"type":"=~","value":"b"},{"type":"=~","value":"\\w"}] => 44
[[{"type":"=~","value":"b"}],[{"type":"=~","value":"b"},1]] => 14
{"matchers":[{"type":"=~","value":"b"}],"or_matchers":[[{"type":"=~","value":"b"}],[{"type":"!~","value":"\\w"}]]} => 44
{"args":[1,{"expr":{"matchers":[{"type":"=~","value":"b"}]}},{"matchers":[{"type":"=~","value":"b"}]}],"type":"call"} => 14"#;

/// The measure of the patterns of a text's value.
fn measure_of(alloc: Global, text: &str) -> Result<usize, Error> {
    Ok(form_measure(&Value::from_str(alloc, text)?))
}

fn check_measure(rt: &impl Abort, found: Result<usize, Error>, want: Option<usize>, row: &str) {
    assert!(rt; found.is_ok() && found.ok() == want, "{row}");
}

#[test]
fn patterns_of_forms_are_measured(rt: HostRuntime) {
    for row in MEASURES.split('\n') {
        let (text, want) = columns(row);
        check_measure(&rt, measure_of(rt.alloc(), text), want.parse().ok(), row);
    }
}
