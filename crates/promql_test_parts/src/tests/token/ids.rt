//! The texts of ids, and the keywords.

use crate::tests::{holds, is_so, prints};
use promql_token::ids::*;
use promql_token::{TokenType, get_keyword_token, lexer, token_display};
use std::alloc::{AllocError, Global};
use std::process::Abort;

/// The texts of the ids in their order, and of two ids more.
const SHOWN: &str = "=
_
:
,
#
[du]
<eof>
{Err}
{ID}
{
[
(
{{
}}
{Metric_ID}
{Num}
}
]
)
,
<space>
{Str}
x
operators_start
+
/
==
=~
>=
>
and
or
<
<=
unless
%
*
!=
!~
^
-
@
atan2
operators_end
aggregators_start
avg
bottomk
count
count_values
group
max
min
quantile
stddev
stdvar
sum
topk
limitk
limit_ratio
aggregators_end
keywords_start
bool
by
group_left
group_right
ignoring
offset
smoothed
anchored
on
without
fill
fill_left
fill_right
keywords_end
preprocessor_start
start
end
step
preprocessors_end
not used
not used
not used
not used
not used
not used
unknown token
unknown token";

#[test]
fn ids_have_their_texts(rt: HostRuntime) {
    for (id, text) in (0..u16::MAX).zip(SHOWN.split('\n')) {
        holds(&rt, token_display(id) == text, text);
        prints(&rt, TokenType::new(id).to_string(rt.alloc()), text);
    }
    for id in &[86, 87, 1000, u16::MAX] {
        holds(&rt, token_display(*id) == "unknown token", "unknown");
    }
}

/// Words in lower, upper and mixed case, and the id that they are read as.
const SPELLINGS: [(&str, TokenId); 35] = [
    ("and AND aNd", T_LAND),
    ("or OR oR", T_LOR),
    ("unless UNLESS uNlEsS", T_LUNLESS),
    ("atan2 ATAN2 aTaN2", T_ATAN2),
    ("avg AVG aVg", T_AVG),
    ("bottomk BOTTOMK bOtToMk", T_BOTTOMK),
    ("count COUNT cOuNt", T_COUNT),
    ("count_values COUNT_VALUES cOuNt_vAlUeS", T_COUNT_VALUES),
    ("group GROUP gRoUp", T_GROUP),
    ("max MAX mAx", T_MAX),
    ("min MIN mIn", T_MIN),
    ("quantile QUANTILE qUaNtIlE", T_QUANTILE),
    ("stddev STDDEV sTdDeV", T_STDDEV),
    ("stdvar STDVAR sTdVaR", T_STDVAR),
    ("sum SUM sUm", T_SUM),
    ("topk TOPK tOpK", T_TOPK),
    ("limitk LIMITK lImItK", T_LIMITK),
    ("limit_ratio LIMIT_RATIO lImIt_rAtIo", T_LIMIT_RATIO),
    ("offset OFFSET oFfSeT", T_OFFSET),
    ("by BY bY", T_BY),
    ("without WITHOUT wItHoUt", T_WITHOUT),
    ("on ON oN", T_ON),
    ("ignoring IGNORING iGnOrInG", T_IGNORING),
    ("group_left GROUP_LEFT gRoUp_lEfT", T_GROUP_LEFT),
    ("group_right GROUP_RIGHT gRoUp_rIgHt", T_GROUP_RIGHT),
    ("bool BOOL bOoL", T_BOOL),
    ("smoothed SMOOTHED sMoOtHeD", T_SMOOTHED),
    ("anchored ANCHORED aNcHoReD", T_ANCHORED),
    ("fill FILL fIlL", T_FILL),
    ("fill_left FILL_LEFT fIlL_LeFt", T_FILL_LEFT),
    ("fill_right FILL_RIGHT fIlL_RiGhT", T_FILL_RIGHT),
    ("start START sTaRt", T_START),
    ("end END eNd", T_END),
    ("inf INF iNf", T_NUMBER),
    ("nan NAN nAn", T_NUMBER),
];

fn reads_as(alloc: Global, word: &str, id: TokenId) -> Result<bool, AllocError> {
    let text = format!(in alloc; "{word} ()")?;
    match lexer(alloc, text.as_str()) {
        Ok(found) => Ok(found.first().map(|x| x.id) == Some(id)),
        Err(_) => Ok(false),
    }
}

/// Each of the words is read as this id, and the first alone is a keyword as it is.
fn check_spellings(rt: &impl Abort, alloc: Global, words: &str, id: TokenId) {
    let mut is_first = true;
    for word in words.split(' ') {
        is_so(rt, reads_as(alloc, word, id), word);
        holds(rt, get_keyword_token(word) == is_first.then_some(id), word);
        is_first = false;
    }
}

#[test]
fn keywords_are_read_in_any_case(rt: HostRuntime) {
    for (words, id) in &SPELLINGS {
        check_spellings(&rt, rt.alloc(), words, *id);
    }
}

#[test]
fn other_words_are_no_keywords(rt: HostRuntime) {
    for word in &["step", "range", "", "counts", "infinity"] {
        holds(&rt, get_keyword_token(word).is_none(), word);
    }
}
