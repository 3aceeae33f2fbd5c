//! Where the nodes of a query are (docs/reference/walks.md, "Places"): a line of marks for each, in the order of a walk.

use crate::tests::{Failed, prints};
use promql_places::parse_placed;
use promql_span::Span;
use std::alloc::{AllocError, Global};

/// Queries, and below each the tokens of its nodes. Between two queries is an empty line.
const PICTURES: &str = r#"1
~

 - + 1m
 ~~~~~~

"a"
~~~

a
~

+{a='b'}
~~~~~~~~

a{b="}",} @ -1 offset 2m # c
~~~~~~~~~~~~~~~~~~~~~~~~

-a @ start()
~~~~~~~~~~~~
 ~~~~~~~~~~~

(( a ))
~~~~~~~
 ~~~~~
   ~

-a + b * 2
~~~~~~~~~~
~~
 ~
     ~~~~~
     ~
         ~

-2 ^ -a ^ +b
~~~~~~~~~~~~
 ~~~~~~~~~~~
 ~
     ~~~~~~~
      ~~~~~~
      ~
          ~~

+1 ^ 2 - 3
~~~~~~~~~~
~~~~~~
 ~
     ~
         ~

a / on(b) group_left(c) (d)
~~~~~~~~~~~~~~~~~~~~~~~~~~~
~
                        ~~~
                         ~

a > bool fill_left(0) fill_right(-1) b
~~~~~~~~~~~~~~~~~~~~~~~~~~~~~~~~~~~~~~
~
                                     ~

rate(a[5m] offset 1h) + time( )
~~~~~~~~~~~~~~~~~~~~~~~~~~~~~~~
~~~~~~~~~~~~~~~~~~~~~
     ~~~~~~~~~~~~~~~
                        ~~~~~~~

topk by (b) (2, a) or sum(a) without (b)
~~~~~~~~~~~~~~~~~~~~~~~~~~~~~~~~~~~~~~~~
~~~~~~~~~~~~~~~~~~
             ~
                ~
                      ~~~~~~~~~~~~~~~~~~
                          ~

max_over_time(+a @ 1 offset 1m[5m:1m] offset 2h)
~~~~~~~~~~~~~~~~~~~~~~~~~~~~~~~~~~~~~~~~~~~~~~~~
              ~~~~~~~~~~~~~~~~~~~~~~~~~~~~~~~~~
               ~~~~~~~~~~~~~~~

max_over_time(a[1h:] @ 1) > bool (+b offset 5m)
~~~~~~~~~~~~~~~~~~~~~~~~~~~~~~~~~~~~~~~~~~~~~~~
~~~~~~~~~~~~~~~~~~~~~~~~~
              ~~~~~~~~~~
              ~
                                 ~~~~~~~~~~~~~~
                                  ~~~~~~~~~~~~"#;

#[test]
fn places_are_shown(rt: HostRuntime) {
    for picture in PICTURES.split("\n\n") {
        let query = first_line(picture);
        prints(&rt, drawn_query(rt.alloc(), query), picture);
    }
}

fn first_line(text: &str) -> &str {
    match text.split_once('\n') {
        Some((line, _)) => line,
        None => text,
    }
}

/// The query with a line of marks for each node.
fn drawn_query(alloc: Global, query: &str) -> Result<String, Failed> {
    let placed = Box::new(alloc, parse_placed(alloc, query)?)?;
    let mut drawn = String::from_str(alloc, query)?;
    for place in placed.places.as_slice() {
        draw(&mut drawn, *place)?;
    }
    Ok(drawn)
}

/// A line with marks where the place is.
fn draw(drawn: &mut String, place: Span) -> Result<(), AllocError> {
    drawn.push('\n')?;
    for _ in 0..place.start {
        drawn.push(' ')?;
    }
    for _ in place.start..place.end {
        drawn.push('~')?;
    }
    Ok(())
}
