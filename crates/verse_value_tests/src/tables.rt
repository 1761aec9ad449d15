//! The cases. A value is written in words, each behind what it joins: `[`, `(` and `{` begin an
//! array, a tuple and a map, `,` adds the last value to the one before, `:` adds the last two as an
//! entry, `?` makes an option. `cN` is a char, `"..` a text, `#E.I` a value of an enum, `@A` an
//! object, `!A` an event, `~N` a task.

// A value, its text, its weight, its levels, and a map with it as key or `-`. No two are equal.
pub(crate) const VALUES: &str = r#"() | () | 1 | 1 | -
false | false | 1 | 1 | map{false => ()}
true | true | 1 | 1 | map{true => ()}
0 | 0 | 1 | 1 | map{0 => ()}
1 | 1 | 1 | 1 | map{1 => ()}
-1 | -1 | 1 | 1 | map{-1 => ()}
9223372036854775807 | 9223372036854775807 | 1 | 1 | map{9223372036854775807 => ()}
-9223372036854775808 | -9223372036854775808 | 1 | 1 | map{-9223372036854775808 => ()}
c0 | 0o00 | 1 | 1 | map{0o00 => ()}
c1 | 0o01 | 1 | 1 | map{0o01 => ()}
c97 | 0o61 | 1 | 1 | map{0o61 => ()}
c255 | 0off | 1 | 1 | map{0off => ()}
#0.1 | #0.1 | 1 | 1 | map{#0.1 => ()}
#1.0 | #1.0 | 1 | 1 | map{#1.0 => ()}
#1.2 | #1.2 | 1 | 1 | map{#1.2 => ()}
#4294967295.12 | #4294967295.12 | 1 | 1 | map{#4294967295.12 => ()}
@0 | @0 | 1 | 1 | -
@1 | @1 | 1 | 1 | -
!1 | !1 | 1 | 1 | -
!20 | !20 | 1 | 1 | -
~1 | ~1 | 1 | 1 | -
~4294967295 | ~4294967295 | 1 | 1 | -
() ? | option{()} | 2 | 2 | -
false ? | option{false} | 2 | 2 | -
false ? ? | option{option{false}} | 3 | 3 | -
[ 1 , ? | option{array{1}} | 3 | 3 | -
[ | array{} | 1 | 1 | map{array{} => ()}
[ 1 , | array{1} | 2 | 2 | -
[ 1 , true , | array{1, true} | 3 | 2 | -
[ true , 1 , | array{true, 1} | 3 | 2 | -
[ [ , | array{array{}} | 2 | 2 | -
[ [ , [ 1 , , | array{array{}, array{1}} | 4 | 3 | -
[ "ab , | array{"ab"} | 4 | 3 | -
[ c97 , 1 , | array{0o61, 1} | 3 | 2 | -
"a | "a" | 2 | 2 | map{"a" => ()}
"ab | "ab" | 3 | 2 | map{"ab" => ()}
"ba | "ba" | 3 | 2 | map{"ba" => ()}
"\" | "\x5c\x22" | 3 | 2 | map{"\x5c\x22" => ()}
[ c10 , c31 , c32 , c126 , c127 , c255 , | "\x0a\x1f ~\x7f\xff" | 7 | 2 | map{"\x0a\x1f ~\x7f\xff" => ()}
{ | map{} | 1 | 1 | -
{ 7 1 : | map{7 => 1} | 3 | 2 | -
{ 7 2 : | map{7 => 2} | 3 | 2 | -
{ 7 1 : true 2 : | map{7 => 1, true => 2} | 5 | 2 | -
{ true 2 : 7 1 : | map{true => 2, 7 => 1} | 5 | 2 | -
{ c97 1 : "a 2 : #0.1 3 : false 4 : | map{0o61 => 1, "a" => 2, #0.1 => 3, false => 4} | 10 | 2 | -
{ [ 1 : | map{array{} => 1} | 3 | 2 | -
{ "abc [ 1 , : | map{"abc" => array{1}} | 7 | 3 | -
{ 1 { 2 { 3 () : : : | map{1 => map{2 => map{3 => ()}}} | 7 | 4 | -
( | () | 1 | 1 | -
( 1 , | (1) | 2 | 2 | -
( c97 , | (0o61) | 2 | 2 | -
( () , false , | ((), false) | 3 | 2 | -
( ( 1 , , { 1 2 : , @3 , | ((1), map{1 => 2}, @3) | 7 | 3 | -
"#;

// Two ways to make one value.
pub(crate) const SAME: &str = r#""ab | [ c97 , c98 ,
" | [
{ 7 0 : true 2 : 7 1 : | { 7 1 : true 2 :
{ "a 1 : | { [ c97 , 1 :
{ " 1 : | { [ 1 :
"#;

// A value, an index, and what the index leads to.
pub(crate) const READS: &str = r#"[ 5 , 6 , | 0 | = 5
[ 5 , 6 , | 1 | = 6
[ 5 , 6 , | 2 | outside
[ 5 , 6 , | -1 | outside
[ 5 , 6 , | 9223372036854775807 | outside
[ 5 , 6 , | -9223372036854775808 | outside
[ | 0 | outside
"ab | 1 | = 0o62
[ 5 , 6 , | true | misfit
[ 5 , 6 , | c0 | misfit
[ 5 , 6 , | "a | misfit
{ 7 1 : true 2 : | 7 | = 1
{ 7 1 : true 2 : | true | = 2
{ 7 1 : true 2 : | false | absent
{ 7 1 : true 2 : | 8 | absent
{ 7 1 : true 2 : | c7 | absent
{ 7 1 : true 2 : | "7 | absent
{ 7 1 : true 2 : | [ | absent
{ | 0 | absent
{ c97 1 : "a 2 : #0.1 3 : false 4 : [ 5 : | c97 | = 1
{ c97 1 : "a 2 : #0.1 3 : false 4 : [ 5 : | "a | = 2
{ c97 1 : "a 2 : #0.1 3 : false 4 : [ 5 : | #0.1 | = 3
{ c97 1 : "a 2 : #0.1 3 : false 4 : [ 5 : | #1.0 | absent
{ c97 1 : "a 2 : #0.1 3 : false 4 : [ 5 : | false | = 4
{ c97 1 : "a 2 : #0.1 3 : false 4 : [ 5 : | [ | = 5
{ c97 1 : "a 2 : #0.1 3 : false 4 : [ 5 : | "ab | absent
{ c97 1 : "a 2 : #0.1 3 : false 4 : [ 5 : | 97 | absent
{ 7 1 : | () | misfit
{ 7 1 : | @7 | misfit
{ 7 1 : | !7 | misfit
{ 7 1 : | ~7 | misfit
{ 7 1 : | 7 ? | misfit
{ 7 1 : | [ 7 , | misfit
{ 7 1 : | [ c7 , 7 , | misfit
{ 7 1 : | { | misfit
{ 7 1 : | ( 7 , | misfit
( 5 , 6 , | 0 | misfit
5 ? | 0 | misfit
() | 0 | misfit
true | true | misfit
0 | 0 | misfit
c0 | 0 | misfit
#0.0 | 0 | misfit
@0 | 0 | misfit
!0 | 0 | misfit
~0 | 0 | misfit
"#;

// A slot's value, a path, a mode, a value, and what the write comes to: the slot's new value and
// the value written, or why nothing was written.
pub(crate) const WRITES: &str = r#"1 |  | = | true | true, true
1 |  | += | 2 | 3, 3
1 |  | -= | 2 | -1, -1
3 |  | *= | -2 | -6, -6
9223372036854775806 |  | += | 1 | 9223372036854775807, 9223372036854775807
9223372036854775807 |  | += | 1 | overflow
-9223372036854775807 |  | -= | 1 | -9223372036854775808, -9223372036854775808
-9223372036854775808 |  | -= | 1 | overflow
-9223372036854775808 |  | *= | -1 | overflow
4611686018427387904 |  | *= | 2 | overflow
4611686018427387904 |  | *= | -2 | -9223372036854775808, -9223372036854775808
"ab |  | += | "c | "abc", "abc"
[ 1 , |  | += | [ () , 2 , | array{1, (), 2}, array{1, (), 2}
[ |  | += | [ | array{}, array{}
[ 1 , |  | += | 2 | stuck
1 |  | += | [ 2 , | stuck
1 |  | -= | true | stuck
"ab |  | -= | "b | stuck
"ab |  | *= | "b | stuck
true |  | += | true | stuck
{ |  | += | { | stuck
( 1 , |  | += | ( 1 , | stuck
() |  | *= | () | stuck
[ 5 , 6 , | 1 | = | 7 | array{5, 7}, 7
[ 5 , 6 , | 1 | += | 10 | array{5, 16}, 16
[ 5 , 6 , | 0 | -= | 10 | array{-5, 6}, -5
[ 5 , 6 , | 0 | *= | 10 | array{50, 6}, 50
[ 5 , 6 , | 2 | = | 7 | fail
[ 5 , 6 , | -1 | = | 7 | fail
[ 5 , 6 , | 2 | += | true | fail
[ 5 , 6 , | true | = | 7 | stuck
[ 5 , 6 , | 1 0 | = | 7 | stuck
[ 5 , 6 , | 2 0 | = | 7 | fail
[ 5 , 6 , | 1 | *= | 9223372036854775807 | overflow
[ 5 , 6 , | 1 | += | "a | stuck
"ab | 0 | = | c99 | "cb", 0o63
"ab | 0 | = | 1 | array{1, 0o62}, 1
( 5 , 6 , | 1 | = | 7 | stuck
5 ? | 0 | = | 7 | stuck
5 | 0 | = | 7 | stuck
{ 7 1 : true 2 : | 7 | = | 3 | map{7 => 3, true => 2}, 3
{ 7 1 : true 2 : | true | += | 3 | map{7 => 1, true => 5}, 5
{ 7 1 : true 2 : | 8 | = | 3 | map{7 => 1, true => 2, 8 => 3}, 3
{ 7 1 : true 2 : | 8 | += | 3 | fail
{ 7 1 : true 2 : | 8 | -= | 3 | fail
{ 7 1 : true 2 : | 8 | *= | true | fail
{ 7 1 : true 2 : | "8 | = | [ | map{7 => 1, true => 2, "8" => array{}}, array{}
{ | [ | = | 1 | map{array{} => 1}, 1
{ | c97 | = | 1 | map{0o61 => 1}, 1
{ | #1.2 | = | 1 | map{#1.2 => 1}, 1
{ | false | = | 1 | map{false => 1}, 1
{ 7 1 : | 7 0 | = | 3 | stuck
{ 7 1 : | 8 0 | = | 3 | fail
{ 7 1 : | @7 | = | 3 | stuck
{ 7 1 : | [ 7 , | = | 3 | stuck
{ 7 1 : | 7 ? | += | 3 | stuck
[ { "a [ 1 , 2 , : , | 0 "a 1 | += | 5 | array{map{"a" => array{1, 7}}}, 7
[ { "a [ 1 , 2 , : , | 0 "a 2 | += | 5 | fail
[ { "a [ 1 , 2 , : , | 0 "a | += | [ 3 , | array{map{"a" => array{1, 2, 3}}}, array{1, 2, 3}
[ { "a [ 1 , 2 , : , | 0 "b | = | ~1 | array{map{"a" => array{1, 2}, "b" => ~1}}, ~1
[ { "a [ 1 , 2 , : , | 0 "b 1 | = | ~1 | fail
[ { "a [ 1 , 2 , : , | 1 "b | = | ~1 | fail
[ { "a [ 1 , 2 , : , | "a 0 | = | ~1 | stuck
[ [ [ [ [ 1 , , , , , | 0 0 0 0 0 | = | 2 | array{array{array{array{array{2}}}}}, 2
"#;

// A slot's value, and an index at which it is written.
pub(crate) const CHANGES: &str = r#"[ 5 , 6 , | 1
{ 7 1 : | 7
{ 7 1 : | 8
"#;
