//! The rows. A row is words that are worked out from the left on a stack of values, and what the
//! last operation gives: a value's text, or `fail`, `stuck`, `K1`, `K2`.
//!
//! `'97` is a char, `"ab` a text, `#1.2` a value of an enum, `@3` an object, `!3` an event, `~3` a
//! task; `[`, `{`, `(` are the empty array, map and tuple, and `?` is an option. `heavy.N` is an
//! array that weighs N, `deep.N` a value of N levels, `text.N` a text of N chars. Every other word
//! is an operation on the values before it; `array.N` takes N of them, and `item.N` reads the
//! element N. A word with `lend-` before it reads without taking the value apart.

// A value of each kind, and each value that a kind has for itself.
pub(crate) const KINDS: &str = "() false true 0 '0 #0.0 @0 !0 ~0 ? [ { (";

// An operation on two values, and the first and second ones that are not stuck with it.
pub(crate) const ON_TWO: &str = "\
add | 0 | 0
sub | 0 | 0
mul | 0 | 0
floor | 0 | 0
ceil | 0 | 0
mod | 0 | 0
lt | 0 | 0
le | 0 | 0
gt | 0 | 0
ge | 0 | 0
eq | () false true 0 '0 #0.0 @0 !0 ~0 ? [ { ( | () false true 0 '0 #0.0 @0 !0 ~0 ? [ { (
ne | () false true 0 '0 #0.0 @0 !0 ~0 ? [ { ( | () false true 0 '0 #0.0 @0 !0 ~0 ? [ { (
concat | [ | [
joined | [ | [
append | [ | () false true 0 '0 #0.0 @0 !0 ~0 ? [ { (
array.2 | () false true 0 '0 #0.0 @0 !0 ~0 ? [ { ( | () false true 0 '0 #0.0 @0 !0 ~0 ? [ { (
tuple.2 | () false true 0 '0 #0.0 @0 !0 ~0 ? [ { ( | () false true 0 '0 #0.0 @0 !0 ~0 ? [ { (
map.1 | false true 0 '0 #0.0 [ | () false true 0 '0 #0.0 @0 !0 ~0 ? [ { (
join.2 | 0 '0 [ | 0 '0 [
";

// `at` takes an int in an array, and a key in a map.
pub(crate) const INDICES: &str = "\
[ | 0
{ | false true 0 '0 #0.0 [
";

// An operation on one value, and those that are not stuck with it.
pub(crate) const ON_ONE: &str = "\
key | false true 0 '0 #0.0 [
neg | 0
query | false true ?
lend-query | false true ?
length | [ {
lend-length | [ {
some | () false true 0 '0 #0.0 @0 !0 ~0 ? [ { (
join.1 | 0 '0 [
item.0 |
lend-item.0 |
";

pub(crate) const ROWS: &str = r#"1 2 add | 3
9223372036854775806 1 add | 9223372036854775807
9223372036854775807 1 add | K1
-9223372036854775807 -1 add | -9223372036854775808
-9223372036854775808 -1 add | K1
1 2 sub | -1
-9223372036854775807 1 sub | -9223372036854775808
-9223372036854775808 1 sub | K1
9223372036854775806 -1 sub | 9223372036854775807
9223372036854775807 -1 sub | K1
0 -9223372036854775808 sub | K1
-1 -9223372036854775808 sub | 9223372036854775807
-3 4 mul | -12
4611686018427387904 2 mul | K1
4611686018427387904 -2 mul | -9223372036854775808
-9223372036854775808 -1 mul | K1
9223372036854775807 -1 mul | -9223372036854775807
3037000500 3037000500 mul | K1
3037000499 3037000499 mul | 9223372030926249001
7 neg | -7
0 neg | 0
9223372036854775807 neg | -9223372036854775807
-9223372036854775808 neg | K1
7 2 floor | 3
-7 2 floor | -4
7 -2 floor | -4
-7 -2 floor | 3
6 -2 floor | -3
0 -5 floor | 0
1 0 floor | fail
0 0 floor | fail
-9223372036854775808 0 floor | fail
-9223372036854775808 -1 floor | K1
-9223372036854775808 1 floor | -9223372036854775808
9223372036854775807 -1 floor | -9223372036854775807
-9223372036854775808 9223372036854775807 floor | -2
9223372036854775807 -9223372036854775808 floor | -1
7 2 ceil | 4
-7 2 ceil | -3
7 -2 ceil | -3
-7 -2 ceil | 4
6 2 ceil | 3
1 0 ceil | fail
-9223372036854775808 -1 ceil | K1
-9223372036854775808 9223372036854775807 ceil | -1
9223372036854775807 -9223372036854775808 ceil | 0
1 -9223372036854775808 ceil | 0
-1 -9223372036854775808 ceil | 1
7 2 mod | 1
7 -2 mod | 1
-7 2 mod | 1
-7 -2 mod | 1
-6 4 mod | 2
6 -4 mod | 2
5 0 mod | fail
-9223372036854775808 -1 mod | 0
-9223372036854775808 9223372036854775807 mod | 9223372036854775806
9223372036854775807 -9223372036854775808 mod | 9223372036854775807
-1 -9223372036854775808 mod | 9223372036854775807
true 0 floor | stuck
1 false ceil | stuck
() 0 mod | stuck
9223372036854775807 true add | stuck
1 2 lt | 1
2 2 lt | fail
3 2 lt | fail
-9223372036854775808 9223372036854775807 lt | -9223372036854775808
-1 0 lt | -1
1 2 le | 1
2 2 le | 2
3 2 le | fail
9223372036854775807 -9223372036854775808 le | fail
1 2 gt | fail
2 2 gt | fail
3 2 gt | 3
0 -1 gt | 0
1 2 ge | fail
2 2 ge | 2
3 2 ge | 3
-9223372036854775808 9223372036854775807 ge | fail
1 1 eq | 1
1 -1 eq | fail
1 2 ne | 1
1 1 ne | fail
0 false eq | fail
0 false ne | 0
'65 65 ne | 0o41
#1.2 #1.2 eq | #1.2
#1.2 #2.1 eq | fail
@3 @3 eq | @3
@3 @4 ne | @3
@3 !3 eq | fail
!3 ~3 ne | !3
"ab "ab eq | "ab"
"ab "ba eq | fail
"ab "abc ne | "ab"
"ab '97 '98 array.2 eq | "ab"
[ ( eq | fail
1 some 1 some eq | option{1}
1 some 2 some ne | option{1}
false false some ne | false
1 2 tuple.2 1 2 tuple.2 eq | (1, 2)
1 2 tuple.2 1 2 array.2 eq | fail
1 2 3 4 map.2 1 2 3 4 map.2 eq | map{1 => 2, 3 => 4}
1 2 3 4 map.2 3 4 1 2 map.2 eq | fail
1 2 3 4 map.2 3 4 1 2 map.2 ne | map{1 => 2, 3 => 4}
1 2 3 4 map.2 1 2 map.1 eq | fail
1 2 array.2 3 array.1 concat | array{1, 2, 3}
3 array.1 1 2 array.2 concat | array{3, 1, 2}
"ab "c concat | "abc"
"ab 1 array.1 concat | array{0o61, 0o62, 1}
[ [ concat | array{}
[ "ab concat | "ab"
"ab [ concat | "ab"
1 2 tuple.2 1 2 tuple.2 concat | stuck
"ab '99 concat | stuck
1 2 map.1 1 2 map.1 concat | stuck
[ 1 append | array{1}
1 2 array.2 3 append | array{1, 2, 3}
"ab '99 append | "abc"
"ab "c append | array{0o61, 0o62, "c"}
1 tuple.1 2 append | stuck
1 2 map.1 3 append | stuck
array.0 | array{}
1 true "ab array.3 | array{1, true, "ab"}
'97 '98 array.2 | "ab"
tuple.0 | ()
1 true "ab tuple.3 | (1, true, "ab")
'97 '98 tuple.2 | (0o61, 0o62)
map.0 | map{}
1 2 map.1 | map{1 => 2}
3 true 1 false map.2 | map{3 => true, 1 => false}
1 2 3 4 1 5 map.3 | map{1 => 5, 3 => 4}
"a 1 '97 2 97 3 map.3 | map{"a" => 1, 0o61 => 2, 97 => 3}
"ab 1 '97 '98 array.2 2 map.2 | map{"ab" => 2}
[ 1 "a 2 [ 3 map.3 | map{array{} => 3, "a" => 2}
true 1 false 2 #1.2 3 #2.1 4 map.4 | map{true => 1, false => 2, #1.2 => 3, #2.1 => 4}
0 0 @1 1 map.2 | stuck
1 array.1 1 map.1 | stuck
'97 1 array.2 1 map.1 | stuck
1 some 1 map.1 | stuck
5 some | option{5}
false some | option{false}
5 some some | option{option{5}}
5 some query | 5
5 some some query | option{5}
false some query | false
true query | true
false query | fail
"ab some query | "ab"
5 some lend-query | 5
true lend-query | true
false lend-query | fail
[ some lend-query | array{}
7 8 9 tuple.3 item.0 | 7
7 8 9 tuple.3 item.1 | 8
7 8 9 tuple.3 item.2 | 9
7 8 9 tuple.3 item.3 | stuck
7 8 9 tuple.3 item.4294967295 | stuck
7 8 9 array.3 item.0 | stuck
"ab 1 tuple.2 item.0 | "ab"
7 8 9 tuple.3 lend-item.0 | 7
7 8 9 tuple.3 lend-item.2 | 9
7 8 9 tuple.3 lend-item.3 | stuck
0 7 map.1 lend-item.0 | stuck
5 6 array.2 0 at | 5
5 6 array.2 1 at | 6
5 6 array.2 2 at | fail
5 6 array.2 -1 at | fail
5 6 array.2 9223372036854775807 at | fail
5 6 array.2 -9223372036854775808 at | fail
5 6 array.2 true at | stuck
5 6 array.2 '0 at | stuck
5 6 tuple.2 0 at | stuck
"ab 1 at | 0o62
7 1 true 2 map.2 7 at | 1
7 1 true 2 map.2 true at | 2
7 1 true 2 map.2 false at | fail
7 1 true 2 map.2 '7 at | fail
7 1 map.1 [ at | fail
7 1 map.1 7 some at | stuck
7 1 map.1 7 array.1 at | stuck
"ab 1 "b 2 map.2 "b at | 2
"ab 1 "b 2 map.2 '98 at | fail
[ 5 map.1 [ at | 5
5 6 array.2 1 lend-at | 6
5 6 array.2 2 lend-at | fail
5 6 array.2 true lend-at | stuck
"ab 1 "b 2 map.2 "b lend-at | 2
"ab 1 "b 2 map.2 "c lend-at | fail
"ab 1 map.1 @1 lend-at | stuck
"ab "c joined | "abc"
1 array.1 [ joined | array{1}
[ 1 array.1 joined | array{1}
1 tuple.1 1 array.1 joined | stuck
1 array.1 "ab some joined | stuck
5 6 array.2 1 element | 6
5 6 array.2 2 element | fail
5 6 array.2 -1 element | fail
5 6 array.2 true element | stuck
"ab 1 "b 2 map.2 "b element | 2
"ab 1 "b 2 map.2 "c element | fail
"ab 1 map.1 @1 element | stuck
1 some 0 element | stuck
-5 key | -5
false key | false
'97 key | 0o61
#1.2 key | #1.2
"ab key | "ab"
[ key | array{}
1 array.1 key | stuck
[ length | 0
"abc length | 3
1 2 array.2 length | 2
{ length | 0
"abc 2 map.1 length | 1
1 2 3 4 1 5 map.3 length | 2
1 2 tuple.2 length | stuck
1 some length | stuck
"abc lend-length | 3
"abc 2 map.1 lend-length | 1
" | array{}
"a | "a"
"{\} | "{\x5c}"
join.0 | array{}
12 join.1 | "12"
-12 join.1 | "-12"
0 join.1 | "0"
9223372036854775807 -9223372036854775808 join.2 | "9223372036854775807-9223372036854775808"
'97 join.1 | "a"
'10 '255 join.2 | "\x0a\xff"
[ join.1 | array{}
"x= -5 ", '121 "! join.5 | "x=-5,y!"
"a "b "c join.3 | "abc"
"ab true join.2 | stuck
1 array.1 join.1 | stuck
'97 1 array.2 join.1 | stuck
"ab array.1 join.1 | stuck
1 some join.1 | stuck
() 1 join.2 | stuck
"#;

// The greatest number of levels, and one more.
pub(crate) const DEEP: &str = r#"deep.199 levels | 199
deep.199 some levels | 200
deep.200 some | K2
deep.199 array.1 levels | 200
deep.200 array.1 | K2
1 deep.200 1 array.3 | K2
deep.199 tuple.1 levels | 200
deep.200 tuple.1 | K2
0 deep.199 map.1 levels | 200
0 deep.200 map.1 | K2
0 deep.200 0 1 map.2 | map{0 => 1}
deep.199 array.1 deep.199 array.1 concat levels | 200
[ deep.199 append levels | 200
[ deep.200 append | K2
deep.199 array.1 [ joined levels | 200
1 array.1 deep.200 append | K2
deep.200 () append | stuck
"#;

// The greatest weight of what is made of values, and one more.
pub(crate) const HEAVY: &str = r#"heavy.3999999 some query tuple.1 item.0 array.1 weight | 4000000
heavy.3999998 0 array.2 weight | 4000000
heavy.4000000 some | K2
heavy.4000000 tuple.1 | K2
heavy.4000000 array.1 | K2
heavy.3999999 0 array.2 | K2
"#;

// The same of arrays that grow.
pub(crate) const HEAVY_GROWN: &str = r#"heavy.3999998 1 append 2 array.1 concat weight | 4000000
heavy.4000000 [ concat length | 3999999
heavy.4000000 1 append | K2
heavy.4000000 1 array.1 concat | K2
heavy.3999999 1 array.1 joined weight | 4000000
heavy.4000000 1 array.1 joined | K2
1 array.1 heavy.4000000 concat | K2
"#;

// The same of maps. A value at a key that comes again does not count.
pub(crate) const HEAVY_MAPS: &str = r#"0 heavy.3999998 map.1 weight | 4000000
0 heavy.3999999 map.1 | K2
"ab heavy.3999996 map.1 weight | 4000000
"ab heavy.3999997 map.1 | K2
0 heavy.4000000 0 1 map.2 | map{0 => 1}
0 1 0 heavy.3999999 map.2 | K2
0 heavy.4000000 @1 1 map.2 | stuck
"#;

// The same for texts from their parts.
pub(crate) const LONG: &str = r#"text.3999998 '120 join.2 weight | 4000000
text.3999999 '120 join.2 | K2
text.3999998 "x () join.3 | stuck
"#;
