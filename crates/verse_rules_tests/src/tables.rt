//! The rows.

// The refusal that items and members bring, and the program.
pub(crate) const REFUSED: &str = r#"40 1:1 F():int = 1; F():int = 2; Main():void = {}
40 1:1 F():int = 1; F := class {}; Main():void = {}
40 1:19 Main():void = {}; Print():void = {}
40 1:19 Main():void = {}; Mod := enum { A }
40 1:1 e := enum { A, B, A }; Main():void = {}
40 1:1 e := enum { A }; e := enum { B }; Main():void = {}
40 1:14 c := class { X:int; X:int }; Main():void = {}
40 1:14 c := class { X:int; X():int = 1 }; Main():void = {}
40 1:14 c := class { F:int }; Main():void = {}; F():int = 1
40 1:14 c := class { Floor:int }; Main():void = {}
40 1:39 b := class { X:int }; c := class(b) { X:int }; Main():void = {}
40 1:45 b := class { X():int = 1 }; c := class(b) { X:int }; Main():void = {}
40 1:57 a := class { X:int }; b := class(a) {}; c := class(b) { X():int = 1 }; Main():void = {}
40 1:14 c := class { c:int }; Main():void = {}
41 1:5 F(X:t):int = 1; Main():void = {}
41 1:6 F():?t = false; Main():void = {}
41 1:18 c := class { X:[]t }; Main():void = {}
41 1:36 c := class { F(X:int, Y:tuple(int, t)):int = 1 }; Main():void = {}
41 1:10 F(X:[int]t):int = 1; Main():void = {}
41 1:6 F(X:[t]int, Y:u):int = 1; Main():void = {}
41 1:11 F(X:event(t)):int = 1; Main():void = {}
41 1:10 F(X:task(t)):int = 1; Main():void = {}
41 1:5 F(X:F):int = 1; Main():void = {}
41 1:1 c := class(b) {}; Main():void = {}
41 1:18 b := enum { A }; c := class(b) {}; Main():void = {}
41 1:1 c := class(F) {}; F():int = 1; Main():void = {}
42 1:1 c := class(c) {}; Main():void = {}
42 1:1 a := class(b) {}; b := class(a) {}; Main():void = {}
42 1:19 z := class(a) {}; a := class(b) {}; b := class(c) {}; c := class(a) {}; Main():void = {}
43 1:1 # nothing
43 1:1 F():void = {}
43 1:1 Main := class {}
43 1:1 c := class { Main():void = {} }
44 1:1 Main():int = 1
44 1:1 Main(X:int):void = {}
44 1:1 Main(X:[]int, Y:int):void = {}
44 1:1 Main(X:[]logic):void = {}
44 1:1 Main()<transacts><decides>:void = {}
45 1:45 a := class { F():int = 1 }; b := class(a) { F():int = 2 }; Main():void = {}
45 1:45 a := class { F():int = 1 }; b := class(a) { F<override>(X:int):int = 2 }; Main():void = {}
45 1:45 a := class { F():int = 1 }; b := class(a) { F<override>():logic = true }; Main():void = {}
45 1:45 a := class { F():int = 1 }; b := class(a) { F<override>()<computes>:int = 1 }; Main():void = {}
45 1:104 a := class { F():a = a{} }; b := class(a) {}; c := class(b) { F<override>():b = b{} }; d := class(c) { F<override>():a = a{} }; Main():void = {}
45 1:14 a := class { F<override>():int = 1 }; Main():void = {}
45 1:1 F<override>():int = 1; Main():void = {}
45 1:1 e<override> := enum { A }; Main():void = {}
45 1:1 c<override> := class {}; Main():void = {}
45 1:14 c := class { X<override>:int }; Main():void = {}
45 1:14 c := class { var<override> X:int }; Main():void = {}
41 1:5 F(X:t):int = 1; e := enum { A, A }; Main():void = {}
40 1:1 e := enum { A, A }; F(X:t):int = 1; Main():void = {}
41 1:19 c := class(c) { X:t }; Main():void = {}
41 1:10 F(X:int):t = 1
41 1:14 Print(X:int):t = 1; Main():void = {}
40 1:27 c<override> := class(b) { A:int; A:int }; Main():void = {}
40 1:1 Floor<override> := class(Floor) {}; Main():void = {}
40 1:1 Main<override>():int = 1; Main := class {}
"#;

// What the items define, and the program. Of a function the types of its parameters, that of its
// result, `c` computes, `t` transacts, `d` decides, `s` suspends, and its node; of a class the one
// above it, `u` unique, its fields with their types, `v` variable and the node of the default, and
// its methods; of an enum how many values it has. Types are written as in `writing`.
pub(crate) const TABLES: &str = r#";F()v@1 Main():void = {}
;F(ai)v@2 Main(X:[]int):void = {}
;F()vs@1 Main()<suspends>:void = {}
;F()v@2 using { /a }; Main():void = {}
;F()v@1 Main():void = X
;F()v@3;E3;E0 e := enum { A, B, C }; f := enum {}; Main():void = {}
;F(ilcacv)?itd@6;F()v@8 F(X:int, Y:logic, Z:char, S:string, V:void)<transacts><decides>:?int = false; Main():void = {}
;F(aimcl(iaE0)evtC0ei)vc@9;F()v@13;C{}[];E1 F(X:[]int, Y:[char]logic, Z:tuple(int, []e), W:event(), T:task(c), U:event(int))<computes>:void = {}; e := enum { A }; c := class {}; Main():void = {}
;F()i@4;F()v@7;Cu{i,lv=1,}[0,] c := class<unique> { X:int; var Y:logic = true; F():int = 1 }; Main():void = {}
;F(C0)i@5;F()C0@8;F()C1@14;F()i@16;F()v@19;C{i=0,}[0,1,];C0{i=0,C1,}[0,2,3,] a := class { X:int = 3; F(Y:a):int = 1; G():a = a{} }; b := class(a) { Y:b; G<override>():b = b{}; H():int = 2 }; Main():void = {}
;F()i@2;F()i@8;F()v@11;C1{i,i,i,}[0,];C2{i,i,}[1,];C{i,}[1,] c := class(b) { Z:int; F<override>():int = 3 }; b := class(a) { Y:int }; a := class { X:int; F():int = 1 }; Main():void = {}
;F()i@1;F()i@4;F()i@7;F()v@10;C1{}[0,];C{}[1,];C{}[2,] b := class(a) { F<override>():int = 2 }; a := class { F():int = 1 }; c := class { F():int = 3 }; Main():void = {}
;F()vs@1;F()vs@4;F()v@7;C{}[0,];C0{}[1,] a := class { F()<suspends>:void = {} }; b := class(a) { F<override>()<suspends>:void = {} }; Main():void = {}
;F()v@1;F()i@4;F()v@7;C{}[0,];C0{}[1,] a := class { F():void = {} }; b := class(a) { F<override>():int = 1 }; Main():void = {}
;F()vt@1;F(E0)E0@6;F(?aE0)tE0@12;E1 Main()<transacts>:void = {}; F(X:e):e = X; e := enum { A }; G(Y:?[]e):task(e) = Y
"#;

// The refusal for effects, or `0 0:0`, what names stand for by their nodes, and the program.
pub(crate) const EFFECTS: &str = r#"60 1:38 3.l.2 Main():void = { A := array{1}; X := A[0] }
60 1:18 1.l.0 F(X:?int):int = X?; Main():void = {}
60 1:20 1.l.0 F(X:int):int = { X = 1; 2 }; Main():void = {}
60 1:22 1.l.0 F(X:int):logic = { X < 1; true }; Main():void = {}
60 1:17 - Main():void = { not 1 = 2 }
60 1:25 0.b.3 Main():void = { X := Mod[3, 2] }
60 1:56 2.f.0 F()<transacts><decides>:int = 1; Main():void = { X := F[] }
60 1:41 3.l.2 Main():void = { var A:[]int = array{1}; set A[0] = 2 }
60 1:32 - Main():void = { if (1 = 1) { 2 = 2 } }
60 1:37 3.l.2 Main():void = { for (I := 1..2) { I = 1 } }
60 1:34 - Main():void = { X := (1 = 1 or 2 = 2) }
61 1:35 2.f.0 G():int = 1; Main():void = { if (G() = 1) {} }
61 1:36 2.f.0 G():int = 1; F()<transacts>:int = G(); Main():void = {}
61 1:43 1.l.0 F(E:event(int))<transacts>:void = E.Signal(1); Main():void = {}
61 1:46 2.f.0 F()<suspends>:void = {}; Main():void = { if (spawn{F()}) {} }
61 1:50 2.f.0 F()<suspends>:void = {}; G()<transacts>:void = { spawn{F()} }; Main():void = {}
61 1:36 2.f.0 G():int = 1; c := class { X:int = G() }; Main():void = {}
61 1:43 2.f.0 G():int = 1; Main():void = { X := option{G()} }
61 1:45 2.m.0.0 c := class { G():int = 1; F():void = { if (G() = 1) {} } }; Main():void = {}
62 1:15 - Main():void = Sleep(1.0)
62 1:41 2.f.0 F()<suspends>:void = {}; Main():void = F()
62 1:28 1.l.0 F(E:event()):void = E.Await(); Main():void = {}
62 1:17 - Main():void = { sync { 1; 2 } }
62 1:17 - Main():void = { race { 1; 2 } }
62 1:17 - Main():void = { branch { 1 } }
62 1:51 2.m.0.0 c := class { F()<suspends>:void = {}; G():void = F() }; Main():void = {}
63 1:31 - Main()<suspends>:void = { if (Sleep(1.0)) {} }
63 1:57 2.f.0 F()<suspends>:void = {}; Main()<suspends>:void = { if (F()) {} }
63 1:40 - Main()<suspends>:void = { X := option{ race { 1; 2 } } }
63 1:43 - Main()<suspends>:void = { for (I := 1..2, Sleep(1.0)) {} }
64 1:1 - F()<decides>:int = 1; Main():void = {}
64 1:1 - F()<computes><transacts>:int = 1; Main():void = {}
64 1:1 - F()<suspends><decides><transacts>:int = 1; Main():void = {}
64 1:1 - F()<computes><computes>:int = 1; Main():void = {}
64 1:31 - F<public><private>():int = 1; F2<public><public>():int = 1; Main():void = {}
64 1:1 - F()<unique>:int = 1; Main():void = {}
64 1:1 - F<computes>():int = 1; Main():void = {}
64 1:1 - e<unique> := enum { A }; Main():void = {}
64 1:1 - c := class<public> {}; Main():void = {}
64 1:1 - c := class<unique><unique> {}; Main():void = {}
64 1:14 - c := class { X<computes>:int }; Main():void = {}
64 1:14 - c := class { var<abc> X:int }; Main():void = {}
64 1:14 - c := class { F()<decides>:int = 1 }; Main():void = {}
65 1:24 - F()<computes>:void = { var X:int = 1 }; Main():void = {}
65 1:27 0.b.0 F()<computes>:void = Print("a"); Main():void = {}
65 1:29 - F()<computes>:void = { E := event(){} }; Main():void = {}
65 1:35 2.f.0 G():int = 1; F()<computes>:int = G(); Main():void = {}
65 1:42 2.c.0 c := class<unique> {}; F()<computes>:c = c{}; Main():void = {}
65 1:49 4.c.0 c := class { var X:int = 1 }; F()<computes>:c = c{}; Main():void = {}
65 1:67 5.c.1 c := class { var X:int = 1 }; d := class(c) {}; F()<computes>:d = d{}; Main():void = {}
65 1:55 5.l.4,6.d.0.0 c := class { var X:int = 1 }; F(C:c)<computes>:int = C.X; Main():void = {}
65 1:49 2.d.0.0 c := class { var X:int = 1; F()<computes>:int = X }; Main():void = {}
65 1:57 5.l.4,6.d.0.0 c := class { var X:int = 1 }; F(C:c)<computes>:void = { set C.X = 1 }; Main():void = {}
65 1:42 1.l.0 F(E:event(int))<computes>:void = E.Signal(1); Main():void = {}
65 1:56 2.f.0 G()<suspends>:void = {}; F()<computes>:void = { spawn{G()} }; Main():void = {}
66 1:21 - Main():void = { if (return) {} }
66 1:17 - Main():void = { break }
66 1:28 - Main():void = { loop { if (break) {} } }
66 1:34 - Main()<suspends>:void = { sync { return; 1 } }
66 1:41 - Main()<suspends>:void = { loop { race { break; 1 } } }
66 1:36 - Main()<suspends>:void = { branch { return } }
66 1:30 - Main():void = { X := option{ return } }
67 1:57 2.f.0 F()<transacts><decides>:void = {}; Main():void = { if (F()) {} }
61 1:35 2.f.0 F():int = 1; Main():void = { if (F[] = 1) {} }
67 1:24 0.b.3 Main():void = { if (Mod(3, 2) = 1) {} }
60 1:30 0.b.1 Main():void = { X := Floor[1 / 2] }
67 1:22 0.b.0 Main():void = { Print["a"] }
67 1:84 5.l.4,6.m.0.0 c := class { F()<computes><decides>:int = 1 }; G(C:c)<transacts><decides>:int = C.F(); Main():void = {}
68 1:34 - Main()<suspends>:void = { loop { branch { Sleep(1.0) } } }
68 1:45 - Main()<suspends>:void = { for (I := 1..2) { rush { 1; 2 } } }
68 1:47 - Main()<suspends>:void = { loop { if (true?) { branch { 1 } } } }
62 1:17 - Main():void = { Sleep(1.0); X := array{1}[0] }
60 1:30 - Main():void = { X := array{1}[0]; Sleep(1.0) }
65 1:33 0.b.0 F()<computes>:void = { if (Print("a")) {} }; Main():void = {}
62 1:21 - Main():void = { if (Sleep(1.0)) {} }
60 1:30 - c := class { X:int = array{1}[0] }; Main():void = {}
66 1:30 - c := class { X:int = block { return 1 } }; Main():void = {}
60 1:56 2.f.0 F()<transacts><decides>:int = 1; c := class { X:int = F[] }; Main():void = {}
68 1:77 - Main()<suspends>:void = { if (array{1}[0] = 1) {}; loop { for (I := 1..2) { branch { 1 } } } }
62 1:29 1.l.0 F(T:task(int)):int = T.Await(); Main():void = {}
0 0:0 5.l.4,8.b.0 Main():void = { if (A := array{1}[0], A = 1) { Print("a") } }
0 0:0 1.l.0,4.f.0 F(X:?int)<transacts><decides>:int = X?; Main():void = { if (Y := F[option{1}]) {} }
0 0:0 0.f.1 Main()<suspends>:void = { loop { sync { break2(); 1 }; break } }; break2():void = {}
68 1:75 3.f.1 Main()<suspends>:void = { loop { sync { loop { break }; loop { return2(); branch { 1 } } } } }; return2():void = {}
0 0:0 2.l.0,6.l.1 F(E:event(int), T:task(int))<suspends>:int = { X := E.Await(); T.Await() }; Main():void = {}
0 0:0 2.d.0.0,5.d.0.0,9.c.0,11.l.10,12.d.0.0,15.l.10,16.m.0.0 c := class { var X:int = 1; F():int = { set X = 2; X } }; Main():void = { C := c{}; set C.X = 3; C.F() }
0 0:0 4.k.3,7.l.3,11.b.0 Main():void = { for (I -> V : array{1, 2}, I = 1, not V = 2) { Print("a") } }
0 0:0 0.b.1,4.b.3 Main():void = { X := Floor(7); if (Y := Mod[7, 2]) {} }
0 0:0 2.f.2,5.f.0 G():int = 1; Main():void = { spawn{H()}; G() }; H()<suspends>:void = Sleep(1.0)
0 0:0 8.l.7 F()<computes><decides>:int = { 1 = 1; 2 }; G()<computes>:int = { X := 1; X }; Main():void = {}
0 0:0 - F()<transacts><decides>:void = { if (1 = 1) { return } }; Main():void = {}
0 0:0 3.l.2 e := enum { A, B }; F(X:e):int = case (X) { e.A => 1, e.B => 2 }; Main():void = {}
0 0:0 - Main()<suspends>:void = { loop { sync { branch { 1 }; 2 } } }
"#;
