//! The rows.

// How many nodes the program has, and the program.
pub(crate) const PROGRAMS: &str = r#"3 F():void = 1
3 F():void = 'c'
3 F():void = "t"
4 F():void = "a{B}c"
7 F():void = "{A}b{C + 1}d"
3 F():void = true
3 F():void = false
3 F():void = Self
3 F():void = X
3 F():void = (1)
5 F():void = (1, 2)
6 F():void = (A, B, C)
3 F():void = array{}
6 F():void = array{1, 2; 3}
3 F():void = map{}
7 F():void = map{1 => 2, "a" => B}
6 F():void = option{X = 1}
6 F():void = option{A := 1; A}
4 F():void = logic{X}
5 F():void = logic{A, B}
3 F():void = c{}
5 F():void = c{F := 1, G := 2}
3 F():void = event(){}
3 F():void = event([]int){}
7 F():void = for (X : A) { X }
7 F():void = for (I -> X : A) { I }
8 F():void = for (I := 1..N) { I }
15 F():void = for (X : A, Y := X, set Z = 1, return, return 1, break) {}
18 F():void = for (X : A, K -> V : M, J := 1..2, F(X), if (A) { B }) {}
5 F():void = loop { break }
6 F():void = block { 1; 2 }
6 F():void = branch { F() }
5 F():void = sync { A; B }
5 F():void = race { A; B }
5 F():void = rush { A; B }
3 F():void = sync {}
7 F():void = case (X) { 1 => 2 }
26 F():void = case (X) { -1 => A, 'a' => { B }, "s" => C, true => D, false => E, e.v => F, _ => G }
5 F():void = spawn{F()}
3 F():void = Sleep(1.5)
3 F():void = Sleep(Inf)
4 F():void = F()
6 F():void = F(1, 2)
4 F():void = A[]
5 F():void = A[1]
6 F():void = A[1, 2]
4 F():void = X.Y
4 F():void = X?
10 F():void = X.Y(1)[2]?.Z
4 F():void = -X
5 F():void = - -1
7 F():void = A + B - C
7 F():void = A * B / C
5 F():void = A = B
5 F():void = A <> B
5 F():void = A < B
5 F():void = A <= B
5 F():void = A > B
5 F():void = A >= B
4 F():void = not A
7 F():void = not not A < 1
7 F():void = A and B and C
7 F():void = A or B or C
6 F():void = if (A) { B }
10 F():void = if (A, X := B) { X } else { C }
5 F():void = if (A) then B
6 F():void = if (A) then B else C
10 F():void = if (A) then B else if (C) { D } else E
5 F():void = { X := 1 }
5 F():void = { X:int = 1 }
6 F():void = { X:[int]?c = 1 }
5 F():void = { var X:int = 1 }
6 F():void = { set X = 1 }
6 F():void = { set X += 1 }
6 F():void = { set X -= 1 }
6 F():void = { set X *= 1 }
10 F():void = { set P.Q[1].R = 2 }
4 F():void = { return }
5 F():void = { return 1 }
4 F():void = { break }
7 F():void = { defer { F() } }
7 F():void = { defer { return; break } }
4 F(X:int):void = {}
4 F(X:logic):void = {}
4 F(X:char):void = {}
4 F(X:string):void = {}
4 F(X:void):void = {}
5 F(X:c):void = {}
4 F(X:?int):void = {}
4 F(X:[]int):void = {}
4 F(X:[int]string):void = {}
6 F(X:[c][]?d):void = {}
4 F(X:tuple(int, char)):void = {}
7 F(X:tuple(a, []b, ?c)):void = {}
4 F(X:task(int)):void = {}
4 F(X:event(int)):void = {}
4 F(X:event()):void = {}
2 using { /A }
2 using { /A.b/C.D.e/F }
2 e := enum{}
2 e := enum{a}
2 e<public> := enum{a, b; c}
2 c := class {}
2 c<public> := class<unique> {}
2 c := class(d) {}
6 c<a><b> := class<unique><x>(d) { A:int; B:d = 1 }
3 c := class { var A:int }
4 c := class { var<private> A<public>:[]int = array{} }
4 c := class { F():void = {} }
12 c := class { A:int = 1, F<override>(X:int, Y:c)<transacts><decides>:int = X; G():void = { A } }
3 F():void = {}
5 F<public>(X:int)<suspends>:c = 1
11 F(X:int, Y:[]c, Z:tuple(a, b)):void = { X; Y }
6 F():void = if (A) then B else C
5 F():int = 1; G():int = 2
1 
"#;

// Programs of several lines, each with a line behind it that says how many nodes it has.
pub(crate) const FILES: &str = r#"c := class:
    A:int = 1
    F(X:int):int =
        X
Main()<suspends>:void =
    if (A = 1):
        Print("a")
    else:
        Print("b")
    for (X : A):
        X
    case (X):
        1 => 2
        _ =>
            3
    loop:
        break
    race:
        F()
        G()
    defer:
        H()
= 48
Main():void =
    var X:int = 1
    if (set X = 5, Print("gone"), X < 3):
        Print("no")
    else:
        Print("{X}")
= 24
Main():void =
    var X:int = 1
    if (set X = 2, block{set X = 9; X < 3} or X > 5):
        Print("no")
    Print("{X}")
= 29
Main():void =
    var S:int = 0
    var R:[]int = for (I := 1..4, set S += I, Mod[I, 2] = 0) { I }
= 21
Main():void =
    var X:int = 1
    if (Print("in"), set X = 7, 9223372036854775807 + X > 0):
        Print("no")
= 21
F()<transacts><decides>:void =
    Print("f")
    F[]
Main():void =
    Print("m")
    if (not F[]):
        Print("no")
= 21
Main()<suspends>:void =
    race:
        block:
            Sleep(2.0)
            Print("slow")
        block:
            Sleep(1.0)
            Print("fast")
    Print("after")
= 19
Main()<suspends>:void =
    race:
        Print("a")
        block:
            Sleep(1.0)
            Print("b")
    Print("c")
    Sleep(2.0)
= 17
F()<suspends>:void =
    rush:
        Sleep(1.0)
        block:
            Sleep(2.0)
            Print("late")
Main()<suspends>:void =
    F()
    Sleep(5.0)
    Print("end")
= 19
Main()<suspends>:void =
    branch:
        Sleep(2.0)
        Print("b")
    Sleep(1.0)
    Print("m")
= 13
W()<suspends>:void =
    Sleep(3.0)
    Print("w")
Main():void =
    spawn{W()}
= 12
Main()<suspends>:void =
    E:event(int) = event(int){}
    E.Signal(1)
    sync:
        block:
            X := E.Await()
            Print("a{X}")
        block:
            Sleep(0.5)
            Y := E.Await()
            Print("b{Y}")
        block:
            Sleep(1.0)
            E.Signal(2)
            Print("s")
    Print("end")
= 44
W()<suspends>:int =
    Sleep(1.0)
    7
Main()<suspends>:void =
    T := spawn{W()}
    X := T.Await()
    Y := T.Await()
    Print("{X + Y}")
= 25
c := class<unique>:
    N:int = 0
Main():void =
    var A:int = 1
    if (X := c{N := 5}, X.N = 4) {}
    var B:int = 2
= 19
Main():void =
    if (A := Floor(-7/2), B := Ceil(-7/2), C := Mod[-7, 2]):
        Print("{A} {B} {C}")
    if (Floor(1/0) = 0) {} else { Print("zero") }
= 44
Main():void =
    var M:[string]int = map{"b" => 1, "a" => 2}
    if (set M["b"] = 5, set M["c"] = 3, M["z"] = 0) {}
    if (set M["b"] = 7) {}
    for (K -> V : M) { Print("{K}{V}") }
= 42
Main():void =
    var S:string = "ab"
    loop:
        set S += S
= 10
using { /Verse.org/Simulation }
using { /UnrealEngine.com/Temporary/Diagnostics }

player := class<unique>:
    Name<public>:string
    var Health<public>:int = 100
    Hits:event(int) = event(int){}

    Hurt(Amount:int)<transacts>:void =
        set Health -= Amount

Fight(P:player)<suspends>:int =
    var Count:int = 0
    loop:
        Amount := P.Hits.Await()
        P.Hurt(Amount)
        set Count += 1
        Print("{P.Name} {P.Health}")
        if (P.Health <= 0):
            break
    Count

Main(Inputs:[]int)<suspends>:void =
    P := player{Name := "Ann"}
    var Scores:[string]int = map{}
    branch:
        for (Hit : Inputs):
            Sleep(10.0)
            P.Hits.Signal(Hit)
    race:
        block:
            Sleep(60.0)
            Print("time")
        block:
            N := Fight(P)
            if (set Scores[P.Name] = N) {}
            Print("down after {N}")
    if (S := Scores["Ann"]):
        Print("score {S}")
    else:
        Print("no score")
= 109
a := class:
    N:int = 1
    F():int = N
b := class(a):
    F<override>():int = N + 10
Main():void =
    X:a = b{N := 2}
    Print("{X.F()}")
= 23
Main(X:[]int):void =
    if (A := X[1]):
        Print("{A}")
= 14
Main():void =
    var A:[]void = array{}
    loop:
        set A = array{A}
= 11
Main():void =
    var X:int = 0
    A:?int = option{set X = 1; X > 3}
    B := logic{not X = 1}
    if (B?, not A?):
        Print("ok {X}")
= 30
W(E:event(int), N:int)<suspends>:void =
    X := E.Await()
    Print("{N} {X}")
Main()<suspends>:void =
    E:event(int) = event(int){}
    E.Signal(1)
    spawn{W(E, 1)}
    spawn{W(E, 2)}
    Sleep(1.0)
    E.Signal(5)
    Print("s")
= 40
Main()<suspends>:void =
    race:
        sync:
            Sleep(3.0)
            Sleep(Inf)
        block:
            race:
                Sleep(2.0)
                Sleep(2.0)
            Print("in")
    Print("out")
= 18
Main()<suspends>:void =
    sync:
        block:
            branch:
                Sleep(2.0)
                Print("lost")
            Sleep(1.0)
        Sleep(3.0)
    Print("end")
= 17
Main():void =
    var I:int = 0
    loop:
        var X:int = 0
        set I += 1
        if (set X = 1, I = 0) {}
        if (I = 1000):
            break
= 26
Main()<suspends>:void =
    race:
        block:
            defer:
                Print("d1")
            defer:
                Print("d2")
            Sleep(2.0)
        Sleep(1.0)
    Print("after")
= 21
F():int =
    defer:
        Print("f")
    loop:
        defer:
            Print("l")
        return 5
Main():void =
    Print("{F()}")
= 24
G(N:int)<suspends>:void =
    defer:
        Print("g{N}")
    branch:
        defer:
            Print("b{N}")
        Sleep(Inf)
    Sleep(Inf)
Main()<suspends>:void =
    race:
        sync:
            G(1)
            G(2)
        Sleep(1.0)
= 31
F1()<suspends>:void =
    var S:int = 0
    for (I := 1..4, set S += I, Mod[I, 2] = 0):
        Print("{S}")
    race:
        Sleep(2.0)
        Sleep(0.001)
    Print("{S}")
F2()<suspends>:void =
    var S:int = 0
    for (I := 1..4, set S += I, Mod[I, 2] = 0):
        Print("{S}")
    race:
        Sleep(2.0)
        Sleep(0.002)
    Print("{S}")
Main()<suspends>:void =
    sync:
        F1()
        F2()
= 66
"#;

// A kind of phrase (`e` an expression, `t` a type, `b` a block), its number of toks, and the text.
// In the last rows the text goes on behind the phrase.
pub(crate) const PHRASES: &str = r#"e 1 1
e 1 'c'
e 1 "t"
e 3 "a{B}c"
e 7 "{A}b{C + 1}d"
e 1 true
e 1 false
e 1 Self
e 1 X
e 3 (1)
e 5 (1, 2)
e 7 (A, B, C)
e 3 array{}
e 8 array{1, 2; 3}
e 3 map{}
e 10 map{1 => 2, "a" => B}
e 6 option{X = 1}
e 8 option{A := 1; A}
e 4 logic{X}
e 6 logic{A, B}
e 3 c{}
e 10 c{F := 1, G := 2}
e 5 event(){}
e 8 event([]int){}
e 9 for (X : A) { X }
e 11 for (I -> X : A) { I }
e 11 for (I := 1..N) { I }
e 24 for (X : A, Y := X, set Z = 1, return, return 1, break) {}
e 33 for (X : A, K -> V : M, J := 1..2, F(X), if (A) { B }) {}
e 4 loop { break }
e 6 block { 1; 2 }
e 6 branch { F() }
e 6 sync { A; B }
e 6 race { A; B }
e 6 rush { A; B }
e 3 sync {}
e 9 case (X) { 1 => 2 }
e 38 case (X) { -1 => A, 'a' => { B }, "s" => C, true => D, false => E, e.v => F, _ => G }
e 6 spawn{F()}
e 4 Sleep(1.5)
e 4 Sleep(Inf)
e 3 F()
e 6 F(1, 2)
e 3 A[]
e 4 A[1]
e 6 A[1, 2]
e 3 X.Y
e 2 X?
e 12 X.Y(1)[2]?.Z
e 2 -X
e 3 - -1
e 5 A + B - C
e 5 A * B / C
e 3 A = B
e 3 A <> B
e 3 A < B
e 3 A <= B
e 3 A > B
e 3 A >= B
e 2 not A
e 5 not not A < 1
e 5 A and B and C
e 5 A or B or C
e 7 if (A) { B }
e 15 if (A, X := B) { X } else { C }
e 6 if (A) then B
e 8 if (A) then B else C
e 16 if (A) then B else if (C) { D } else E
t 1 int
t 1 logic
t 1 char
t 1 string
t 1 void
t 1 c
t 2 ?int
t 3 []int
t 4 [int]string
t 7 [c][]?d
t 6 tuple(int, char)
t 11 tuple(a, []b, ?c)
t 4 task(int)
t 4 event(int)
t 3 event()
b 2 {}
b 3 { 1 }
b 14 { X := 1; defer { F() }; return }
e 5 1 - 2 - 3 4
e 4 not 1 < 2, 3
t 1 int = 1
"#;

// A rule, the index of the tok at which no program goes on, and the text.
pub(crate) const REFUSED: &str = r#"69 2 Main := interface
30 5 Main():void
30 2 using { A }
30 4 e := enum{1}
30 5 c := class { A }
30 6 c := class { var F():void = 1 }
30 7 F():void = 1 2
30 8 F():void = { defer 1 }
30 11 F():void = case (A) {}
30 9 F():void = for (A) {}
30 6 F():void = tuple(1)
30 7 F(X:tuple(int)):void = 1
69 6 F():void = await
30 10 F():void = if (A) B
30 8 F():void = option{}
30 9 F():void = A < B < C
30 6 F():void = set X
30 0 1
30 9 F():void = 1; ; G
30 10 F():void = { X:int }
30 11 F():void = for (X := 1) {}
30 12 F():void = for (X : A, var Y:int = 1) {}
30 8 F():void = race { defer { 1 } }
"#;
