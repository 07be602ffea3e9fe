// Hierarchies and questions. A world begins anew; a class has a row `KIND NAME | SUPERCLASS | SUPERINTERFACES | MEMBERS`.
// A question has its answer behind a bar: a class, `none` (NoSuch), `ambiguous`, `circular`, `not loaded NAME`, `yes` or
// `no`. `.ci/hierarchies` asks a Java virtual machine the same; where that answers otherwise, its answer is behind a
// second bar.
pub(crate) const CASES: &str = "
    world superclasses
    class A | java/lang/Object | | public.m public.n private.p public.static.s
    class B | A | | public.m
    class C | B | | protected.q
    resolve class C.m | B
    resolve class B.m | B
    resolve class A.m | A
    resolve class C.n | A
    resolve class C.p | A
    resolve class C.s | A
    resolve class C.q | C
    resolve class B.q | none
    resolve class C.m(I)I | none
    select C A.m | B
    select C B.m | B
    select B A.m | B
    select A A.m | A
    select C A.n | A

    world private and static methods are not selected by name
    class A | java/lang/Object | | public.m private.p public.n
    class B | A | | private.m public.p public.static.n
    class C | B | | public.m
    select B A.m | A
    select C A.m | C
    select C A.p | A
    select B B.m | B
    select C B.m | B
    select B A.n | A
    select B B.n | none | error

    world abstract over default
    interface I | java/lang/Object | | public.m
    abstract A | java/lang/Object | I | public.abstract.m
    class B | A | |
    class C | A | | public.m
    resolve class B.m | A
    select B A.m | none
    select B I.m | none
    select C I.m | C
    select C A.m | C

    world a diamond with one default below
    interface I | java/lang/Object | | public.m
    interface J | java/lang/Object | I | public.m
    interface K | java/lang/Object | I |
    class A | java/lang/Object | I J |
    class B | java/lang/Object | K J |
    class C | A | K |
    class D | java/lang/Object | K |
    resolve class A.m | J
    resolve class B.m | J
    resolve class C.m | J
    resolve class D.m | I
    resolve interface K.m | I
    resolve interface J.m | J
    select A I.m | J
    select B I.m | J
    select C I.m | J
    select D I.m | I

    world two defaults
    interface I | java/lang/Object | | public.m
    interface J | java/lang/Object | | public.m
    interface H | java/lang/Object | J I |
    class A | java/lang/Object | J I |
    class B | A | | public.m
    select A I.m | ambiguous | none
    select A J.m | ambiguous | none
    select B I.m | B
    resolve class A.m | I | free
    resolve interface H.m | I | free

    world a default beside an abstract method
    interface I | java/lang/Object | | public.m
    interface J | java/lang/Object | | public.abstract.m
    class A | java/lang/Object | J I |
    class B | java/lang/Object | I J |
    resolve class A.m | I
    select A I.m | I
    select A J.m | I
    select B J.m | I

    world an abstract method over a default
    interface I | java/lang/Object | | public.m
    interface J | java/lang/Object | I | public.abstract.m
    interface K | java/lang/Object | I | public.abstract.m
    class A | java/lang/Object | J |
    class B | java/lang/Object | K J |
    resolve class A.m | I | free
    resolve class B.m | I | free
    select A I.m | none
    select A J.m | none
    select B I.m | none

    world private and static methods of interfaces are left out
    interface I | java/lang/Object | | public.m public.s
    interface J | java/lang/Object | I | private.m public.static.s
    interface K | java/lang/Object | | private.q public.static.t
    class A | java/lang/Object | J K |
    resolve class A.m | I
    resolve class A.s | I
    resolve class A.q | none
    resolve class A.t | none
    resolve interface J.m | J
    resolve interface J.s | J
    resolve interface K.t | K
    select A I.m | I
    select A I.s | I
    select A K.q | K

    world a class before its superinterfaces
    interface I | java/lang/Object | | public.m
    interface J | java/lang/Object | I | public.m
    class A | java/lang/Object | | public.m
    class B | A | J |
    class C | java/lang/Object | J | private.m
    class D | java/lang/Object | J | public.static.m
    resolve class B.m | A
    resolve class C.m | C
    resolve class D.m | D
    select B I.m | A
    select B J.m | A
    select C J.m | J
    select D J.m | J

    world package access
    class p/A | java/lang/Object | | m public.n
    class p/B | p/A | | public.m n
    class q/C | p/A | | public.m
    class q/D | p/B | | m
    class p/E | q/C | | public.m
    class pp/F | p/A | | m
    select p/B p/A.m | p/B
    select q/C p/A.m | p/A
    select q/D p/B.m | q/D
    select q/D p/A.m | p/B | q/D
    select p/E p/A.m | p/E
    select p/E q/C.m | p/E
    select pp/F p/A.m | p/A
    select p/B p/A.n | p/B
    resolve class q/C.m | q/C
    resolve class pp/F.m | pp/F

    world the package without a name
    class A | java/lang/Object | | m
    class B | A | | m
    class q/C | A | | m
    class q/A | A | | public.m
    select B A.m | B
    select q/C A.m | A
    select q/A A.m | A

    world methods of Object
    interface I | java/lang/Object | | public.abstract.m
    interface J | java/lang/Object | | public.abstract.equals(Ljava/lang/Object;)Z
    class A | java/lang/Object | I J |
    class B | A | | public.equals(Ljava/lang/Object;)Z
    resolve interface I.equals(Ljava/lang/Object;)Z | java/lang/Object
    resolve interface J.equals(Ljava/lang/Object;)Z | J | java/lang/Object
    resolve interface I.equals(LI;)Z | none
    resolve class A.equals(Ljava/lang/Object;)Z | java/lang/Object
    resolve class B.equals(Ljava/lang/Object;)Z | B
    resolve class [I.equals(Ljava/lang/Object;)Z | java/lang/Object
    resolve class [[LB;.equals(Ljava/lang/Object;)Z | java/lang/Object
    resolve class [LB;.m | none
    resolve class java/lang/String.equals(Ljava/lang/Object;)Z | java/lang/String
    select A java/lang/Object.equals(Ljava/lang/Object;)Z | java/lang/Object
    select B java/lang/Object.equals(Ljava/lang/Object;)Z | B
    select B J.equals(Ljava/lang/Object;)Z | B
    select A J.equals(Ljava/lang/Object;)Z | java/lang/Object
    select [I java/lang/Object.equals(Ljava/lang/Object;)Z | java/lang/Object
    select [LB; java/lang/Object.equals(Ljava/lang/Object;)Z | java/lang/Object
    select java/lang/String java/lang/Object.equals(Ljava/lang/Object;)Z | java/lang/String

    world constructors resolve like any method
    class A | java/lang/RuntimeException | | public.<init>(I)V
    resolve class A.<init>(I)V | A
    resolve class A.<init>()V | java/lang/RuntimeException | none
    resolve class A.<init>(J)V | none

    world fields
    interface I | java/lang/Object | | public.static.field.f public.static.field.g
    interface J | java/lang/Object | I | public.static.field.f
    class A | java/lang/Object | | public.static.field.f public.static.field.h private.static.field.p
    class B | A | J |
    class C | B | I | static.field.h
    class D | java/lang/Object | I J |
    field B.f | J
    field B.g | I
    field B.h | A
    field B.p | A | error
    field C.f | I
    field C.h | C
    field D.f | I
    field J.g | I
    field J.f | J
    field D.h | none
    field B.f:J | none
    field java/lang/System.out:Ljava/io/PrintStream; | java/lang/System
    field java/lang/System.in:Ljava/io/InputStream; | none | java/lang/System

    world subtypes
    interface I | java/lang/Object | |
    interface J | java/lang/Object | I |
    class A | java/lang/Object | J |
    class B | A | |
    class X | java/lang/RuntimeException | |
    subtype LB; LA; | yes
    subtype LB; LI; | yes
    subtype LA; LB; | no
    subtype LI; LJ; | no
    subtype LJ; Ljava/lang/Object; | yes
    subtype LA; LA; | yes
    subtype [LB; [LI; | yes
    subtype [[LB; [LI; | no
    subtype [[LB; [Ljava/lang/Object; | yes
    subtype [I Ljava/lang/Object; | yes
    subtype [LA; Ljava/lang/Cloneable; | yes
    subtype [[Z Ljava/io/Serializable; | yes
    subtype [[Z [Ljava/io/Serializable; | yes
    subtype [I [I | yes
    subtype [I [J | no
    subtype [Z [B | no
    subtype [I [Ljava/lang/Object; | no
    subtype [LA; LI; | no
    subtype LA; [LA; | no
    subtype I I | yes
    subtype I J | no
    subtype B I | no
    subtype LX; Ljava/lang/Throwable; | yes
    subtype LX; Ljava/io/Serializable; | yes
    subtype LX; Ljava/lang/Error; | no
    subtype Ljava/lang/String; Ljava/lang/Comparable; | yes

    world a class is its own superclass
    class A | B | | public.m
    class B | A | |
    class C | A | |
    resolve class C.n | circular
    resolve class B.n | circular
    resolve class C.m | A | circular
    select C A.m | A | circular
    field A.f | circular
    subtype LC; LB; | yes | circular
    subtype LC; LC; | yes | circular
    subtype LC; Ljava/lang/Object; | circular

    world an interface is its own superinterface
    interface I | java/lang/Object | J | public.m
    interface J | java/lang/Object | I |
    class A | java/lang/Object | J |
    resolve interface I.n | circular
    resolve interface I.m | I | circular
    resolve class A.m | circular
    select A I.m | circular
    field A.f | circular
    subtype LA; LI; | yes | circular

    world missing classes
    class A | Lost | | public.m
    class B | A | Gone | public.n
    interface I | java/lang/Object | Away | public.m
    class C | java/lang/Object | I Gone |
    class D | A | I |
    resolve class Lost.m | not loaded Lost
    resolve class A.m | A | not loaded Lost
    resolve class A.n | not loaded Lost
    resolve class B.m | A | not loaded Gone
    resolve class B.q | not loaded Lost | not loaded Gone
    resolve class C.m | not loaded Away
    resolve interface I.m | I | not loaded Away
    resolve interface I.q | not loaded Away
    resolve interface Gone.q | not loaded Gone
    resolve interface I.equals(Ljava/lang/Object;)Z | java/lang/Object | not loaded Away
    select C I.m | not loaded Away
    select C Gone.m | not loaded Gone
    select Gone A.m | not loaded Gone | not loaded Lost
    select D A.m | A | not loaded Lost
    field B.f | not loaded Gone
    field D.f | not loaded Away
    field A.f | not loaded Lost
    subtype LB; LGone; | not loaded Gone
    subtype LB; LA; | not loaded Gone | not loaded Lost
    subtype LC; LI; | yes | not loaded Away
    subtype LGone; LGone; | not loaded Gone
    subtype [LLost; Ljava/lang/Object; | yes | not loaded Lost

    world what is missing comes before what is circular, and after
    interface I | java/lang/Object | J |
    interface J | java/lang/Object | I |
    class A | Lost | I |
    class B | I | Gone |
    class C | java/lang/Object | Gone I |
    field A.f | circular
    field B.f | not loaded Gone
    field C.f | not loaded Gone
    resolve class A.m | not loaded Lost | circular
    resolve class C.m | not loaded Gone

    world special calls
    interface J | java/lang/Object | | public.m public.q private.p
    interface K | java/lang/Object | J |
    class A | java/lang/Object | | public.m private.p public.<init>()V public.n
    class B | A | J | public.m private.p public.<init>()V
    class C | B | K | public.m public.<init>()V
    class D | C | J | public.r
    class X | java/lang/Object | | public.m
    special B class B.p | B
    special B class B.<init>()V | B
    special B class A.<init>()V | A
    special C class A.<init>()V | A
    special C class C.m | C
    special C class B.m | B
    special C class A.m | B
    special D class A.m | C
    special D class D.m | C
    special D class D.r | D
    special D class B.n | A
    special D class B.q | J
    special D class java/lang/Object.equals(Ljava/lang/Object;)Z | java/lang/Object
    special D interface J.q | J
    special D interface J.m | J
    special C interface K.q | J
    special C interface K.m | J
    special K interface J.m | J
    special D class D.x | none
    special D interface J.x | none
    special B class X.m | X | error
    special X class B.m | B | error

    world a superclass hides the method that is named
    class A | java/lang/Object | | public.m
    interface J | java/lang/Object | | public.m
    abstract B | A | | public.abstract.m
    class C | B | J |
    class D | C | | public.m
    special C class A.m | B | none
    special D class A.m | B | none
    special D class B.m | B | none
    special D class C.m | B | none

    world static and private methods where a special call is looked up
    class A | java/lang/Object | | public.m
    class B | A | | public.static.m
    class C | B | |
    class D | A | | private.m
    class E | D | |
    special C class A.m | B | A
    special C class B.m | B | error
    special E class A.m | D
    special E class D.m | D

    world special calls where classes are missing
    class A | java/lang/Object | | public.m private.p
    class B | Lost | | public.m private.p public.<init>()V
    class C | B | | public.m
    special C class A.m | not loaded Lost
    special C class A.p | A | not loaded Lost
    special C class B.m | B | not loaded Lost
    special C class B.q | not loaded Lost
    special B class Lost.m | not loaded Lost
    special Gone class A.m | not loaded Gone
    special A class Gone.m | not loaded Gone
    special B class B.m | B | not loaded Lost

    world special calls where a class is its own superclass
    class A | B | | public.m
    class B | A | |
    class X | java/lang/Object | | public.m
    special A class X.m | circular
    special A class B.m | A | circular
    special A class A.m | A | circular
";
