//! Texts of programs with the trees that they spell, worked out by hand from the grammar.

use super::answers::{Asked, judge_lines, judge_rows};
use std::test::Fail;

const OPERATORS: &str = r"
STRING(1+2) => STRING@1:1((1+2))
STRING(1-2) => STRING@1:1((1-2))
STRING(1*2) => STRING@1:1((1*2))
STRING(1/2) => STRING@1:1((1/2))
STRING(1%2) => STRING@1:1((1%2))
STRING(1^2) => STRING@1:1((1^2))
# From the left.
STRING(1-2-3) => STRING@1:1(((1-2)-3))
STRING(1-2+3) => STRING@1:1(((1-2)+3))
STRING(1+2-3+4) => STRING@1:1((((1+2)-3)+4))
STRING(8/4/2) => STRING@1:1(((8/4)/2))
STRING(8/4*2) => STRING@1:1(((8/4)*2))
STRING(8%5%2) => STRING@1:1(((8%5)%2))
STRING(2*3%4/5) => STRING@1:1((((2*3)%4)/5))
# Products before sums.
STRING(1+2*3) => STRING@1:1((1+(2*3)))
STRING(1*2+3) => STRING@1:1(((1*2)+3))
STRING(1-2/3) => STRING@1:1((1-(2/3)))
STRING(1%2-3) => STRING@1:1(((1%2)-3))
STRING(1+2*3-4/5%6) => STRING@1:1(((1+(2*3))-((4/5)%6)))
# Parentheses leave nothing but the order.
STRING(1-(2-3)) => STRING@1:1((1-(2-3)))
STRING((1-2)-3) => STRING@1:1(((1-2)-3))
STRING((1+2)*3) => STRING@1:1(((1+2)*3))
STRING(8/(4/2)) => STRING@1:1((8/(4/2)))
STRING(1*(2+3)*4) => STRING@1:1(((1*(2+3))*4))
STRING((1)-((2)-(3))) => STRING@1:1((1-(2-3)))
STRING(((7))) => STRING@1:1(7)
STRING((a)) => STRING@1:1(a)
";

const POWERS: &str = r"
STRING(2^3^2) => STRING@1:1((2^(3^2)))
STRING(2^3^2^1) => STRING@1:1((2^(3^(2^1))))
STRING((2^3)^2) => STRING@1:1(((2^3)^2))
STRING(2^(3^2)) => STRING@1:1((2^(3^2)))
STRING(2*3^2) => STRING@1:1((2*(3^2)))
STRING(2^3*4) => STRING@1:1(((2^3)*4))
STRING(2^3-4) => STRING@1:1(((2^3)-4))
STRING(2^(1+1)^2) => STRING@1:1((2^((1+1)^2)))
STRING(-2) => STRING@1:1((-2))
STRING(--2) => STRING@1:1((-(-2)))
STRING(- - -a) => STRING@1:1((-(-(-a))))
STRING(-2^2) => STRING@1:1((-(2^2)))
STRING(--2^2) => STRING@1:1((-(-(2^2))))
STRING((-2)^2) => STRING@1:1(((-2)^2))
STRING(-(2^2)) => STRING@1:1((-(2^2)))
STRING(2^-3) => STRING@1:1((2^(-3)))
STRING(2^--3) => STRING@1:1((2^(-(-3))))
STRING(2^-3^2) => STRING@1:1((2^(-(3^2))))
STRING(2^-3^-4^5) => STRING@1:1((2^(-(3^(-(4^5))))))
STRING(2^(-3)^2) => STRING@1:1((2^((-3)^2)))
STRING(2^-3*4) => STRING@1:1(((2^(-3))*4))
STRING(2^-3-4) => STRING@1:1(((2^(-3))-4))
STRING(-2^-2) => STRING@1:1((-(2^(-2))))
# Behind a minus stands no more than a power.
STRING(-a*b) => STRING@1:1(((-a)*b))
STRING(-a-b) => STRING@1:1(((-a)-b))
STRING(-(a-b)) => STRING@1:1((-(a-b)))
# The operand of a product may start with a minus.
STRING(a*-b) => STRING@1:1((a*(-b)))
STRING(a%-b^c*d) => STRING@1:1(((a%(-(b^c)))*d))
STRING(a--b) => STRING@1:1((a-(-b)))
STRING(a+-b*c) => STRING@1:1((a+((-b)*c)))
STRING(1--1--1) => STRING@1:1(((1-(-1))-(-1)))
";

const VALUES: &str = r#"
STRING(0) => STRING@1:1(0)
STRING(170141183460469231731687303715884105727) => STRING@1:1(170141183460469231731687303715884105727)
STRING(-170141183460469231731687303715884105727-1) => STRING@1:1(((-170141183460469231731687303715884105727)-1))
STRING("") => STRING@1:1("")
STRING("a b") => STRING@1:1("a b")
STRING("(") => STRING@1:1("(")
STRING("\101\x") => STRING@1:1("A\x")
STRING("a"+"b") => STRING@1:1(("a"+"b"))
STRING(a) => STRING@1:1(a)
STRING(a1b2) => STRING@1:1(a1b2)
STRING(end) => STRING@1:1(end)
STRING(a[1]) => STRING@1:1(a[1])
STRING(a [ 1 ]) => STRING@1:1(a[1])
STRING(a["k"]) => STRING@1:1(a["k"])
STRING(a[1,2]) => STRING@1:1(a[1,2])
STRING(a[1,"x",b]) => STRING@1:1(a[1,"x",b])
STRING(a[1-2-3,4]) => STRING@1:1(a[((1-2)-3),4])
STRING(a[-1]) => STRING@1:1(a[(-1)])
STRING(a[(1)]) => STRING@1:1(a[1])
STRING(a[b[c[1]]]) => STRING@1:1(a[b[c[1]]])
STRING(a[b[1],c[2,d[3]]]) => STRING@1:1(a[b[1],c[2,d[3]]])
STRING(s[s]) => STRING@1:1(s[s])
STRING(-a[1]^b[2]) => STRING@1:1((-(a[1]^b[2])))
STRING(a[1]-b[2]-c) => STRING@1:1(((a[1]-b[2])-c))
STRING(STRLEN(s)) => STRING@1:1(STRLEN(s))
STRING(STRLEN((s))) => STRING@1:1(STRLEN(s))
STRING(-STRLEN(s)^2) => STRING@1:1((-(STRLEN(s)^2)))
STRING(STRLEN(a[i]+1)*2) => STRING@1:1((STRLEN((a[i]+1))*2))
STRING(STRLEN(STRLEN("ab"))) => STRING@1:1(STRLEN(STRLEN("ab")))
"#;

const TESTS: &str = r#"
ASSERT(1<2) => ASSERT@1:1((1<2))
ASSERT(1>2) => ASSERT@1:1((1>2))
ASSERT(1<=2) => ASSERT@1:1((1<=2))
ASSERT(1>=2) => ASSERT@1:1((1>=2))
ASSERT(1==2) => ASSERT@1:1((1==2))
ASSERT(1!=2) => ASSERT@1:1((1!=2))
ASSERT(1+2<3*4) => ASSERT@1:1(((1+2)<(3*4)))
ASSERT(-a<-b) => ASSERT@1:1(((-a)<(-b)))
ASSERT(a-1==2^3^4) => ASSERT@1:1(((a-1)==(2^(3^4))))
ASSERT(a[1]!="x") => ASSERT@1:1((a[1]!="x"))
# From the left, and && before ||.
ASSERT(a==1||b==2||c==3) => ASSERT@1:1((((a==1)||(b==2))||(c==3)))
ASSERT(a==1&&b==2&&c==3) => ASSERT@1:1((((a==1)&&(b==2))&&(c==3)))
ASSERT(a==1||b==2&&c==3) => ASSERT@1:1(((a==1)||((b==2)&&(c==3))))
ASSERT(a==1&&b==2||c==3) => ASSERT@1:1((((a==1)&&(b==2))||(c==3)))
ASSERT(ISEOF||ISEOF&&ISEOF||ISEOF) => ASSERT@1:1(((ISEOF||(ISEOF&&ISEOF))||ISEOF))
ASSERT((a==1||b==2)&&c==3) => ASSERT@1:1((((a==1)||(b==2))&&(c==3)))
ASSERT(a==1||(b==2||c==3)) => ASSERT@1:1(((a==1)||((b==2)||(c==3))))
ASSERT(a==1&&(b==2&&c==3)) => ASSERT@1:1(((a==1)&&((b==2)&&(c==3))))
ASSERT(a==1&&(b==2||c==3)) => ASSERT@1:1(((a==1)&&((b==2)||(c==3))))
# Behind a negation stands one test that is no && and no ||.
ASSERT(!1==2) => ASSERT@1:1((!(1==2)))
ASSERT(!1!=2) => ASSERT@1:1((!(1!=2)))
ASSERT(!-a==1) => ASSERT@1:1((!((-a)==1)))
ASSERT(!!ISEOF) => ASSERT@1:1((!(!ISEOF)))
ASSERT(! ! !1==2) => ASSERT@1:1((!(!(!(1==2)))))
ASSERT(!a==1&&b==2) => ASSERT@1:1(((!(a==1))&&(b==2)))
ASSERT(!a==1||b==2) => ASSERT@1:1(((!(a==1))||(b==2)))
ASSERT(a==1&&!b==2) => ASSERT@1:1(((a==1)&&(!(b==2))))
ASSERT(!(a==1&&b==2)) => ASSERT@1:1((!((a==1)&&(b==2))))
ASSERT(!(a==1)&&b==2) => ASSERT@1:1(((!(a==1))&&(b==2)))
ASSERT(!(!ISEOF||ISEOF)) => ASSERT@1:1((!((!ISEOF)||ISEOF)))
ASSERT(MATCH("ab")) => ASSERT@1:1(MATCH("ab"))
ASSERT(MATCH((s)+1)) => ASSERT@1:1(MATCH((s+1)))
ASSERT(ISEOF) => ASSERT@1:1(ISEOF)
ASSERT(UNIQUE(a)) => ASSERT@1:1(UNIQUE(a))
ASSERT(UNIQUE(a,b,c)) => ASSERT@1:1(UNIQUE(a,b,c))
ASSERT(INARRAY(1,a)) => ASSERT@1:1(INARRAY(1,a))
ASSERT(INARRAY(b[1,2]-3,a)) => ASSERT@1:1(INARRAY((b[1,2]-3),a))
ASSERT(UNIQUE(a,b)&&!INARRAY(1,a)) => ASSERT@1:1((UNIQUE(a,b)&&(!INARRAY(1,a))))
ASSERT(!MATCH("\\")) => ASSERT@1:1((!MATCH("\")))
"#;

const PARENTHESES: &str = r#"
ASSERT((1==1)) => ASSERT@1:1((1==1))
ASSERT(((1==1))) => ASSERT@1:1((1==1))
ASSERT((1)==1) => ASSERT@1:1((1==1))
ASSERT(1==(1)) => ASSERT@1:1((1==1))
ASSERT(((1))==((1))) => ASSERT@1:1((1==1))
ASSERT(((1)==1)) => ASSERT@1:1((1==1))
ASSERT((((1)==(1)))) => ASSERT@1:1((1==1))
ASSERT(((1)+2)*3==9) => ASSERT@1:1((((1+2)*3)==9))
ASSERT((((1)+2)*3==9)) => ASSERT@1:1((((1+2)*3)==9))
ASSERT((1+2)==(3)) => ASSERT@1:1(((1+2)==3))
ASSERT((1)+(2)==3) => ASSERT@1:1(((1+2)==3))
ASSERT((1)+(2)<(3)-(4)) => ASSERT@1:1(((1+2)<(3-4)))
ASSERT(((1)+(2)==3)) => ASSERT@1:1(((1+2)==3))
ASSERT((1)^2==1) => ASSERT@1:1(((1^2)==1))
ASSERT((-1)^2==1) => ASSERT@1:1((((-1)^2)==1))
ASSERT(-(1)==1) => ASSERT@1:1(((-1)==1))
ASSERT(-(-(1))==1) => ASSERT@1:1(((-(-1))==1))
ASSERT((a)!=(b)) => ASSERT@1:1((a!=b))
ASSERT((a[(1)])==1) => ASSERT@1:1((a[1]==1))
ASSERT((STRLEN(s))==(0)) => ASSERT@1:1((STRLEN(s)==0))
ASSERT((STRLEN((s)))==0) => ASSERT@1:1((STRLEN(s)==0))
ASSERT((ISEOF)) => ASSERT@1:1(ISEOF)
ASSERT(((ISEOF))) => ASSERT@1:1(ISEOF)
ASSERT(!(ISEOF)) => ASSERT@1:1((!ISEOF))
ASSERT((!ISEOF)) => ASSERT@1:1((!ISEOF))
ASSERT(((!(ISEOF)))) => ASSERT@1:1((!ISEOF))
ASSERT((!(1)==(1))) => ASSERT@1:1((!(1==1)))
ASSERT((MATCH("a"))) => ASSERT@1:1(MATCH("a"))
ASSERT((UNIQUE(a,b))) => ASSERT@1:1(UNIQUE(a,b))
ASSERT((INARRAY((1),a))) => ASSERT@1:1(INARRAY(1,a))
ASSERT((1==1)&&(2==2)) => ASSERT@1:1(((1==1)&&(2==2)))
ASSERT(((1==1)&&(2==2))||(3==3)) => ASSERT@1:1((((1==1)&&(2==2))||(3==3)))
ASSERT(((1)<(2))&&!((3)>(4))) => ASSERT@1:1(((1<2)&&(!(3>4))))
ASSERT(((ISEOF))&&((1)==(1))) => ASSERT@1:1((ISEOF&&(1==1)))
"#;

const COMMANDS: &str = r#"

# SPACE
SPACE => SPACE@1:1
SPACE # x => SPACE@1:1
NEWLINE => NEWLINE@1:1
EOF => EOF@1:1
INT(1,10) => INT@1:1(1,10)
INT(1,10,n) => INT@1:1(1,10,n)
INT(-1,2^3,a[i,"x"]) => INT@1:1((-1),(2^3),a[i,"x"])
INT((1),a[1,2]) => INT@1:1(1,a[1,2])
STRING("ab") => STRING@1:1("ab")
STRING(a[1]-2-3) => STRING@1:1(((a[1]-2)-3))
REGEX("[a-z]+") => REGEX@1:1("[a-z]+"@1:7#0)
REGEX("x",w) => REGEX@1:1("x"@1:7#0,w)
REGEX ("x" , w[1-2,i]) => REGEX@1:1("x"@1:8#0,w[(1-2),i])
ASSERT(ISEOF) => ASSERT@1:1(ISEOF)
SET(a=1) => SET@1:1(a=1)
SET(a=1,b[2]=-a,c="x") => SET@1:1(a=1,b[2]=(-a),c="x")
SET(x=-2^2,y=2^-3^2) => SET@1:1(x=(-(2^2)),y=(2^(-(3^2))))
SET(a[1,2]=(3)) => SET@1:1(a[1,2]=3)
UNSET(a) => UNSET@1:1(a)
UNSET(a,b,a) => UNSET@1:1(a,b,a)
REP(2) END => REP@1:1(2){}
REP(n-1-2) SPACE END => REP@1:1(((n-1)-2)){SPACE@1:12}
REP(2,SPACE) END => REP@1:1(2,SPACE@1:7){}
REP(2,SPACE) INT(0,9) NEWLINE END => REP@1:1(2,SPACE@1:7){INT@1:14(0,9) NEWLINE@1:23}
REPI(i,3) SPACE END => REPI@1:1(i,3){SPACE@1:11}
REPI(a[1,2],n,INT(0,9,b)) END => REPI@1:1(a[1,2],n,INT@1:15(0,9,b)){}
WHILE(1<2) NEWLINE END => WHILE@1:1((1<2)){NEWLINE@1:12}
WHILE((1)==(1),SPACE) END => WHILE@1:1((1==1),SPACE@1:16){}
WHILEI(i,i<2) SPACE END => WHILEI@1:1(i,(i<2)){SPACE@1:15}
WHILEI(a[0],ISEOF,NEWLINE) EOF END => WHILEI@1:1(a[0],ISEOF,NEWLINE@1:19){EOF@1:28}
IF(ISEOF) END => IF@1:1(ISEOF){}{}
IF(ISEOF) SPACE END => IF@1:1(ISEOF){SPACE@1:11}{}
IF(ISEOF) ELSE END => IF@1:1(ISEOF){}{}
IF(ISEOF) ELSE SPACE END => IF@1:1(ISEOF){}{SPACE@1:16}
IF((1==1)) SPACE ELSE NEWLINE EOF END EOF => IF@1:1((1==1)){SPACE@1:12}{NEWLINE@1:23 EOF@1:31} EOF@1:39
IF(ISEOF) SPACE EOF ELSE NEWLINE END => IF@1:1(ISEOF){SPACE@1:11 EOF@1:17}{NEWLINE@1:26}
"#;

const BLOCKS: &str = r#"
REP(1) REP(2) SPACE END NEWLINE END EOF => REP@1:1(1){REP@1:8(2){SPACE@1:15} NEWLINE@1:25} EOF@1:37
REP(1) END REP(2) END => REP@1:1(1){} REP@1:12(2){}
# An ELSE is that of the innermost IF that is open.
IF(ISEOF) IF(1<2) SPACE ELSE EOF END END => IF@1:1(ISEOF){IF@1:11((1<2)){SPACE@1:19}{EOF@1:30}}{}
IF(ISEOF) IF(1<2) SPACE END ELSE EOF END => IF@1:1(ISEOF){IF@1:11((1<2)){SPACE@1:19}{}}{EOF@1:34}
IF(ISEOF) ELSE IF(1<2) ELSE SPACE END END => IF@1:1(ISEOF){}{IF@1:16((1<2)){}{SPACE@1:29}}
IF(ISEOF) REP(2) SPACE END ELSE EOF END => IF@1:1(ISEOF){REP@1:11(2){SPACE@1:18}}{EOF@1:33}
# A separator is any one command, a whole block too.
REP(2,REP(2) SPACE END) NEWLINE END => REP@1:1(2,REP@1:7(2){SPACE@1:14}){NEWLINE@1:25}
REPI(i,3,IF(i==1) SPACE ELSE NEWLINE END) INT(0,9) END => REPI@1:1(i,3,IF@1:10((i==1)){SPACE@1:19}{NEWLINE@1:30}){INT@1:43(0,9)}
REP(1,REP(2,REP(3,SPACE) EOF END) END) NEWLINE END => REP@1:1(1,REP@1:7(2,REP@1:13(3,SPACE@1:19){EOF@1:26}){}){NEWLINE@1:40}
WHILE(ISEOF,SET(a=1,b=2)) END => WHILE@1:1(ISEOF,SET@1:13(a=1,b=2)){}
WHILEI(i,(1)<2,REGEX("a",w)) END => WHILEI@1:1(i,(1<2),REGEX@1:16("a"@1:22#0,w)){}
"#;

/// Texts of several lines, and one whose tree is long.
const TEXTS: [(&str, &str); 13] = [
    ("STRING( 1 # x\n -\t2 \r\n- 3 )", "STRING@1:1(((1-2)-3))"),
    (
        "WHILE(!MATCH(\"\\n\"),SPACE) INT(0,9) END NEWLINE",
        "WHILE@1:1((!MATCH(\"\n\")),SPACE@1:20){INT@1:27(0,9)} NEWLINE@1:40",
    ),
    (
        "REGEX(\"a\")REP(1,REGEX(\"b\"))REGEX(\"c\")END IF(ISEOF)REGEX(\"d\")ELSE REGEX(\"e\")END STRING(\"f\")REGEX(\"g\")",
        "REGEX@1:1(\"a\"@1:7#0) REP@1:11(1,REGEX@1:17(\"b\"@1:23#1)){REGEX@1:28(\"c\"@1:34#2)} \
         IF@1:42(ISEOF){REGEX@1:51(\"d\"@1:57#3)}{REGEX@1:66(\"e\"@1:72#4)} STRING@1:80(\"f\") REGEX@1:91(\"g\"@1:97#5)",
    ),
    (
        "REPI(i,2) WHILEI(j,1<2) WHILE(ISEOF) IF(ISEOF) END END END END",
        "REPI@1:1(i,2){WHILEI@1:11(j,(1<2)){WHILE@1:25(ISEOF){IF@1:38(ISEOF){}{}}}}",
    ),
    ("SPACE\nNEWLINE\n\nEOF", "SPACE@1:1 NEWLINE@2:1 EOF@4:1"),
    ("\n\n  SPACE\r\n\tEOF", "SPACE@3:3 EOF@4:2"),
    ("# SPACE\nSPACE#\nEOF", "SPACE@2:1 EOF@3:1"),
    (
        "REGEX\n(\n \"a\"\n,w)REGEX(#\"\n\"b\")",
        "REGEX@1:1(\"a\"@3:2#0,w) REGEX@4:4(\"b\"@5:1#1)",
    ),
    ("STRING(\"\n\n\") SPACE", "STRING@1:1(\"\n\n\") SPACE@3:4"),
    ("STRING(\"a\\\nb\")SPACE", "STRING@1:1(\"ab\") SPACE@2:4"),
    (
        "REP(1,\nSPACE)\n EOF\nEND EOF",
        "REP@1:1(1,SPACE@2:1){EOF@3:2} EOF@4:5",
    ),
    (
        "IF(ISEOF)\nSPACE\nELSE\n REGEX( \"x\")END",
        "IF@1:1(ISEOF){SPACE@2:1}{REGEX@4:2(\"x\"@4:9#0)}",
    ),
    ("SPACE NEWLINE EOF", "SPACE@1:1 NEWLINE@1:7 EOF@1:15"),
];

// Names are numbered as they first occur, and keep their numbers behind many commands.
const NAMES: [(&str, &str); 2] = [
    (
        "SET(s=1,t[s]=s) UNSET(t,a,s) ASSERT(INARRAY(1,c)) UNSET(b,a,c)",
        "1 2 0 4 2 3 ",
    ),
    ("UNSET(b,a) {5000 SPACE }UNSET(c,a,b)", "0 1 2 1 0 "),
];

#[test]
fn programs_have_their_trees_and_numbers(rt: HostRuntime) -> Result<(), Fail> {
    for lines in &[
        OPERATORS,
        POWERS,
        VALUES,
        TESTS,
        PARENTHESES,
        COMMANDS,
        BLOCKS,
    ] {
        judge_lines(&rt, rt.alloc(), &Asked::Tree, lines)?;
    }
    judge_rows(&rt, rt.alloc(), &Asked::Tree, &TEXTS)?;
    judge_rows(&rt, rt.alloc(), &Asked::Numbers, &NAMES)
}
