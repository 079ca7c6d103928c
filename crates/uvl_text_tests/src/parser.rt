//! What the parser answers for whole texts: trees, and places with kinds of faults. The answers follow
//! from the grammar by hand.
use crate::printing::{put_file, put_placed};
use crate::texts::{Parts, chain, joined};
use crate::tokens::{FRONT, tokens_of};
use std::alloc::Global;
use std::process::Abort;
use std::test::Fail;
use uvl_parser::{ParseFault, parse};

/// The tree of a text and where its file ends, or the kind and the place of its fault.
fn answer(alloc: Global, text: &str) -> Result<String, Fail> {
    let tokens = tokens_of(alloc, text)?;
    let mut shown = String::new(alloc);
    match parse(alloc, &tokens) {
        Ok(file) => put_file(&mut shown, &file)?,
        Err(ParseFault::At { place, kind }) => put_placed(&mut shown, kind.name(), place)?,
        Err(ParseFault::OutOfMemory) => return Err(Fail::from("out of memory")),
    }
    Ok(shown)
}

/// Texts that spell files, with their trees and where they end: all constructs of the language.
const ACCEPTED: [(&str, &str); 11] = [
    ("", "end@1:1"),
    ("features\n\tA\n", "A@2:2;end@3:1"),
    ("// none\ninclude\nimports\nconstraints", "end@4:12"),
    (
        "namespace Shop.Cars\n\
         include\n\
         \tBoolean.*\n\
         \tArithmetic . feature - cardinality\n\
         \t\"a b\".*\n\
         imports\n\
         \tparts.radio as r\n\
         \tengine\n\
         features\n\
         \tBoolean Car\n",
        "namespace Shop.Cars@1:11;\
         include Boolean.*;\
         include Arithmetic.feature-cardinality;\
         include \"a b\".*;\
         import@7:2 parts.radio@7:2 as r@7:17;\
         import@8:2 engine@8:2;\
         Car@10:10;end@11:1",
    ),
    (
        "features\n\
         \tA {p, q true, r false, s 300, t -2.5, u .5, v 'a b', w '', x {}, y []}\n",
        "A@2:2 p@2:5=yes q@2:8=yes r@2:16=no s@2:25=300000000 t@2:32=-2500000 \
         u@2:40=500000 v@2:46='a b' w@2:55='' x@2:61={} y@2:67=[];end@3:1",
    ),
    (
        "features\n\
         \tA {Price 300,\n\
         \tFat {value 35, unit {of 'g', all}},\n\
         \tSizes [1, -2.5, [], [true, {k false}]]}",
        "A@2:2 Price@2:5=300000000 \
         Fat@3:2={ value@3:7=35000000 unit@3:17={ of@3:23='g' all@3:31=yes}} \
         Sizes@4:2=[ 1000000 -2500000 [] [ yes { k@4:30=no}]];end@4:41",
    ),
    (
        "features\n\
         \tA {constraint A => B, x 1, constraints [!A, B & C], constraints []}\n\
         \t\tor\n\
         \t\t\tB\n\
         \t\t\tC\n",
        "A@2:2 x@2:24=1000000 rule (A@16 =>@18 B@21) rule !@42A@43 rule (B@46 &@48 C@50) \
         or@3:3( B@4:4 C@5:4);end@6:1",
    ),
    (
        "features\n\
         \tA\n\
         \t\tmandatory\n\
         \t\t\tB\n\
         \t\t\t\talternative\n\
         \t\t\t\t\tC\n\
         \t\t\t\t\tD.E.\"or\"\n\
         \t\toptional\n\
         \t\t\tF\n\
         \t\tor\n\
         \t\t\tG {}\n\
         \t\t[2]\n\
         \t\t\tH\n\
         \t\t[1..3]\n\
         \t\t\tI\n\
         \t\t[0..*]\n\
         \t\t\tBoolean J\n",
        "A@2:2 mandatory@3:3( B@4:4 alternative@5:5( C@6:6 D.E.or@7:6)) optional@8:3( F@9:4) \
         or@10:3( G@11:4) 2..2@12:3( H@13:4) 1..3@14:3( I@15:4) 0..*@16:3( J@17:12);end@18:1",
    ),
    (
        "constraints\n\
         \tA <=> B => C | D & !E\n\
         \tA.p.\"q r\" == 1 + 2 * x - 3\n\
         \tsum(p) != -4\n\
         \ta < 1\n\
         \ta <= 1\n\
         \ta > 1\n\
         \ta >= (1)\n",
        "rule (A@2 <=>@4 (B@8 =>@10 (C@13 |@15 (D@17 &@19 !@21E@22))));\
         rule (A.p.q r@2 ==@12 ((1000000@15 +@17 (2000000@19 *@21 x@23)) -@25 3000000@27));\
         rule (sum p@2 !=@9 -4000000@12);\
         rule (a@2 <@4 1000000@6);\
         rule (a@2 <=@4 1000000@7);\
         rule (a@2 >@4 1000000@6);\
         rule (a@2 >=@4 1000000@8);end@9:1",
    ),
    (
        "features\n\tCar\n\t\tmandatory\n\t\t\tBody\n\t\toptional\n\t\t\tRadio\n",
        "Car@2:2 mandatory@3:3( Body@4:4) optional@5:3( Radio@6:4);end@7:1",
    ),
    // operators group to the left, by their precedence
    (
        "constraints\n\
         \tA => B => C\n\
         \t((A & B) | (!(C => D) & (((A.p + 2) * 1) > -3)))\n\
         \tsum(a) <= 10.5\n\
         \t!A == 1 + 2 * 3 & B | C => D <=> E\n\
         \tA - 1 - -2\n",
        "rule ((A@2 =>@4 B@7) =>@9 C@12);\
         rule ((A@4 &@6 B@8) |@11 (!@14(C@16 =>@18 D@21) &@24 (((A.p@29 +@33 2000000@35) *@38 1000000@40) >@43 -3000000@45)));\
         rule (sum a@2 <=@9 10500000@12);\
         rule ((((!@2(A@3 ==@5 (1000000@8 +@10 (2000000@12 *@14 3000000@16))) &@18 B@20) |@22 C@24) =>@26 D@29) <=>@31 E@35);\
         rule ((A@2 -@4 1000000@6) -@8 -2000000@10);end@7:1",
    ),
];

/// Texts that are refused, with their faults.
const REFUSED: [(&str, &str); 38] = [
    ("namespace\n", "Syntax@1:10"),
    ("\tA\n", "Syntax@1:2"),
    ("include\n\t+\n", "Syntax@2:2"),
    ("imports\n\tradio as\n", "Syntax@2:10"),
    ("features\n", "Syntax@2:1"),
    ("features\n\tor\n", "Syntax@2:2"),
    ("features\n\tA.\n", "Syntax@2:4"),
    ("features\n\tA\n\tB\n", "Syntax@3:2"),
    ("features\n\tA\nnamespace N\n", "Syntax@3:1"),
    ("features\n\tA\n\t\t\tB\n", "Syntax@3:4"),
    (
        "features\n\tA\n\t\toptional\n\t\tor\n\t\t\tB\n",
        "Syntax@4:3",
    ),
    ("features\n\tA\n\t\t[1.5]\n\t\t\tB\n", "Syntax@3:4"),
    ("features\n\tA\n\t\t[1..]\n\t\t\tB\n", "Syntax@3:7"),
    ("features\n\tA {x 1,}\n", "Syntax@2:9"),
    ("features\n\tA {x -}\n", "Syntax@2:8"),
    ("features\n\tA {constraints B}\n", "Syntax@2:17"),
    ("constraints\n\tA < A < A\n", "Syntax@2:8"),
    ("constraints\n\tA &\n", "Syntax@2:5"),
    ("constraints\n\tA =>\n", "Syntax@2:6"),
    ("constraints\n\tA & | B\n", "Syntax@2:6"),
    ("constraints\n\t-A\n", "Syntax@2:3"),
    ("constraints\n\tA.\n", "Syntax@2:4"),
    ("constraints\n\tsum(1)\n", "Syntax@2:6"),
    ("constraints\n\tA + !B\n", "Syntax@2:6"),
    ("constraints\n\t((A)), B\n", "Syntax@2:7"),
    ("features\n\tString A\n", "TypedFeature@2:2"),
    (
        "features\n\tA\n\t\tor\n\t\t\tInteger B\n",
        "TypedFeature@4:4",
    ),
    ("features\n\tA\n\t\tor\n\t\t\tReal B\n", "TypedFeature@4:4"),
    (
        "features\n\tA cardinality [1..3]\n",
        "FeatureCardinality@2:4",
    ),
    ("constraints\n\tavg(x) > 2\n", "Average@2:2"),
    ("constraints\n\tA / 2 > 1\n", "UnsupportedOperation@2:4"),
    ("constraints\n\tlen(A) > 1\n", "UnsupportedOperation@2:2"),
    ("constraints\n\tA > floor(B)\n", "UnsupportedOperation@2:6"),
    ("constraints\n\tA > ceil(B)\n", "UnsupportedOperation@2:6"),
    ("constraints\n\tA == 'x'\n", "UnsupportedOperation@2:7"),
    ("constraints\n\tsum(p, A) > 1\n", "UnsupportedOperation@2:7"),
    // the first fault, and of two at one token the one with a name of its own
    ("features\n\tA B\n\t\tor\n\t\t\tReal C\n", "Syntax@2:4"),
    ("features avg\n", "Average@1:10"),
];

/// Parts of texts that are too large or too deep, with their faults.
const LARGE: [(Parts, &str); 3] = [
    (
        &[FRONT, ("A|", 4096), ("A\n", 1)],
        "ExpressionTooLarge@4:8194",
    ),
    (&[FRONT, ("!", 129), ("A\n", 1)], "TooDeep@4:130"),
    // of two such faults at one token the one with the lower number
    (
        &[FRONT, ("A|", 4032), ("!", 129), ("A\n", 1)],
        "ExpressionTooLarge@4:8194",
    ),
];

fn expect(rt: &impl Abort, alloc: Global, text: &str, want: &str) -> Result<(), Fail> {
    let found = answer(alloc, text)?;
    assert_eq!(rt; found.as_str(), want, "{text:?}");
    Ok(())
}

fn expect_rows(rt: &impl Abort, alloc: Global, rows: &[(&str, &str)]) -> Result<(), Fail> {
    for (text, want) in rows {
        expect(rt, alloc, text, want)?;
    }
    Ok(())
}

fn expect_joined(rt: &impl Abort, alloc: Global, rows: &[(Parts, &str)]) -> Result<(), Fail> {
    for (parts, want) in rows {
        expect(rt, alloc, joined(alloc, parts)?.as_str(), want)?;
    }
    Ok(())
}

#[test]
fn each_construct_is_read_into_its_tree(rt: HostRuntime) -> Result<(), Fail> {
    expect_rows(&rt, rt.alloc(), &ACCEPTED)
}

#[test]
fn each_refusal_has_its_place_and_its_kind(rt: HostRuntime) -> Result<(), Fail> {
    expect_rows(&rt, rt.alloc(), &REFUSED)?;
    expect_joined(&rt, rt.alloc(), &LARGE)?;
    expect(
        &rt,
        rt.alloc(),
        chain(rt.alloc(), 65, "")?.as_str(),
        "TooDeep@130:130",
    )
}
