// The rules of concepts: texts in which an @ stands before the token that breaks one, and texts that break none.
use concept_rules::{Rule, UnfoldFault, check_concepts};
use std::alloc::Global;
use std::test::Fail;
use utopist_parser::parse;

/// The rule that a text breaks first, and the offset of its token.
fn broken(alloc: Global, text: &str) -> Option<(usize, Rule)> {
    if text.len() > 100_000 {
        return None;
    }
    let file = parse(alloc, text).ok()?;
    match check_concepts(alloc, &file) {
        Err(UnfoldFault::Model(fault)) => Some((fault.place.at as usize, fault.rule)),
        _ => None,
    }
}

/// A concept whose last name is one too many, behind 19 characters.
const BROKEN_BEFORE: &str = "concept aa:(var x, x:numeric;); ";

const BROKEN: &[(&str, Rule)] = &[
    (
        "concept a:(); concept @a:(); compute a:(find x);",
        Rule::DuplicateName,
    ),
    (
        "concept a is @b:(); compute a:(find x);",
        Rule::UnknownConcept,
    ),
    (
        "concept a is @a:(); compute a:(find x);",
        Rule::UnknownConcept,
    ),
    (
        "concept a:(var x:numeric;); concept b:(var x:numeric;); concept c is a, @b:(); compute c:(find x);",
        Rule::DuplicateName,
    ),
    (
        "concept a:(var x:numeric;); concept b:(rel x:->@y;var y:numeric;);compute a:(find x);",
        Rule::UnknownPath,
    ),
    (
        "concept a:(var x:numeric;); concept b is a:(var @x:numeric;); compute b:(find x);",
        Rule::DuplicateName,
    ),
    (
        "concept a:(var x, @x:numeric;); compute a:(find x);",
        Rule::DuplicateName,
    ),
    (
        "concept a:(var x, r:numeric; rel @r:x->r;); compute a:(find x);",
        Rule::DuplicateName,
    ),
    (
        "concept a:(var x:@t;); compute a:(find x);",
        Rule::UnknownConcept,
    ),
    (
        "concept a:(var x:@a;); compute a:(find x);",
        Rule::UnknownConcept,
    ),
    (
        "concept p:(var u:numeric;); concept q:(var v:numeric; var c:p(@w = v);); compute q:(find v);",
        Rule::UnknownPath,
    ),
    (
        "concept p:(var u:numeric;); concept q:(var v:numeric; var c:p(u = v, @u = v);); compute q:(find v);",
        Rule::BadBinding,
    ),
    (
        "concept p:(var u:numeric;); concept q:(var c:p;); concept r:(var v:p; var n:numeric; var d:q(c = v, @c.u = n);); compute r:(find n);",
        Rule::BadBinding,
    ),
    (
        "concept p:(var u:numeric;); concept q:(var c:p;); concept r:(var v:p; var n:numeric; var d:q(c.u = n, @c = v);); compute r:(find n);",
        Rule::BadBinding,
    ),
    (
        "concept p:(var u:numeric;); concept q:(var n:numeric; var c:p(u = n);); concept r:(var m:numeric; var d:q(@c.u = m);); compute r:(find m);",
        Rule::BadBinding,
    ),
    (
        "concept p:(var u:numeric;); concept q:(var n:numeric; var c:p(u = n);); concept r:(var e:p; var d:q(@c = e);); compute r:(find e.u);",
        Rule::BadBinding,
    ),
    (
        "concept p:(var u:numeric;); concept q:(var e:p; var c:p(@u = e);); compute q:(find e.u);",
        Rule::BadBinding,
    ),
    (
        "concept p:(var u:numeric;); concept q:(var c:p(u = @z);); compute q:(find c.u);",
        Rule::UnknownPath,
    ),
    (
        "concept p:(var u:numeric;); concept q:(var c, d:p(u = @c.u);); compute q:(find c.u);",
        Rule::UnknownPath,
    ),
    (
        "concept a:(var x:numeric; eq x = @z;); compute a:(find x);",
        Rule::UnknownPath,
    ),
    (
        "concept p:(var u:numeric;); concept a:(var c:p; eq @c = 1;); compute a:(find c.u);",
        Rule::NotNumeric,
    ),
    (
        "concept a:(var x:numeric; rel r:@x.y->x;); compute a:(find x);",
        Rule::UnknownPath,
    ),
    (
        "concept a:(var x:numeric; rel r:[@z->x]->x;); compute a:(find x);",
        Rule::UnknownPath,
    ),
    (
        "concept a:(var x:numeric; rel r:[x->x,@z]->x;); compute a:(find x);",
        Rule::UnknownPath,
    ),
    (
        "concept a:(var x:numeric; rel r:x->@r;); compute a:(find x);",
        Rule::UnknownPath,
    ),
    (
        "concept a:(var x, y:numeric; rel r:x->y{sum(@x, 1, 2, x)};); compute a:(find x);",
        Rule::ShadowedName,
    ),
    (
        "concept a:(var x, y:numeric; rel r:x->y{sum(@r, 1, 2, x)};); compute a:(find x);",
        Rule::ShadowedName,
    ),
    (
        "concept a:(var x:numeric;); concept b is a:(var y:numeric; rel r:y->y{sum(@x, 1, 2, y)};); compute b:(find x);",
        Rule::ShadowedName,
    ),
    (
        "concept a:(var x, y:numeric; rel r:x->y{sum(i, 1, sum(@i, 1, 2, 1), i)};); compute a:(find x);",
        Rule::ShadowedName,
    ),
    (
        "concept a:(var x, y:numeric; rel r:x->y{@y};); compute a:(find x);",
        Rule::UnknownPath,
    ),
    (
        "concept a:(var x, y:numeric; rel r:x->y{sum(i, 1, @i, i)};); compute a:(find x);",
        Rule::UnknownPath,
    ),
    (
        "concept p:(var u, v:numeric;); concept a:(var c:p; rel r:c.u->c.v{@c.v};); compute a:(find c.u);",
        Rule::UnknownPath,
    ),
    (
        "concept a:(var x, y:numeric; rel r:[x->y],x->y{@$0(x)};); compute a:(find x);",
        Rule::BadCall,
    ),
    (
        "concept a:(var x, y:numeric; rel r:[x->y],x->y{@$2(x)};); compute a:(find x);",
        Rule::BadCall,
    ),
    (
        "concept a:(var x, y:numeric; rel r:[x->y],x->y{@$1.2(x)};); compute a:(find x);",
        Rule::BadCall,
    ),
    (
        "concept a:(var x, y:numeric; rel r:[x->y],x->y{@$1.0(x)};); compute a:(find x);",
        Rule::BadCall,
    ),
    (
        "concept a:(var x, y:numeric; rel r:[x->y],x->y{@$1(x, z)};); compute a:(find x);",
        Rule::BadArity,
    ),
    (
        "concept a:(var x, y:numeric; rel r:[x->y],x->y{$1(@z)};); compute a:(find x);",
        Rule::UnknownPath,
    ),
    (
        "concept a:(var x:numeric;); compute @b:(find x);",
        Rule::UnknownConcept,
    ),
    (
        "concept a:(var x:numeric;); compute a:(given @z; find x);",
        Rule::UnknownPath,
    ),
    (
        "concept p:(var u:numeric;); concept a:(var c:p;); compute a:(find c.u, @c);",
        Rule::NotNumeric,
    ),
    (
        "concept a:(var x:@t; eq y = 1;); concept a:(); compute b:(find x);",
        Rule::UnknownConcept,
    ),
];

const KEPT: &[&str] = &[
    "concept a:(var x:numeric;); concept b is a:(); concept c is a:(); concept d is b, c, b:(var y:numeric; eq y = x;); compute d:(find y);",
    "concept p:(var u, v:numeric;); concept a:(var c:p; rel r:c.u->c.v{c.u};); compute a:(find c.v);",
    "concept p:(var u:numeric;); concept q:(var c:p;); concept r:(var n:numeric; var v:p(u = n); var d:q(c = v);); compute r:(find d.c.u);",
    "concept a:(var x, y:numeric; rel r:[x->y, x],x->y{sum(i, 1, x, $1.2(i)) + sum(i, 1, 2, i)};); compute a:(find x);",
];

#[test]
fn names_the_rule_that_is_broken_first(rt: HostRuntime) -> Result<(), Fail> {
    let alloc = rt.alloc();
    for (marked, rule) in BROKEN {
        let (before, behind) = marked.split_once('@').expect(&rt, "a mark");
        let text = format!(in alloc; "{before}{behind}")?;
        assert_eq!(rt;
            broken(alloc, &text),
            Some((before.len(), *rule)),
            "{marked}"
        );
        let text = format!(in alloc; "{BROKEN_BEFORE}{text}")?;
        assert_eq!(rt;
            broken(alloc, &text),
            Some((19, Rule::DuplicateName)),
            "{marked}"
        );
    }
    Ok(())
}

#[test]
fn breaks_no_rule(rt: HostRuntime) -> Result<(), Fail> {
    let alloc = rt.alloc();
    for text in KEPT {
        assert!(rt; parse(alloc, text).is_ok(), "{text}");
        assert_eq!(rt; broken(alloc, text), None, "{text}");
    }
    Ok(())
}
