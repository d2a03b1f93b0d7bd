use crate::building::program;
use crate::noting::{answers, derivation};
use std::test::Fail;

// Searches whose answers come one after another: the clauses, the query, how many variables it asks for, the budget, and
// what four calls of `next` answer.
const ORDERED: [(&[&str], &str, u32, u32, &str); 4] = [
    // three facts, and no more than their one selection
    (
        &["pab", "pac", "pad"],
        "paA",
        1,
        1,
        "!b 01;!c 01;!d 01;D 01;",
    ),
    // a rule, whose first condition has an answer that its second one hasn't
    (
        &["pab", "pac", "qcd", "rABpACqCB"],
        "raA",
        1,
        9,
        "!d 04;D 04;D 04;D 04;",
    ),
    // variables that stay unbound, and one that stands for both
    (&["pAB", "pAA"], "pAB", 2, 9, "!AB 01;!AA 01;D 01;D 01;"),
    // a rule whose variables have the numbers of the query's
    (&["pbc", "qABpBA"], "qBA", 2, 9, "!bc 02;D 02;D 02;D 02;"),
];

// Searches that end.
const ENDED: [(&[&str], &str, u32, u32, &str); 7] = [
    // a rule that calls itself for ever
    (&["rABrAB"], "rab", 0, 3, "S 03;S 03;S 03;S 03;"),
    // and does so often
    (&["rABrAB"], "rab", 0, 100_000, "S 00;S 00;S 00;S 00;"),
    // the budget is spent after two answers
    (&["pab", "pABpAB"], "paA", 1, 2, "!b 01;!b 02;S 02;S 02;"),
    // a variable in its own list
    (&["pAL"], "pAA", 1, 9, "D 01;D 01;D 01;D 01;"),
    // a list with a variable
    (&["pLa"], "pAB", 2, 9, "!:A.a 01;D 01;D 01;D 01;"),
    // a query without literals, and one without clauses
    (&["pab"], "", 0, 1, "! 00;D 00;D 00;D 00;"),
    (&["pab"], "qab", 0, 1, "D 01;D 01;D 01;D 01;"),
];

// Searches of negations.
const NEGATED: [(&[&str], &str, u32, u32, &str); 12] = [
    // an atom with a proof, and one without
    (&["pab", "qAB-pAB"], "qab", 0, 9, "D 03;D 03;D 03;D 03;"),
    (&["pab", "qAB-pAB"], "qac", 0, 9, "! 03;D 03;D 03;D 03;"),
    // an atom with a variable, at once and after an answer
    (
        &["pab", "qAB-pAB"],
        "qaA",
        1,
        9,
        "F21 02;F21 02;F21 02;F21 02;",
    ),
    (
        &["rab", "rAB-pAB", "pab"],
        "raA",
        1,
        9,
        "!b 01;F21 02;F21 02;F21 02;",
    ),
    // a negation of a negation, where the inner one fails, and where it holds
    (
        &["pab", "qAB-pAB", "rAB-qAB"],
        "rab",
        0,
        9,
        "! 05;D 05;D 05;D 05;",
    ),
    (
        &["pab", "qAB-pAB", "rAB-qAB"],
        "rac",
        0,
        9,
        "D 05;D 05;D 05;D 05;",
    ),
    // the inner one flounders
    (
        &["qAB-pAC", "pab", "rAB-qAB"],
        "rab",
        0,
        9,
        "F11 04;F11 04;F11 04;F11 04;",
    ),
    // the first proof of the atom decides, whatever comes after it
    (
        &["pab", "pABpAB", "qAB-pAB"],
        "qab",
        0,
        9,
        "D 03;D 03;D 03;D 03;",
    ),
    // the negation fails for the first value and holds for the second
    (
        &["pab", "pac", "qab", "rABpAB-qAB"],
        "raA",
        1,
        9,
        "!c 06;D 06;D 06;D 06;",
    ),
    // the budget is spent in the search of the atom, and before it begins
    (&["pABpAB", "qAB-pAB"], "qab", 0, 5, "S 05;S 05;S 05;S 05;"),
    (&["pab", "qAB-pAB"], "qac", 0, 2, "S 02;S 02;S 02;S 02;"),
    // one selection more is enough
    (&["pab", "qAB-pAB"], "qac", 0, 3, "! 03;D 03;D 03;D 03;"),
];

// Searches of computed literals.
const COMPUTED: [(&[&str], &str, u32, u32, &str); 11] = [
    // a comparison that holds, and one that doesn't
    (&["p12", "qABpAB<AB"], "q1A", 1, 9, "!2 03;D 03;D 03;D 03;"),
    (&["p21", "qABpAB<AB"], "q2A", 1, 9, "D 03;D 03;D 03;D 03;"),
    // one of a constant, and one of a variable
    (&["pab"], "<a1", 0, 9, "D 01;D 01;D 01;D 01;"),
    (&["pab"], "paA<A1<B1", 0, 9, "D 02;D 02;D 02;D 02;"),
    (&["pa0"], "paA<A1<B1", 0, 9, "F03 03;F03 03;F03 03;F03 03;"),
    // an equation that binds two variables
    (&["pab"], "=ABpaB", 1, 9, "!b 02;D 02;D 02;D 02;"),
    // a sum, the greatest one, and one that is too great
    (&["pab"], "+A34", 1, 9, "!7 01;D 01;D 01;D 01;"),
    (&["pab"], "+734", 0, 9, "! 01;D 01;D 01;D 01;"),
    (&["pab"], "+AZ0", 1, 9, "!Z 01;D 01;D 01;D 01;"),
    (&["pab"], "+AZ1", 1, 9, "O01 01;O01 01;O01 01;O01 01;"),
    // one that is too great, in a negation
    (
        &["pAB+CAB", "qAB-pAB"],
        "qZ1",
        0,
        9,
        "O11 04;O11 04;O11 04;O11 04;",
    ),
];

// Searches of gathers.
const GATHERED: [(&[&str], &str, u32, u32, &str); 13] = [
    // the sum of three values, their number, and the greatest
    (
        &["pa1", "pa4", "pa2"],
        "SABpaB",
        1,
        9,
        "!7 02;D 02;D 02;D 02;",
    ),
    (
        &["pa1", "pa4", "pa2"],
        "NABpaB",
        1,
        9,
        "!3 02;D 02;D 02;D 02;",
    ),
    (
        &["pa1", "pa4", "pa2"],
        "GABpaB",
        1,
        9,
        "!4 02;D 02;D 02;D 02;",
    ),
    // the same of no values: there is no greatest
    (&["pa1"], "SABpbB", 1, 9, "!0 02;D 02;D 02;D 02;"),
    (&["pa1"], "NABpbB", 1, 9, "!0 02;D 02;D 02;D 02;"),
    (&["pa1"], "GABpbB", 1, 9, "D 02;D 02;D 02;D 02;"),
    // a result that is another number
    (&["pa1", "pa4"], "S7BpaB", 0, 9, "D 02;D 02;D 02;D 02;"),
    // a sum that is too great
    (
        &["paZ", "pa1"],
        "SABpaB",
        1,
        9,
        "O01 02;O01 02;O01 02;O01 02;",
    ),
    // a value that is a constant, and one that isn't bound
    (&["pab"], "SABpaB", 1, 9, "D 02;D 02;D 02;D 02;"),
    (&["paA"], "SABpaB", 1, 9, "F01 02;F01 02;F01 02;F01 02;"),
    // an atom with another variable than the value's
    (&["pa1"], "SABpCB", 1, 9, "F01 01;F01 01;F01 01;F01 01;"),
    // a gather of what a rule with a gather gives
    (
        &["pa1", "pa4", "qABNBCpAC"],
        "GABqaB",
        1,
        9,
        "!2 04;D 04;D 04;D 04;",
    ),
    // the budget is spent in the search for the values
    (&["pABpAB"], "SABpaB", 1, 3, "S 03;S 03;S 03;S 03;"),
];

// Programs worked out by hand: the clauses, the query, how many variables it asks for, the budget, what four calls of
// `next` answer, and the nodes of the derivation of the first answer.
const DERIVED: [(&[&str], &str, u32, &str, &str); 25] = [
    // a rule with two conditions
    (
        &["pab", "pac", "qcd", "rABpACqCB"],
        "raA",
        1,
        "!d 04;D 04;D 04;D 04;",
        "u042rad;u020pac;u030qcd;",
    ),
    // an answer with variables, and one that comes twice
    (
        &["pAB", "pAA"],
        "pAB",
        2,
        "!AB 01;!AA 01;D 01;D 01;",
        "u010pAB;",
    ),
    (
        &["pab", "pab"],
        "paA",
        1,
        "!b 01;!b 01;D 01;D 01;",
        "u010pab;",
    ),
    // a negation of an atom without clauses that unify
    (
        &["pab", "qAB-pAB"],
        "qac",
        0,
        "! 03;D 03;D 03;D 03;",
        "u021qac;npac;s00;",
    ),
    // a negation that fails for the first value and holds for the second
    (
        &["pab", "pac", "qab", "rABpAB-qAB"],
        "raA",
        1,
        "!c 06;D 06;D 06;D 06;",
        "u042rac;u020pac;nqac;s00;",
    ),
    // a negation of a negation, whose atom has a proof
    (
        &["pab", "qAB-pAB", "rAB-qAB"],
        "rab",
        0,
        "! 05;D 05;D 05;D 05;",
        "u031rab;nqab;s01;b02;P;u010pab;",
    ),
    // a negation of an atom whose clause has a negation that holds and an atom that fails
    (
        &["pab", "qAB-pBApBA", "rAB-qAB"],
        "rab",
        0,
        "! 06;D 06;D 06;D 06;",
        "u031rab;nqab;s01;b02;L;s00;s00;",
    ),
    // a negation in a negation's tree, as a `for all` has it: it holds, so there is no case against it
    (
        &["pab", "rAB-sAB", "sABpAC-tCA", "tAB-qAA"],
        "rac",
        0,
        "! 08;D 08;D 08;D 08;",
        "u021rac;nsac;s01;b03;s01;b01;P;u041tba;nqbb;s00;",
    ),
    // a computed literal in a proof, and one of each kind in a tree
    (
        &["p12", "qABpAB<AB"],
        "q1A",
        1,
        "!2 03;D 03;D 03;D 03;",
        "u022q12;u010p12;c<12;",
    ),
    (
        &["qAB<AB<BA", "rAB-qAB"],
        "r12",
        0,
        "! 05;D 05;D 05;D 05;",
        "u021r12;nq12;s01;b01;C;x;",
    ),
    // an equation that binds, and a sum
    (
        &["pab"],
        "=ABpaB",
        1,
        "!b 02;D 02;D 02;D 02;",
        "c=bb;u010pab;",
    ),
    (&["pab"], "+A34", 1, "!7 01;D 01;D 01;D 01;", "c+734;"),
    // the sum of three values, the greatest of them, and the number of none
    (
        &["pa1", "pa4", "pa2"],
        "SABpaB",
        1,
        "!7 02;D 02;D 02;D 02;",
        "g7ASpaA;s03;b01;.;b02;.;b03;.;",
    ),
    (
        &["pa1", "pa4", "pa2"],
        "GABpaB",
        1,
        "!4 02;D 02;D 02;D 02;",
        "g4AGpaA;s03;b01;.;b02;.;b03;.;",
    ),
    (
        &["pa1"],
        "NABpbB",
        1,
        "!0 02;D 02;D 02;D 02;",
        "g0ANpbA;s00;",
    ),
    // equal values, and a result that is there before
    (
        &["pa3", "pa3"],
        "S6BpaB",
        0,
        "! 02;D 02;D 02;D 02;",
        "g6ASpaA;s02;b01;.;b02;.;",
    ),
    // a gather in a tree whose result fits, and one whose result doesn't
    (
        &["pa1", "qABN1CpACS2CpAC", "rAB-qAB"],
        "rab",
        0,
        "! 07;D 07;D 07;D 07;",
        "u031rab;nqab;s01;b02;G;s01;b01;.;U;s01;b01;.;",
    ),
    // a negation in a sum, which holds in the first case and fails in the second
    (
        &["pa1", "pa4", "qa4", "sABpAB-qAB"],
        "SABsaB",
        1,
        "!1 07;D 07;D 07;D 07;",
        "g1ASsaA;s01;b04;s02;b01;L;s00;.;b02;P;u030qa4;",
    ),
    // a sum of sums
    (
        &["pb1", "pb4", "pc2", "qab", "qac", "rABqACSBDpCD"],
        "SABraB",
        1,
        "!7 07;D 07;D 07;D 07;",
        "g7ASraA;s01;b06;s02;b04;G;s02;b01;.;b02;.;.;b05;G;s01;b03;.;.;",
    ),
    // after an answer a negation whose search spends the budget, one whose search flounders, and one whose search has a sum
    // that is too great
    (
        &["rab", "rac-pac", "pABpAB"],
        "raA",
        1,
        "!b 01;S 99;S 99;S 99;",
        "u010rab;",
    ),
    (
        &["rab", "rac-pac", "pAB-qAC", "qab"],
        "raA",
        1,
        "!b 01;F31 04;F31 04;F31 04;",
        "u010rab;",
    ),
    (
        &["rab", "rac-pac", "pABSCDqAD", "qaZ", "qa1"],
        "raA",
        1,
        "!b 01;O31 05;O31 05;O31 05;",
        "u010rab;",
    ),
    // after an answer a sum of a value that isn't bound, and a greatest value of none
    (
        &["rab", "racSABqaB", "qaA"],
        "raA",
        1,
        "!b 01;F21 03;F21 03;F21 03;",
        "u010rab;",
    ),
    (
        &["rab", "racGABqaB"],
        "raA",
        1,
        "!b 01;D 03;D 03;D 03;",
        "u010rab;",
    ),
    // a negation, after whose search the clause's other variables are as they were
    (
        &["pab", "pac", "qbc", "rABpAB-sBApAC=CB", "sABqAD"],
        "raA",
        1,
        "!c 11;D 11;D 11;D 11;",
        "u044rac;u020pac;nsca;s01;b05;s00;u020pac;c=cc;",
    ),
];

#[test]
fn searches_answer_in_order(rt: HostRuntime) -> Result<(), Fail> {
    let alloc = rt.alloc();
    for (rows, query, count, budget, text) in ORDERED {
        let program = program(alloc, rows, query, count)?;
        assert_eq!(rt;
            answers(alloc, &program, budget)?.as_slice(),
            text.as_bytes()
        );
    }
    Ok(())
}

#[test]
fn searches_end(rt: HostRuntime) -> Result<(), Fail> {
    let alloc = rt.alloc();
    for (rows, query, count, budget, text) in ENDED {
        let program = program(alloc, rows, query, count)?;
        assert_eq!(rt;
            answers(alloc, &program, budget)?.as_slice(),
            text.as_bytes()
        );
    }
    Ok(())
}

#[test]
fn negations_hold_where_their_atoms_fail(rt: HostRuntime) -> Result<(), Fail> {
    let alloc = rt.alloc();
    for (rows, query, count, budget, text) in NEGATED {
        let program = program(alloc, rows, query, count)?;
        assert_eq!(rt;
            answers(alloc, &program, budget)?.as_slice(),
            text.as_bytes()
        );
    }
    Ok(())
}

#[test]
fn literals_are_computed(rt: HostRuntime) -> Result<(), Fail> {
    let alloc = rt.alloc();
    for (rows, query, count, budget, text) in COMPUTED {
        let program = program(alloc, rows, query, count)?;
        assert_eq!(rt;
            answers(alloc, &program, budget)?.as_slice(),
            text.as_bytes()
        );
    }
    Ok(())
}

#[test]
fn values_are_gathered(rt: HostRuntime) -> Result<(), Fail> {
    let alloc = rt.alloc();
    for (rows, query, count, budget, text) in GATHERED {
        let program = program(alloc, rows, query, count)?;
        assert_eq!(rt;
            answers(alloc, &program, budget)?.as_slice(),
            text.as_bytes()
        );
    }
    Ok(())
}

#[test]
fn answers_have_derivations(rt: HostRuntime) -> Result<(), Fail> {
    let alloc = rt.alloc();
    for (rows, query, count, text, nodes) in DERIVED {
        let program = program(alloc, rows, query, count)?;
        assert_eq!(rt; answers(alloc, &program, 99)?.as_slice(), text.as_bytes());
        assert_eq!(rt; derivation(alloc, &program)?.as_slice(), nodes.as_bytes());
    }
    Ok(())
}
