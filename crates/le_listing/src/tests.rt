use crate::clause_text;
use le_base::{Stop, Text};
use le_clauses::program;
use le_docs::sections;
use le_layout::scan;
use std::alloc::Global;
use std::test::Fail;

// The clauses of a document.
fn listed(alloc: Global, text: &str) -> Result<Text, Stop> {
    if text.len() > 4000 {
        return Err(Stop::Memory);
    }
    let layout = scan(alloc, text.as_bytes())?;
    let doc = sections(alloc, &layout)?;
    let whole = program(alloc, &layout, &doc)?;
    Ok(clause_text(alloc, &whole)?)
}

// Whether a document is accepted, and its clauses are listed so.
fn lists(alloc: Global, text: &str, expected: &str) -> bool {
    match listed(alloc, text) {
        Ok(found) => found.as_str() == expected,
        Err(_) => false,
    }
}

const MOODS: &str = "the templates are:
    *a person* is rich,
    *a person* is calm,
    *a person* is loved,
    *a person* is well,
    *a person* is happy.
the knowledge base moods includes:
a person is happy
if the person is rich
and the person is calm
    or the person is loved
and the person is well.
";

const MOODS_LISTED: &str = "knowledge base moods
8: *V1* is happy if *V1* is rich and group 1 *V1* and *V1* is well
10: group 1 *V1* if *V1* is calm
11: group 1 *V1* if *V1* is loved
end of clauses
";

const DEBTS: &str = "the templates are:
    *a person* pays *an amount* for *a thing*,
    *a person* owes *an amount*.
the knowledge base one includes:
    a person owes a total
    if the total is the sum of each amount such that
        the person pays the amount for a thing.
scenario one is:
    Bob pays 5 for the car.
    Bob pays -5 for the boat.
query one is:
    Bob owes which total.
query two is:
    Ann owes which total.
";

const DEBTS_LISTED: &str = "knowledge base one
5: *V1* owes *V2* if *V2* is the sum of each *V3* such that group 1 *V1* *V3*
7: group 1 *V1* *V2* if *V1* pays *V2* for *V3*
scenario one
9: *\"Bob\"* pays *5* for *\"the car\"*
10: *\"Bob\"* pays *-5* for *\"the boat\"*
query one
12: answer *V1* if *\"Bob\"* owes *V1*
query two
14: answer *V1* if *\"Ann\"* owes *V1*
end of clauses
";

const LIKES: &str = "the templates are:
    *a person* is happy,
    *a person* likes *a thing*.
the knowledge base includes:
    a person is happy if it is not the case that the person likes a thing.
    Ann likes [7, [], \"is  happy\" | 2024-02-29].
    a person is happy
    if for all cases in which
            the person likes a thing
        it is the case that
            the thing is different from the person.
scenario of nothing is:
query one is:
    a person likes which thing
    and which other person is happy.
query two is:
    Bob likes which thing
    or Ann likes the thing.
query three is:
    Bob is happy.
";

const LIKES_LISTED: &str = "knowledge base
5: *V1* is happy if not group 1 *V1*
5: group 1 *V1* if *V1* likes *V2*
6: *\"Ann\"* likes *[7, [], \"is  happy\" | 2024-02-29]*
7: *V1* is happy if not group 2 *V1*
9: group 2 *V1* if *V1* likes *V2* and not group 3 *V2* *V1*
11: group 3 *V1* *V2* if *V1* is different from *V2*
scenario of nothing
query one
14: answer *V1* *V2* if *V3* likes *V1* and *V2* is happy
query two
17: answer *V1* if group 4 *V1*
17: group 4 *V1* if *\"Bob\"* likes *V1*
18: group 4 *V1* if *\"Ann\"* likes *V1*
query three
20: answer if *\"Bob\"* is happy
end of clauses
";

const CITIZENSHIP: &str = "the target language is: prolog.

the templates are:
    *a person* is born in *a place* on *a date*,
    *a date* is after commencement,
    *a person* is the mother of *a person*,
    *a person* is a British citizen on *a date*,
    *a person* is settled in the UK on *a date*,
    *a person* acquires British citizenship on *a date*.

the knowledge base citizenship includes:
    a person acquires British citizenship on a date
    if the person is born in the UK on the date
    and the date is after commencement
    and an other person is the mother of the person
    and the other person is a British citizen on the date
        or the other person is settled in the UK on the date.

scenario alice is:
    John is born in the UK on 2021-10-09.
    2021-10-09 is after commencement.
    Alice is the mother of John.
    Alice is a British citizen on 2021-10-09.

query one is:
    which person acquires British citizenship on which date.
";

const CITIZENSHIP_LISTED: &str = "knowledge base citizenship
12: *V1* acquires British citizenship on *V2* if *V1* is born in *\"the UK\"* on *V2* and *V2* is after commencement and *V3* is the mother of *V1* and group 1 *V3* *V2*
16: group 1 *V1* *V2* if *V1* is a British citizen on *V2*
17: group 1 *V1* *V2* if *V1* is settled in the UK on *V2*
scenario alice
20: *\"John\"* is born in *\"the UK\"* on *2021-10-09*
21: *2021-10-09* is after commencement
22: *\"Alice\"* is the mother of *\"John\"*
23: *\"Alice\"* is a British citizen on *2021-10-09*
query one
26: answer *V1* *V2* if *V1* acquires British citizenship on *V2*
end of clauses
";

const CASES: [(&str, &str); 5] = [
    ("", "end of clauses\n"),
    (MOODS, MOODS_LISTED),
    (DEBTS, DEBTS_LISTED),
    (LIKES, LIKES_LISTED),
    (CITIZENSHIP, CITIZENSHIP_LISTED),
];

#[test]
fn clauses_of_documents(rt: HostRuntime) -> Result<(), Fail> {
    for (text, expected) in CASES {
        assert!(rt; lists(rt.alloc(), text, expected));
    }
    Ok(())
}
