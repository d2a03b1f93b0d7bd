use crate::{count_of, node_of, parse, write};
use le_base::Copied;
use le_proofs::{Derivation, Node, Nodes};
use le_terms::{Atom, Sym, Term, Terms};
use std::alloc::{AllocError, Global};
use std::test::Fail;

/// Lines of nodes, each kind once and numbers at the edges of their ranges.
const LINES: [&str; 26] = [
    "use 1 2 p20 n0 i10",
    "use 4294967295 4294967295 p4294967295",
    "use 0 0 p0",
    "compute p3 i1000000000000000000 i-1000000000000000000",
    "compute p3 i0 d0",
    "compute p3 d-719162 d2932896",
    "compute p3 n4294967295 v4294967295",
    "compute p3 e",
    "compute p3 c n1 e",
    "compute p3 c c i-5 e c v1 v2 n7",
    "absent p21",
    "absent p21 v0",
    "gather sum i10 v1 p22 n0 v1",
    "gather number c n1 e c e v1 p22",
    "gather greatest d5 d6 p22 c e e",
    "split 0",
    "split 4294967295",
    "branch 1",
    "branch 4294967295",
    "computed",
    "lacking",
    "present",
    "gathered",
    "ungathered",
    "success",
    "dead",
];

/// Lines of no node.
const OTHER_LINES: [&str; 45] = [
    "",
    " ",
    "split",
    "split ",
    "split 01",
    "split 00",
    "split 1 ",
    " split 1",
    "split  1",
    "split\t1",
    "split 1\r",
    "split 1\n",
    "split +1",
    "split -1",
    "split -0",
    "split 4294967296",
    "split 99999999999999999999",
    "split 1 1",
    "Split 1",
    "splits 1",
    "branch p1",
    "computed 1",
    "success success",
    "use 1 p20",
    "use 1 2",
    "use 1 2 n0 p20",
    "use 4294967296 0 p1",
    "use 1 4294967296 p1",
    "compute",
    "compute p",
    "compute n1",
    "compute p1 p2",
    "compute p4294967296",
    "compute p01",
    "compute p1 n4294967296",
    "compute p1 v00",
    "compute p1 i-0",
    "compute p1 i1000000000000000001",
    "compute p1 i-1000000000000000001",
    "compute p1 d-719163",
    "compute p1 d2932897",
    "compute p1 c n1",
    "gather sum i1 p22",
    "gather sum i1 v1 v2 p22",
    "gather least i1 v1 p22",
];

/// Texts that begin with a derivation's text, with the number of bytes of that.
const TEXTS: [(&str, usize); 5] = [
    ("derivation 0\n", 13),
    ("derivation 0\nsuccess\n", 13),
    ("derivation 1\nsuccess\ndead\n", 21),
    ("derivation 2\nsplit 1\nbranch 1\nderivation 0\n", 30),
    ("derivation 1\ndead\n\n", 18),
];

/// Texts that begin with no derivation's.
const OTHER_TEXTS: [&str; 12] = [
    "",
    "derivation 0",
    "derivation \n",
    "derivation 00\n",
    "derivation -0\n",
    "derivation 0 \n",
    "derivation 0\r\n",
    "derivation 1\nsuccess",
    "derivation 1\nsuccess\r\n",
    "derivation 2\nsuccess\n",
    "derivation 18446744073709551615\nsuccess\n",
    "derivation 18446744073709551616\nsuccess\n",
];

/// Whether the text of one node with this line is read whole and written as it was.
fn is_line(alloc: Global, line: &str) -> Result<bool, AllocError> {
    let text = format!(in alloc; "derivation 1\n{line}\n")?;
    let Some((derivation, length)) = parse(alloc, text.as_bytes())? else {
        return Ok(false);
    };
    let again = write(alloc, &derivation)?;
    Ok(length == text.len() && again.as_str() == text.as_str())
}

/// How many of the lines are read and written as they were.
fn lines_back(alloc: Global, lines: &[&str]) -> Result<u32, AllocError> {
    let mut count = 0u32;
    for line in lines {
        if is_line(alloc, line)? {
            count = count.saturating_add(1);
        }
    }
    Ok(count)
}

/// How many of the lines are those of nodes.
fn nodes_read(alloc: Global, lines: &[&str]) -> Result<u32, AllocError> {
    let mut count = 0u32;
    for line in lines {
        if node_of(alloc, line.as_bytes())?.is_some() {
            count = count.saturating_add(1);
        }
    }
    Ok(count)
}

/// The number of bytes of the derivation's text that a text begins with, and 0 where it begins with none.
fn length_read(alloc: Global, text: &str) -> Result<usize, AllocError> {
    match parse(alloc, text.as_bytes())? {
        Some((_derivation, length)) => Ok(length),
        None => Ok(0),
    }
}

/// A derivation of so many uses of a clause.
fn many(alloc: Global, count: u32) -> Result<Derivation, AllocError> {
    let mut nodes = Vec::new(alloc);
    for clause in 0..count {
        let mut args = Vec::new(alloc);
        args.push(Term::leaf(alloc, Sym::Name(clause))?)?;
        nodes.push(Node::Use {
            clause,
            count: 0,
            atom: Atom {
                pred: 20,
                args: Terms::from_vec(args),
            },
        })?;
    }
    Ok(Derivation {
        nodes: Nodes::from_vec(nodes),
    })
}

/// Whether a derivation of so many nodes is written, read, and written the same from a copy.
fn many_back(alloc: Global, count: u32) -> Result<bool, AllocError> {
    let derivation = many(alloc, count)?;
    let text = write(alloc, &derivation)?;
    let Some((read, length)) = parse(alloc, text.as_str().as_bytes())? else {
        return Ok(false);
    };
    let copy = read.copy(alloc)?;
    let again = write(alloc, &copy)?;
    Ok(length == text.as_str().len() && again.as_str() == text.as_str())
}

/// How many of the texts begin with that of a derivation, of the length that stands beside them.
fn lengths_read(alloc: Global, texts: &[(&str, usize)]) -> Result<u32, AllocError> {
    let mut count = 0u32;
    for (text, length) in texts {
        if length_read(alloc, text)? == *length {
            count = count.saturating_add(1);
        }
    }
    Ok(count)
}

/// How many of the texts begin with that of a derivation.
fn texts_read(alloc: Global, texts: &[&str]) -> Result<u32, AllocError> {
    let mut count = 0u32;
    for text in texts {
        if length_read(alloc, text)? > 0 {
            count = count.saturating_add(1);
        }
    }
    Ok(count)
}

#[test]
fn lines(rt: HostRuntime) -> Result<(), Fail> {
    let alloc = rt.alloc();
    assert_eq!(rt; lines_back(alloc, &LINES)?, 26);
    assert_eq!(rt; nodes_read(alloc, &OTHER_LINES)?, 0);
    Ok(())
}

#[test]
fn texts(rt: HostRuntime) -> Result<(), Fail> {
    let alloc = rt.alloc();
    assert_eq!(rt; lengths_read(alloc, &TEXTS)?, 5);
    assert_eq!(rt; texts_read(alloc, &OTHER_TEXTS)?, 0);
    Ok(())
}

#[test]
fn counts(rt: HostRuntime) {
    assert_eq!(rt;
        count_of(b"derivation 18446744073709551615".as_slice()),
        Some(18_446_744_073_709_551_615)
    );
    assert_eq!(rt;
        count_of(b"derivation 18446744073709551616".as_slice()),
        None
    );
    assert_eq!(rt; count_of(b"derivations 1".as_slice()), None);
}

#[test]
fn many_nodes(rt: HostRuntime) -> Result<(), Fail> {
    assert!(rt; many_back(rt.alloc(), 1_000_000)?);
    Ok(())
}
