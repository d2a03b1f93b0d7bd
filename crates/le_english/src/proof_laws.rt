ghost use Rattle.std.specs.Prelude.{◌≡◌, ℕ, List};
ghost use Rattle.le_templates.specs.declared.part.Template.{Template};
ghost use Rattle.le_terms.specs.declared.program.Program.{Program};
ghost use Rattle.le_terms.specs.Tree.{Tree};
ghost use Rattle.le_proofs.specs.declared.node.Node.{Node};
ghost use Rattle.le_proofs.specs.Proofs.{Proofs};
ghost use Rattle.le_proofs.specs.Derivations.{proofs_nodes};
ghost use Rattle.le_proofs.specs.Lloyd.{Admits};
ghost use Rattle.le_english.specs.Explanations.{explanation};
ghost use Rattle.le_english.specs.Proofs.{proofs_lines, AreByProgram, HasLines};
ghost use Rattle.le_english.specs.Nodes.{AnswersReadBack};

/// The explanation of the nodes of proofs of a query has the lines of each proof, one after another. It
/// does nothing.
pub fn explains_proofs()
    ensures { (users : List Template) (names : List (List ℕ)) (program : Program) (proofs : Proofs) → AreByProgram program program.query proofs → explanation users names program (proofs_nodes proofs) ≡ proofs_lines users names program 1 program.query proofs }
{}

/// The explanation of an admitted derivation has the lines of its proofs. It does nothing.
pub fn explains_admitted()
    ensures { (users : List Template) (names : List (List ℕ)) (program : Program) (nodes : List Node) (values : List Tree) → Admits program nodes values → HasLines users names program nodes }
{}

/// The answers of a search of at most 1,000,000 selections read back, where the program's clauses and its query
/// can be said: the phrase of each value reads as the value, the sentence of each node of the derivation reads
/// as the node's atom alone, and the phrase of a gather's result as the result. It does nothing.
pub fn answers_read_back()
    ensures { AnswersReadBack }
{}
