ghost use Rattle.le_prooftext.specs.Laws.{CountsReadBack, DerivationsReadBack, NodesReadBack, TextsArePrefixFree, TextsReadBack};

/// Reading a line gives a node exactly where the line is that node's.
pub fn nodes_read_back()
    ensures { NodesReadBack }
{}

/// Reading a line gives a number of nodes exactly where the line is that number's.
pub fn counts_read_back()
    ensures { CountsReadBack }
{}

/// Reading bytes gives a derivation exactly where they begin with its text, and its number of bytes is the text's.
pub fn derivations_read_back()
    ensures { DerivationsReadBack }
{}

/// Whatever follows it, the text of a derivation reads back as that derivation.
pub fn texts_read_back()
    ensures { TextsReadBack }
{}

/// No text of a derivation is a proper prefix of another, and none is that of two derivations.
pub fn texts_prefix_free()
    ensures { TextsArePrefixFree }
{}
