//! What the reading of words gives.

ghost use Rattle.script_nodes.specs.Literals.{ReadsLiterals, LiteralsAreTold, LiteralsAreTested};
ghost use Rattle.script_nodes.specs.Literals.{SpelledOnce};
ghost use Rattle.script_nodes.specs.ReadingLaw.{ReadsTrees};
ghost use Rattle.script_nodes.specs.Defining.{ReadsDefinition, ReadsDefinitions};
ghost use Rattle.script_nodes.specs.Growth.{NamesGrow, EndsGrow, WordsGrow, DefiningGrows};

/// Reading the words of an expression from the left gives the nodes and the number of its tree.
pub fn reads_trees()
    ensures { ReadsTrees }
{}

/// The literal of a text is what the text is read as.
pub fn reads_literals()
    ensures { ReadsLiterals }
{}

/// Nothing is done. The clauses tell a caller that each text is read as its literal, is a literal
/// past its limits, or is none; and that it is spelled in one way.
pub fn literals_are_told()
    ensures told { LiteralsAreTold }
    ensures once { SpelledOnce }
    ensures tested { LiteralsAreTested }
{}

/// Reading the words of a definition, and those of a script up to its formula, gives what the
/// definitions mean.
pub fn reads_definitions()
    ensures one { ReadsDefinition }
    ensures all { ReadsDefinitions }
{}

/// Nodes never go while words are read.
pub fn nodes_only_grow()
    ensures names { NamesGrow }
    ensures ends { EndsGrow }
    ensures words { WordsGrow }
    ensures definitions { DefiningGrows }
{}
