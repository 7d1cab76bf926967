// The grammar of a request's items, and that the reader of crate ipp accepts it and nothing else.
#![tactic(auto)]

ghost use Rattle.grammar.specs.Grammar.{Reads, Only};

// The items that the reader accepts are those of the grammar, and it reads them back as they were written.
pub fn grammar_stands()
    ensures reads { Reads }
    ensures only { Only }
{}
