// Laws of the words: what examples ask for.

ghost use Rattle.mz_words.specs.Examples.{Examples};

/// Each example of words asks for what is written beside it.
pub fn worked_examples()
    ensures { Examples }
{}
