// The worked examples, as one proved fact.
ghost use Rattle.grammar.specs.Examples.{Examples};

// Each example holds of the definitions that the other functions promise to follow.
pub fn examples_hold()
    ensures value { Examples }
{}
