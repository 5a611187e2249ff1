// The worked examples, as one proved fact.
ghost use Rattle.request.specs.Examples.{Examples};

// A line on every ground of the table, and every command read: each as the definitions have it that the other
// functions promise to follow.
pub fn examples_hold()
    ensures value { Examples }
{}
