// Words for people: what a request asks, and why a line is refused. Programs print them.
// No contract says which words a request or a question has, so that they can be improved without a proof. A refusal
// prints its reason, which is pinned, because no refusal may be printed without one.
mod questions;
mod refusals;
mod requests;
