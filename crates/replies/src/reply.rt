// The replies that there are, and their bytes.
ghost use Rattle.std.specs.Prelude.{◌≡◌, ◌≤◌, length};
ghost use Rattle.grammar.specs.Writing.{Appended};
ghost use Rattle.replies.specs.Replies.{text_of, ack_text, nak_text, answer_text, told_of};

use crate::answers::Answer;
use crate::parts::{extend, tail, told};
use grammar::{Bytes, append};
use request::{LineRefusal, Question};

// The most bytes of a reply: there is room for its parts, whatever they are.
const MOST: usize = 64;

#[derive(Clone, Copy)]
pub struct Reply(Bytes<MOST>);

impl Reply {
    // A write that is accepted.
    pub fn ack() -> Reply
        ensures value { text_of result ≡ ack_text }
    {
        let mut bytes = Bytes::absent();
        extend(&mut bytes, b"#AK\r\n");
        Reply(bytes)
    }

    // A line that is refused.
    pub fn nak(refusal: LineRefusal) -> Reply
        ensures value { text_of result ≡ nak_text refusal }
    {
        let mut bytes = Bytes::absent();
        extend(&mut bytes, b"#NAK:");
        extend(&mut bytes, &refusal.digits());
        extend(&mut bytes, b"\r\n");
        Reply(bytes)
    }

    // A question that is answered: the command that asks and what it asks for, then the value.
    pub fn answer(question: &Question, answer: &Answer) -> Reply
        ensures value { text_of result ≡ answer_text question.now (told_of answer.now) }
    {
        let mut bytes = Bytes::absent();
        extend(&mut bytes, b"#");
        extend(&mut bytes, question.command().name());
        extend(&mut bytes, tail(question).as_bytes());
        extend(&mut bytes, b":");
        extend(&mut bytes, told(answer).as_bytes());
        extend(&mut bytes, b"\r\n");
        Reply(bytes)
    }

    pub fn as_bytes(&self) -> &[u8]
        ensures value { result.now ≡ text_of self.now }
        ensures bound { length result.now ≤ 64 }
    {
        self.0.as_bytes()
    }

    // Writes the reply from place `at` of an output on, and answers the place after it.
    // Where it does not fit it answers none, and writes nothing.
    pub fn write(&self, out: &mut [u8], at: usize) -> Option<usize>
        ensures cases { Appended out.old at (text_of self.now) out.new result }
    {
        append(out, at, self.as_bytes())
    }
}
