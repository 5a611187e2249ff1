// The parts of a reply.
ghost use Rattle.std.specs.Prelude.{◌≡◌, ◌+◌, ◌≤◌, ◌∷◌, ◌++◌, length};
ghost use Rattle.grammar.specs.Texts.{bytes_of};
ghost use Rattle.replies.specs.Replies.{tail_of, told_of, access_text, told_text};

use crate::answers::Answer;
use grammar::{Bytes, Text, print_count, print_mask, print_number};
use request::{Access, Question};

// The most bytes of a value: a text, and the version after it.
const TOLD_MOST: usize = 28;

// Adds bytes at the end. The same clauses as the own private `extend` of Bytes in grammar, because no public call asks
// anything of its caller.
pub(crate) fn extend<const N: usize>(bytes: &mut Bytes<N>, more: &[u8])
    requires { length (bytes_of bytes.old) + length more.now ≤ N }
    ensures bytes { bytes_of bytes.new ≡ bytes_of bytes.old ++ more.now }
{
    bytes.append(more).unwrap();
}

// What a question asks for, after its command. An index goes without leading zeros.
pub(crate) fn tail(question: &Question) -> Text
    ensures value { bytes_of result ≡ tail_of question.now }
{
    match *question {
        Question::Cell(cell) => after_colon(print_count(cell.index).as_bytes()),
        Question::Sensor(sensor) => after_colon(print_count(u32::from(sensor)).as_bytes()),
        Question::SensorCount => after_colon(b"NUM"),
        _ => Text::absent(),
    }
}

fn after_colon(bytes: &[u8]) -> Text
    requires { 1 + length bytes.now ≤ 24 }
    ensures value { bytes_of result ≡ 58 ∷ bytes.now }
{
    let mut text = Text::absent();
    extend(&mut text, b":");
    extend(&mut text, bytes);
    text
}

// The value that answers. Put together part by part, and not by `write!`, since a text is any bytes and its Display
// shows a note in place of what is no UTF-8. A match, which has to be complete, and no table of functions: each answer
// has another part.
pub(crate) fn told(answer: &Answer) -> Bytes<TOLD_MOST>
    ensures value { bytes_of result ≡ told_text (told_of answer.now) }
{
    let mut told = Bytes::absent();
    match answer {
        Answer::Number(q) => extend(&mut told, print_number(*q).as_bytes()),
        Answer::Mask(m) => extend(&mut told, print_mask(*m).as_bytes()),
        Answer::Text(text) => extend(&mut told, text.as_bytes()),
        Answer::Count(n) => extend(&mut told, print_count(u32::from(*n)).as_bytes()),
        Answer::Version(model) => {
            extend(&mut told, model.as_bytes());
            extend(&mut told, b":1.0");
        }
        Answer::Loop(present) => extend(&mut told, present.name().as_bytes()),
        Answer::Access(access) => extend(&mut told, access_name(*access)),
    }
    told
}

// A name in bytes. A Display would be no plainer: bytes, as replies are made of, with one caller.
fn access_name(access: Access) -> &'static [u8]
    ensures value { result.now ≡ access_text access }
    ensures bound { length result.now ≤ 5 }
{
    match access {
        Access::User => b"USER",
        Access::Admin => b"ADMIN",
    }
}
