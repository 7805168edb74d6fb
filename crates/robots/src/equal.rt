//! Robots that mean the same cannot be told apart: by no question, and by no act.

ghost use Rattle.robots.specs.Equal.{EqualAnswers, EqualReplies};
ghost use Rattle.robots.specs.Performing.{act_answer, acted, reply_to};
ghost use Rattle.std.specs.Prelude.{◌≡◌};

use crate::act::{Act, Answer, Question, Reply, ask, perform};
use crate::robot::{Questions, Robot};

/// Asks two robots the same.
pub fn ask_both<Q: Questions, S: Questions>(
    one: &Q,
    other: &S,
    question: Question,
) -> (Reply, Reply)
    ensures told { result ≡ (reply_to (Q.Questions.meaning one.now) question, reply_to (S.Questions.meaning other.now) question) }
    ensures alike { EqualReplies (Q.Questions.meaning one.now) (S.Questions.meaning other.now) result }
{
    (ask(one, question), ask(other, question))
}

/// Has two robots do the same.
pub fn perform_both<R: Robot, S: Robot>(one: &mut R, other: &mut S, act: Act) -> (Answer, Answer)
    ensures told { result ≡ (act_answer (R.Questions.meaning one.old) act, act_answer (S.Questions.meaning other.old) act) }
    ensures one { R.Questions.meaning one.new ≡ acted (R.Questions.meaning one.old) act }
    ensures other { S.Questions.meaning other.new ≡ acted (S.Questions.meaning other.old) act }
    ensures alike { EqualAnswers (R.Questions.meaning one.old) (S.Questions.meaning other.old) result (R.Questions.meaning one.new) (S.Questions.meaning other.new) }
{
    (perform(one, act), perform(other, act))
}
