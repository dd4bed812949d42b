//! What a command is answered with.

ghost use Rattle.std.specs.Prelude.{◌≡◌, codes};
ghost use Rattle.shaping_session.specs.Replies.{reply_text, answer_text, truth_text};

use shaping_runs::Answer;

/// The text of an answer.
#[derive(Drop)]
pub enum Reply {
    /// One of the program's own words.
    Word(&'static str),
    /// A text that was made for this answer.
    Text(String),
}

impl Reply {
    /// To a command whose condition does not hold.
    pub fn outside() -> Reply
        ensures { reply_text result ≡ codes "outside" }
    {
        Reply::Word("outside")
    }

    /// To a command that only says how the text is to be treated, or begins a new one.
    pub fn ok() -> Reply
        ensures { reply_text result ≡ codes "ok" }
    {
        Reply::Word("ok")
    }

    /// To a question that has no answer.
    pub fn none() -> Reply
        ensures { reply_text result ≡ codes "none" }
    {
        Reply::Word("none")
    }

    /// To a command that adds to the text: whether it did.
    pub fn of_bool(done: bool) -> Reply
        ensures { reply_text result ≡ truth_text done }
    {
        Reply::Word(if done { "true" } else { "false" })
    }

    /// To a call.
    pub fn of_answer(answer: Answer) -> Reply
        ensures { reply_text result ≡ answer_text answer }
    {
        Reply::Word(match answer {
            Answer::Done => "done",
            Answer::Refused => "refused",
            Answer::Outside => "outside",
        })
    }

    pub fn as_str(&self) -> &str
        ensures { result.now ≡ reply_text self.now }
    {
        match self {
            Reply::Word(word) => word,
            Reply::Text(text) => text.as_str(),
        }
    }
}
