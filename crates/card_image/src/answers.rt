//! Responses that are given in turn.
ghost use Rattle.std.specs.Prelude.{◌≡◌, ◌==◌, ◌≤◌, ◌<◌, [], length};
ghost use Rattle.ep_base.specs.Cards.CardAnswer.{unused, next_answer, used_once};

use apdu::Response;
use std::marker::Model;

// A list of responses, given in turn and the last one again and again.
#[derive(Drop)]
pub(crate) struct Answers {
    list: Vec<Response>,
    used: usize,
}

impl Model for Answers {
    ghost use Rattle.ep_base.specs.Cards.CardAnswer.{Answers};

    ghost Value = { Answers };

    ghost view = { λ a. record { list = a.list.items; used = a.used } };
}

impl Answers {
    // A list of which nothing was given yet.
    pub(crate) fn of(list: Vec<Response>) -> Answers
        ensures { result ≡ unused list.items }
    {
        Answers { list, used: 0 }
    }

    // Whether there is nothing to give.
    pub(crate) fn is_empty(&self) -> bool
        ensures { result ≡ (length self.now.list == 0) }
    {
        self.list.is_empty()
    }

    // The next response.
    pub(crate) fn next(&mut self) -> Response
        requires some { 0 < length self.old.list }
        requires counted { self.old.used ≤ length self.old.list }
        ensures answer { result ≡ next_answer [] self.old }
        ensures after { self.new ≡ used_once self.old }
    {
        let count = self.list.len();
        let answer = self.list[self.used.min(count - 1)].copy();
        self.used = (self.used + 1).min(count);
        answer
    }
}
