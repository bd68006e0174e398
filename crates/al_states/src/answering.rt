//! The answer to a request.
ghost use Rattle.std.specs.Prelude.{◌≡◌, ◌⊎◌, ◌<◌, ◌^◌, length, IfOk, Ok, Err};
ghost use Rattle.al_answers.specs.Answers.{IsSound};
ghost use Rattle.al_states.specs.Keeping.{IsStates, held};
ghost use Rattle.al_states.specs.Replies.{IsAnswered};
ghost use Rattle.al_states.specs.Showing.{IsLooked};
ghost use Rattle.al_routes.specs.declared.request.Request.TheVariants as asks;

use crate::replies::{
    accept_answer, account_answer, app_answer, asset_answer, box_answer, circulation_answer,
    creator_answer, form_answer, stake_answer, status_answer, supply_answer,
};
use crate::{States, Told};
use al_answers::Answer;
use al_base::Key;
use al_routes::{FormFault, Request};
use std::alloc::AllocError;

impl States {
    /// Answers a request, or the fault of one that asks nothing; its body has these bytes. A posted
    /// block that is accepted is held from then on.
    pub fn answer(&mut self, asked: &Result<Request, FormFault>, body: &[u8]) -> Told
        requires states { IsStates self.old }
        requires short { length body.now < 2 ^ 31 }
        ensures states { IsStates self.new }
        ensures sound { IsSound result.answer }
        ensures answered { IsAnswered (held self.old) (held self.new) asked.now body.now result }
    {
        match asked {
            Ok(Request::Post) => self.post(body),
            Ok(ask) => self.looked(ask),
            Err(fault) => self.faulted(*fault),
        }
    }

    // The answer to posted bytes.
    fn post(&mut self, body: &[u8]) -> Told
        requires states { IsStates self.old }
        requires short { length body.now < 2 ^ 31 }
        ensures states { IsStates self.new }
        ensures sound { IsSound result.answer }
        ensures answered { IsAnswered (held self.old) (held self.new) (Ok asks.Post) body.now result }
    {
        let answer = accept_answer(self.accept(body));
        self.told(answer)
    }

    // The answer to a look-up, or that there is no memory for it.
    fn looked(&self, ask: &Request) -> Told
        requires states { IsStates self.now }
        requires look { ask.now ≡ asks.Post → ⊥ }
        ensures sound { IsSound result.answer }
        ensures answered { (body : _) → IsAnswered (held self.now) (held self.now) (Ok ask.now) body result }
    {
        match self.look(ask) {
            Ok(answer) => self.told(answer),
            Err(_) => self.told(Answer::memory()),
        }
    }

    // The answer to a fault of form.
    fn faulted(&self, fault: FormFault) -> Told
        requires { IsStates self.now }
        ensures sound { IsSound result.answer }
        ensures answered { (body : _) → IsAnswered (held self.now) (held self.now) (Err fault) body result }
    {
        let answer = form_answer(fault);
        self.told(answer)
    }

    // An answer at the front.
    fn told(&self, answer: Answer) -> Told
        requires { IsStates self.now }
        ensures { result ≡ record { front = length (held self.now).blocks; answer = answer } }
    {
        Told {
            front: self.front(),
            answer,
        }
    }

    // The answer to a look-up.
    fn look(&self, ask: &Request) -> Result<Answer, AllocError>
        requires states { IsStates self.now }
        requires look { ask.now ≡ asks.Post → ⊥ }
        ensures { IfOk result (IsLooked (held self.now) ask.now) }
    {
        let alloc = self.alloc;
        match ask {
            Request::Post => unreachable!(),
            Request::Account { address, round } => {
                account_answer(self.row(&Key::Account(*address), *round))
            }
            Request::Asset { address, id, round } => {
                asset_answer(alloc, self.row(&Key::Resource(*address, *id), *round))
            }
            Request::App { address, id, round } => {
                app_answer(alloc, self.row(&Key::Resource(*address, *id), *round))
            }
            Request::BoxOf { app, name, round } => {
                box_answer(alloc, self.row(&Key::Box(*app, *name), *round))
            }
            Request::Creator { id, round } => creator_answer(self.creator(*id, *round)),
            Request::Online { address, round } => stake_answer(self.online(address, *round)),
            Request::Circulation { round, vote } => {
                circulation_answer(self.circulation(*round, *vote))
            }
            Request::Supply { round } => supply_answer(self.supply(*round)),
            Request::Standing => Ok(status_answer(self.status())),
        }
    }
}
