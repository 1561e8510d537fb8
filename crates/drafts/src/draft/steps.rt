// The steps of a draft.
ghost use Rattle.std.specs.Prelude.{◌≡◌, ◌+◌, ◌*◌, ◌∷◌, [], ◌++◌, length, take, IfOk, Ok, MatchResult, OnOk};
ghost use Rattle.messages.specs.Reading.{message_result};
ghost use Rattle.messages.specs.Said.{said_in, written};
ghost use Rattle.drafts.specs.Begun.{Begun, Grown, arguments_result};
ghost use Rattle.drafts.specs.Drafts.{said_with, GoesOn, HasPosts, Finishes};
ghost use Rattle.drafts.specs.Posts.{add_result};
ghost use Rattle.drafts.specs.Steps.{outcome, begin_result, finish_result};

use crate::draft::filled::TakesPosts;
use crate::draft::{Draft, Empty, Filled, Finished};
use crate::posts::check_add;
use fields::{FieldFault, PERSONS};
use messages::{Call, MESSAGE, MessageFault, PERSON_AT, Post, write};

impl<'m> Draft<'m, Empty> {
    // Begins a draft for the person, or gives the memory back with what is wrong.
    pub fn begin(
        memory: &'m mut [u8],
        person: u8,
    ) -> Result<Draft<'m, Empty>, (&'m mut [u8], MessageFault)>
        ensures answer { outcome result ≡ begin_result (length memory.old) person }
        ensures leaves { MatchResult result (λ next. (next.person ≡ person) × (next.memory ≡ memory.entry)) (λ back. back.0 ≡ memory.entry) }
    {
        let size = memory.len();
        if size < MESSAGE {
            return Err((memory, FieldFault::Length(size).into()));
        }
        if person >= PERSONS {
            return Err((memory, FieldFault::Value(PERSON_AT).into()));
        }
        Ok(Draft {
            memory,
            person,
            state: Empty,
        })
    }
}

impl<'m, S: TakesPosts> Draft<'m, S> {
    // Adds one more post, or gives the draft back as it was with what is wrong.
    pub fn add(self, post: Post) -> Result<Draft<'m, Filled>, (Draft<'m, S>, MessageFault)>
        ensures answer { outcome result ≡ add_result (S.posts self.entry.state) post }
        ensures leaves { MatchResult result (λ next. GoesOn self.entry next × HasPosts next (S.posts self.entry.state ++ post ∷ [])) (λ back. back.0 ≡ self.entry) }
        ensures begun { IfOk result (λ next. Grown self.entry (S.posts self.entry.state) → Begun next) }
    {
        if let Err(fault) = check_add(self.state.so_far(), post) {
            return Err((self, fault));
        }
        let Draft {
            memory,
            person,
            state,
        } = self;
        Ok(Draft {
            memory,
            person,
            state: state.with(post),
        })
    }
}

impl<'m> Draft<'m, Filled> {
    // Writes the message with the call at the start of the memory, or gives the draft back as it was with what is wrong.
    pub fn finish(
        self,
        call: Call,
    ) -> Result<Draft<'m, Finished>, (Draft<'m, Filled>, MessageFault)>
        ensures answer { outcome result ≡ finish_result (length self.entry.memory.now) (length self.entry.state) (said_with self.entry call) }
        ensures leaves { MatchResult result (Finishes self.entry call) (λ back. back.0 ≡ self.entry) }
        ensures arguments { Begun self.entry → outcome result ≡ arguments_result call (6 + 2 * length self.entry.state) }
        ensures read_back { OnOk result ((message_result (written (said_with self.entry call)) ≡ Ok tt) × (said_in (written (said_with self.entry call)) ≡ said_with self.entry call)) }
    {
        let Draft {
            memory,
            person,
            state,
        } = self;
        match write(&state.message(person, call), memory) {
            Ok(length) => Ok(Draft {
                memory,
                person,
                state: Finished { length },
            }),
            Err(fault) => Err((
                Draft {
                    memory,
                    person,
                    state,
                },
                fault,
            )),
        }
    }
}

impl<'m> Draft<'m, Finished> {
    // The message's bytes. That the memory is long enough is seen here and is no invariant: the checker covers none over a `&mut` inside a
    // `Result`.
    pub fn bytes(&self) -> &[u8]
        ensures { result.now ≡ take self.now.state.length self.now.memory.now }
    {
        let length = self.state.length.min(self.memory.len());
        &self.memory[..length]
    }
}

impl<'m, S: Drop> Draft<'m, S> {
    // Gives up the draft, and gives the memory back as it stands.
    pub fn release(self) -> &'m mut [u8]
        ensures { result ≡ self.entry.memory }
    {
        let Draft {
            memory: lent,
            person: _,
            state: _,
        } = self;
        lent
    }
}
