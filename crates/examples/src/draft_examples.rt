// Drafts from beginning to end, and what is refused on the way.
use drafts::{Draft, Filled};
use messages::{Call, MESSAGE, Post};
use refusals::Refusal;
use std::test::Fail;

// A draft of person 0 with a post to role 0 at branch 0.
fn posted(memory: &mut [u8]) -> Result<Draft<'_, Filled>, Fail> {
    let Ok(draft) = Draft::begin(memory, 0) else {
        return Err(Fail::new("the draft was not begun"));
    };
    match draft.add(Post { role: 0, branch: 0 }) {
        Ok(draft) => Ok(draft),
        Err(back) => {
            let (draft, _) = back;
            draft.release();
            Err(Fail::new("the first post was refused"))
        }
    }
}

// The draft with one more post, to the role at branch 0.
fn more(draft: Draft<'_, Filled>, role: u8) -> Result<Draft<'_, Filled>, Fail> {
    match draft.add(Post { role, branch: 0 }) {
        Ok(draft) => Ok(draft),
        Err(back) => {
            let (draft, _) = back;
            draft.release();
            Err(Fail::new("a post was refused"))
        }
    }
}

// What keeps the post from a draft that has one.
fn post_refused(memory: &mut [u8], post: Post) -> Result<Option<Refusal>, Fail> {
    match posted(memory)?.add(post) {
        Ok(draft) => {
            draft.release();
            Ok(None)
        }
        Err(back) => {
            let (draft, fault) = back;
            draft.release();
            Ok(Some(Refusal::from(fault)))
        }
    }
}

// What keeps the call from a draft that has one post.
fn call_refused(memory: &mut [u8], call: Call) -> Result<Option<Refusal>, Fail> {
    match posted(memory)?.finish(call) {
        Ok(draft) => {
            draft.release();
            Ok(None)
        }
        Err(back) => {
            let (draft, fault) = back;
            draft.release();
            Ok(Some(Refusal::from(fault)))
        }
    }
}

// What keeps a draft from being begun.
fn begin_refused(memory: &mut [u8], person: u8) -> Option<Refusal> {
    match Draft::begin(memory, person) {
        Ok(draft) => {
            draft.release();
            None
        }
        Err(back) => Some(Refusal::from(back.1)),
    }
}

#[test]
fn the_memory_begins_with_the_message(rt: HostRuntime) -> Result<(), Fail> {
    let mut memory = [9; MESSAGE];
    match posted(&mut memory)?.finish(Call::Enrol {
        person: 5,
        branch: 1,
    }) {
        Ok(draft) => {
            let length = draft.bytes().len();
            let memory = draft.release();
            assert_eq!(rt; length, 10);
            assert_eq!(rt;
                &*memory,
                [1, 0, 7, 5, 0, 1, 0, 0, 5, 1, 9, 9, 9, 9, 9, 9, 9].as_slice()
            );
            Ok(())
        }
        Err(back) => {
            let (draft, _) = back;
            draft.release();
            Err(Fail::new("the finish was refused"))
        }
    }
}

#[test]
fn beginnings_refused(rt: HostRuntime) {
    let mut small = [0; 16];
    let mut memory = [0; MESSAGE];
    assert_eq!(rt;
        begin_refused(&mut small, 64),
        Some(Refusal {
            number: 2,
            layer: 1,
            place: 16,
        })
    );
    assert_eq!(rt;
        begin_refused(&mut memory, 64),
        Some(Refusal {
            number: 4,
            layer: 1,
            place: 4,
        })
    );
    assert_eq!(rt; begin_refused(&mut memory, 63), None);
}

#[test]
fn a_fifth_post_is_refused_before_anything_else(rt: HostRuntime) -> Result<(), Fail> {
    let mut memory = [0; MESSAGE];
    let draft = more(more(more(posted(&mut memory)?, 1)?, 2)?, 3)?;
    match draft.add(Post {
        role: 99,
        branch: 99,
    }) {
        Ok(draft) => {
            draft.release();
            Err(Fail::new("a fifth post was added"))
        }
        Err(back) => {
            let (draft, fault) = back;
            draft.release();
            assert_eq!(rt;
                Refusal::from(fault),
                Refusal {
                    number: 4,
                    layer: 1,
                    place: 5,
                }
            );
            Ok(())
        }
    }
}

#[test]
fn posts_refused(rt: HostRuntime) -> Result<(), Fail> {
    let mut memory = [0; MESSAGE];
    assert_eq!(rt;
        post_refused(
            &mut memory,
            Post {
                role: 16,
                branch: 64,
            },
        )?,
        Some(Refusal {
            number: 4,
            layer: 1,
            place: 8,
        })
    );
    assert_eq!(rt;
        post_refused(
            &mut memory,
            Post {
                role: 15,
                branch: 64,
            },
        )?,
        Some(Refusal {
            number: 4,
            layer: 1,
            place: 9,
        })
    );
    assert_eq!(rt;
        post_refused(&mut memory, Post { role: 0, branch: 0 })?,
        Some(Refusal {
            number: 7,
            layer: 1,
            place: 1,
        })
    );
    Ok(())
}

#[test]
fn arguments_refused_and_the_memory_as_found(rt: HostRuntime) -> Result<(), Fail> {
    let mut memory = [9; MESSAGE];
    assert_eq!(rt;
        call_refused(
            &mut memory,
            Call::Decide {
                operation: 7,
                piece: 1024,
            },
        )?,
        Some(Refusal {
            number: 4,
            layer: 1,
            place: 9,
        })
    );
    assert_eq!(rt;
        call_refused(
            &mut memory,
            Call::Grant {
                person: 64,
                role: 16,
                branch: 64,
            },
        )?,
        Some(Refusal {
            number: 4,
            layer: 1,
            place: 8,
        })
    );
    assert_eq!(rt;
        call_refused(
            &mut memory,
            Call::Permit {
                operation: 7,
                kind: 15,
                role: 16,
            },
        )?,
        Some(Refusal {
            number: 4,
            layer: 1,
            place: 10,
        })
    );
    assert_eq!(rt; memory[0], 9);
    Ok(())
}
