// What is wrong with a message.
ghost use Rattle.std.specs.Prelude.{◌≡◌};
ghost use Rattle.messages.specs.Refusals.{message_refusal};
ghost use Rattle.messages.specs.declared.fault.MessageFault.TheVariants.{Field};

use fields::FieldFault;
use refusals::Refusal;

#[derive(Clone, Copy)]
pub enum MessageFault {
    // a field is wrong
    Field(FieldFault),
    // the post at the place in the sitting repeats an earlier one
    Twice(u8),
}

impl From<FieldFault> for MessageFault {
    ghost from_gives = { λ e r. r ≡ Field e };

    fn from(e: FieldFault) -> MessageFault {
        MessageFault::Field(e)
    }
}

// The three numbers that are told of the fault.
impl From<MessageFault> for Refusal {
    ghost from_gives = { λ fault r. r ≡ message_refusal fault };

    fn from(fault: MessageFault) -> Refusal {
        match fault {
            MessageFault::Field(fault) => Refusal::from(fault),
            MessageFault::Twice(post) => Refusal {
                number: 7,
                layer: 1,
                place: post.into(),
            },
        }
    }
}
