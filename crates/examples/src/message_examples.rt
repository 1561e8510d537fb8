// Messages read and written.
use messages::{MESSAGE, blank, read, write};
use refusals::Refusal;
use std::test::Fail;

// What the reader refuses.
fn refused(bytes: &[u8]) -> Option<Refusal> {
    let mut message = blank();
    match read(bytes, &mut message) {
        Ok(()) => None,
        Err(fault) => Some(Refusal::from(fault)),
    }
}

#[test]
fn persons_end_at_63(rt: HostRuntime) {
    assert_eq!(rt; refused(&[1, 0, 5, 11, 63, 1, 3, 9]), None);
    assert_eq!(rt;
        refused(&[1, 0, 5, 11, 64, 1, 3, 9]),
        Some(Refusal {
            number: 4,
            layer: 1,
            place: 4,
        })
    );
}

#[test]
fn a_refusal_leaves_the_message(rt: HostRuntime) {
    let mut message = blank();
    assert!(rt; read(&[1, 0, 5, 11, 63, 1, 3, 9], &mut message).is_ok());
    assert!(rt; read(&[1, 0, 5, 11, 9, 1, 16, 0], &mut message).is_err());
    assert_eq!(rt; message.sitting.person, 63);
}

#[test]
fn what_was_read_is_written_back(rt: HostRuntime) {
    let bytes = [1, 0, 8, 1, 5, 1, 1, 3, 0, 2, 1];
    let mut message = blank();
    assert!(rt; read(&bytes, &mut message).is_ok());
    let mut memory = [7; MESSAGE];
    assert_eq!(rt; write(&message, &mut memory).ok(), Some(11));
    assert!(rt; memory[0] == 1 && memory[9] == 2 && memory[10] == 1 && memory[11] == 7);
}

#[test]
fn small_memory_and_large_numbers_are_refused(rt: HostRuntime) -> Result<(), Fail> {
    let mut message = blank();
    let mut memory = [7; MESSAGE];
    match write(&message, &mut memory[0..16]) {
        Ok(_) => return Err(Fail::new("16 bytes are too few")),
        Err(fault) => assert_eq!(rt;
            Refusal::from(fault),
            Refusal {
                number: 2,
                layer: 1,
                place: 16,
            }
        ),
    }
    message.sitting.person = 64;
    match write(&message, &mut memory) {
        Ok(_) => Err(Fail::new("there is no person 64")),
        Err(fault) => {
            assert_eq!(rt;
                Refusal::from(fault),
                Refusal {
                    number: 4,
                    layer: 1,
                    place: 4,
                }
            );
            assert_eq!(rt; memory[0], 7);
            Ok(())
        }
    }
}
