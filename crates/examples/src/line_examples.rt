// A line in its memory.
use lines::{LINE, Word, write};

#[test]
fn a_line_and_what_stands_behind_it(rt: HostRuntime) {
    let mut line = [7; LINE];
    assert!(rt; write(Word::Throughout, 0, 1, 0, &mut line) == 17);
    assert!(rt; line[13] == b'1' && line[16] == b'\n' && line[17] == 7);
}

#[test]
fn the_longest_line_fits(rt: HostRuntime) {
    let mut line = [0; LINE];
    assert_eq!(rt;
        write(Word::Throughout, 65535, 65535, 65535, &mut line),
        LINE
    );
}
