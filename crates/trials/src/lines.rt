// Where lines are refused.
use commands::reading::read_command;
use names::fault::Refusal;

// The place where a line is refused, or 1,000 for one that is read. (The values of the tests stay: they compare with that number.)
fn place(line: &[u8]) -> usize {
    read_command(line)
        .err()
        .map_or(1000, |fault| Refusal::from(fault).place)
}

#[test]
fn a_wrong_word_is_refused_at_its_start(rt: HostRuntime) {
    assert_eq!(rt; place(b"bind set n which a text"), 1000);
    assert_eq!(rt; place(b"mint  1"), 5);
}

#[test]
fn a_missing_word_is_refused_at_the_length_of_the_line(rt: HostRuntime) {
    assert_eq!(rt; place(b"bind set n who "), 1000);
    assert_eq!(rt; place(b"bind set n who"), 14);
}
