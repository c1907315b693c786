// Published names and their check characters.
use names::check::check_character;
use names::template::Template;

// Whether the last character of a name is the check character of those before it.
fn ends_in_check(name: &[u8]) -> bool {
    name.split_last()
        .is_some_and(|(last, front)| check_character(front) == *last)
}

#[test]
fn published_names_end_in_their_check_character(rt: HostRuntime) {
    assert!(rt; ends_in_check(b"13030/xf93gt2q"));
    assert!(rt; ends_in_check(b"13030/f54x54g11"));
    assert!(rt; ends_in_check(b"13030/tf5p30086k"));
    assert!(rt; ends_in_check(b"13960/t5z64fc55"));
    assert!(rt; ends_in_check(b"13030/ft4w10060w"));
}

// Whether a name is read as a number under a template.
fn reads_as(template: &[u8], name: &[u8], number: u64) -> bool {
    Template::read(template).is_ok_and(|template| template.validate(name) == Ok(number))
}

#[test]
fn published_names_validate(rt: HostRuntime) {
    assert!(rt; reads_as(b"13030/xf93gt.rdk", b"13030/xf93gt2q", 2));
    assert!(rt; reads_as(b"13030/f54x54g.rdk", b"13030/f54x54g11", 1));
    assert!(rt; reads_as(b"13030/tf5p3008.rdk", b"13030/tf5p30086k", 6));
    assert!(rt; reads_as(b"13960/t5z64fc.rdk", b"13960/t5z64fc55", 5));
    assert!(rt; reads_as(b"13030/ft4w1006.rdk", b"13030/ft4w10060w", 0));
}
