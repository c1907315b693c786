// Numbers drawn from a generator and from a roll.
use names::template::Template;
use sources::chooser::ByLetter;
use sources::fault::SourceFault;
use sources::generator::Generator;
use sources::roll::Roll;
use sources::source::{Source, Stand};
use std::test::Fail;

#[test]
fn ten_scrambled(rt: HostRuntime) -> Result<(), Fail> {
    let template = Template::read(b"99999/q7.rdk")?;
    let mut generator = Generator::new(ByLetter::of(&template), template);
    for n in [1, 0, 9, 7, 5, 4, 3, 2, 6, 8] {
        assert!(rt; generator.draw() == Some(n));
    }
    assert!(rt; generator.draw() == None);
    Ok(())
}

#[test]
fn roll_in_order(rt: HostRuntime) -> Result<(), Fail> {
    let template = Template::read(b"99999/q7.sdk")?;
    let numbers = [7, 2, 5];
    let (mut roll, fault) = Roll::new(template, &numbers);
    assert!(rt; fault == None);
    assert!(rt; roll.draw() == Some(7));
    assert!(rt; roll.stand(7) == Stand::Given);
    assert!(rt; roll.stand(5) == Stand::Ahead);
    assert!(rt; roll.stand(3) == Stand::Foreign);
    assert!(rt; roll.left() == 2);
    Ok(())
}

#[test]
fn roll_refused(rt: HostRuntime) -> Result<(), Fail> {
    let template = Template::read(b"99999/q7.sdk")?;
    let numbers = [7, 2, 7, 10];
    let (roll, fault) = Roll::new(template, &numbers);
    assert!(rt; fault == Some(SourceFault::Roll(2)));
    assert!(rt; roll.left() == 0);
    Ok(())
}
