// Both stores against a map, and under a key kind of the tests' own.
use crate::operator::OperatorKey;
use chains::Chain;
use chains::format::format;
use chains::node::Node;
use logs::entry::Entry;
use logs::{Log, check_length};
use std::collections::BTreeMap;
use std::process::Abort;
use std::test::Fail;
use stores::fault::StoreFault;
use stores::store::Store;
use stores::tally::{TallyKey, raise};
use stores::text::{Element, TextKey};

// As many pairs as each store of these tests can have; fewer than there are keys.
const ROOM: usize = 16;

const ELEMENTS: [Element; 4] = [Element::Who, Element::What, Element::When, Element::Where];

fn key_of(code: u64) -> TextKey {
    TextKey {
        number: code / 4,
        element: ELEMENTS[(code % 4) as usize],
    }
}

// A store, and a map that takes the same calls; each call on both has its answer in both compared.
#[derive(Drop)]
struct Both<S> {
    store: S,
    map: BTreeMap<u64, u64>,
}

impl<S: Store<TextKey, u64>> Both<S> {
    fn put(&mut self, rt: &impl Abort, code: u64, value: u64) -> Result<(), Fail> {
        let answer = self.store.put(key_of(code), value);
        if !self.map.contains_key(&code) && self.map.len() == ROOM {
            assert_eq!(rt; answer, Err(StoreFault::Full));
        } else {
            assert_eq!(rt; answer, Ok(()));
            self.map.insert(code, value)?;
        }
        Ok(())
    }

    fn get(&self, rt: &impl Abort, code: u64) {
        let mut place = 7777;
        let found = self.store.get(&key_of(code), &mut place);
        assert_eq!(rt; found, self.map.contains_key(&code));
        assert_eq!(rt; place, self.map.get(&code).copied().unwrap_or(7777));
    }

    fn drop_pair(&mut self, rt: &impl Abort, code: u64) {
        let dropped = self.store.drop_pair(&key_of(code));
        assert_eq!(rt; dropped, self.map.remove(&code).is_some());
    }

    // A thousand calls that a fixed sequence of numbers picks; every key is looked up at the end.
    fn thousand(&mut self, rt: &impl Abort) -> Result<(), Fail> {
        let mut seed: u64 = 1;
        for i in 0..1000 {
            seed = seed
                .wrapping_mul(6364136223846793005)
                .wrapping_add(1442695040888963407);
            let pick = seed >> 33;
            let code = pick % 24;
            match (pick / 24) % 5 {
                0 => self.drop_pair(rt, code),
                1 => self.get(rt, code),
                _ => self.put(rt, code, i)?,
            }
        }
        for code in 0..24 {
            self.get(rt, code);
        }
        Ok(())
    }
}

#[test]
fn chain_answers_as_a_map(rt: HostRuntime) -> Result<(), Fail> {
    let mut nodes = [Node {
        key: key_of(0),
        value: 0,
        next: 0,
    }; 33];
    format(&mut nodes)?;
    let mut both = Both {
        store: Chain::over(&mut nodes),
        map: BTreeMap::new(rt.alloc()),
    };
    both.thousand(&rt)
}

#[test]
fn log_answers_as_a_map(rt: HostRuntime) -> Result<(), Fail> {
    let mut entries = [Entry::Dropped(key_of(0)); 17];
    check_length(&entries)?;
    let mut both = Both {
        store: Log::over(&mut entries),
        map: BTreeMap::new(rt.alloc()),
    };
    both.thousand(&rt)
}

fn operator(first: u8, second: u8, third: u8) -> OperatorKey {
    OperatorKey {
        first,
        second,
        third,
    }
}

#[test]
fn operators_with_one_hash_have_tallies_of_their_own(rt: HostRuntime) -> Result<(), Fail> {
    let mut nodes = [Node {
        key: operator(0, 0, 0),
        value: 0,
        next: 0,
    }; 20];
    format(&mut nodes)?;
    let mut chain = Chain::over(&mut nodes);
    assert_eq!(rt; raise(&mut chain, operator(65, 66, 67))?, 1);
    assert_eq!(rt; raise(&mut chain, operator(67, 66, 65))?, 1);
    assert_eq!(rt; raise(&mut chain, operator(65, 66, 67))?, 2);
    Ok(())
}

#[test]
fn tallies_rise_in_a_log(rt: HostRuntime) -> Result<(), Fail> {
    let mut entries = [Entry::Dropped(TallyKey { number: 0 }); 3];
    check_length(&entries)?;
    let mut log = Log::over(&mut entries);
    assert_eq!(rt; raise(&mut log, TallyKey { number: 24 })?, 1);
    assert_eq!(rt; raise(&mut log, TallyKey { number: 8 })?, 1);
    assert_eq!(rt; raise(&mut log, TallyKey { number: 24 })?, 2);
    assert_eq!(rt; raise(&mut log, TallyKey { number: 24 })?, 3);
    assert_eq!(rt; raise(&mut log, TallyKey { number: 9 }).is_err(), true);
    Ok(())
}

#[test]
fn other_lengths_are_refused(rt: HostRuntime) {
    let mut few = [Node {
        key: key_of(0),
        value: 5u64,
        next: 9,
    }; 17];
    assert_eq!(rt; format(&mut few).is_err(), true);
    assert_eq!(rt; few[16].next, 9);
    assert_eq!(rt; check_length(&[Entry::Put(key_of(0), 1u64)]).is_err(), true);
}
