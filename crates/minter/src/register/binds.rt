// Texts under names: binding, purging and fetching them.
ghost use Rattle.std.specs.Prelude.{◌≡◌, true, false, [], is_ok, if◌then◌else◌, Some, Ok, Err};
ghost use Rattle.stores.specs.declared.fault.StoreFault.TheVariants.{Full};
ghost use Rattle.machine.specs.declared.fault.RegisterFault.TheVariants.{Store};
ghost use Rattle.machine.specs.Machine.{text_under, text_bound, bind, purge, fetch, fetched};
ghost use Rattle.minter.specs.Meaning.{meaning, text_put, text_dropped, lacks_room};
ghost use Rattle.machine.specs.Texts.{bytes_of};
ghost use Rattle.machine.specs.Runs.{Sound};

use super::Register;
use machine::fault::RegisterFault;
use machine::text::Text;
use sources::source::Source;
use stores::store::Store;
use stores::text::{Element, TextKey};

impl<S: Source, T: Store<TextKey, Text>> Register<S, T> {
    fn has_text_under(&self, key: TextKey) -> bool
        ensures { T.Store.sound self.now.texts → result ≡ text_under (meaning S.Source.stock T.Store.pairs T.Store.capacity self.now) key.number key.element }
    {
        let mut place = Text::new();
        self.texts.get(&key, &mut place)
    }

    // Whether a text is under n, whatever its element.
    pub(crate) fn has_text(&self, n: u64) -> bool
        ensures { T.Store.sound self.now.texts → result ≡ text_bound (meaning S.Source.stock T.Store.pairs T.Store.capacity self.now) n }
    {
        [Element::Who, Element::What, Element::When, Element::Where]
            .iter()
            .any(|element| {
                self.has_text_under(TextKey {
                    number: n,
                    element: *element,
                })
            })
    }

    // Puts a text under n and an element, where the store takes it.
    fn put_text(&mut self, n: u64, element: Element, value: Text) -> Result<(), RegisterFault>
        ensures after { T.Store.sound self.old.texts → meaning S.Source.stock T.Store.pairs T.Store.capacity self.new ≡ text_put (meaning S.Source.stock T.Store.pairs T.Store.capacity self.old) n element (bytes_of value) }
        ensures answer { T.Store.sound self.old.texts → result ≡ (if lacks_room (meaning S.Source.stock T.Store.pairs T.Store.capacity self.old) n element then Err (Store Full) else Ok tt) }
        ensures refusal { T.Store.sound self.old.texts → is_ok result ≡ false → self.new ≡ self.old }
        ensures store { T.Store.sound self.old.texts → T.Store.sound self.new.texts }
    {
        let key = TextKey { number: n, element };
        Ok(self.texts.put(key, value)?)
    }

    // Puts a text of at most 40 bytes under a minted name and an element.
    pub fn bind(
        &mut self,
        name: &[u8],
        element: Option<Element>,
        text: &[u8],
    ) -> Result<u64, RegisterFault>
        ensures after { T.Store.sound self.old.texts → meaning S.Source.stock T.Store.pairs T.Store.capacity self.new ≡ (bind (meaning S.Source.stock T.Store.pairs T.Store.capacity self.old) name.now element text.now).0 }
        ensures answer { T.Store.sound self.old.texts → result ≡ (bind (meaning S.Source.stock T.Store.pairs T.Store.capacity self.old) name.now element text.now).1 }
        ensures refusal { T.Store.sound self.old.texts → is_ok result ≡ false → self.new ≡ self.old }
        ensures store { T.Store.sound self.old.texts → T.Store.sound self.new.texts }
        ensures sound { Sound (meaning S.Source.stock T.Store.pairs T.Store.capacity self.old) → T.Store.sound self.old.texts → Sound (meaning S.Source.stock T.Store.pairs T.Store.capacity self.new) }
    {
        let n = self.number(name)?;
        let element = element.ok_or(RegisterFault::ElementWord)?;
        let value = Text::read(text).ok_or(RegisterFault::LongText)?;
        if self.waits(n) {
            return Err(RegisterFault::Waits);
        }
        self.put_text(n, element, value)?;
        Ok(n)
    }

    // Removes the text under a key, and says whether there was one.
    fn drop_text(&mut self, key: TextKey) -> bool
        ensures after { T.Store.sound self.old.texts → meaning S.Source.stock T.Store.pairs T.Store.capacity self.new ≡ text_dropped (meaning S.Source.stock T.Store.pairs T.Store.capacity self.old) key.number key.element }
        ensures answer { T.Store.sound self.old.texts → result ≡ text_under (meaning S.Source.stock T.Store.pairs T.Store.capacity self.old) key.number key.element }
        ensures refusal { T.Store.sound self.old.texts → result ≡ false → self.new ≡ self.old }
        ensures store { T.Store.sound self.old.texts → T.Store.sound self.new.texts }
    {
        self.texts.drop_pair(&key)
    }

    // Removes the text under a name and an element.
    pub fn purge(&mut self, name: &[u8], element: Option<Element>) -> Result<u64, RegisterFault>
        ensures after { T.Store.sound self.old.texts → meaning S.Source.stock T.Store.pairs T.Store.capacity self.new ≡ (purge (meaning S.Source.stock T.Store.pairs T.Store.capacity self.old) name.now element).0 }
        ensures answer { T.Store.sound self.old.texts → result ≡ (purge (meaning S.Source.stock T.Store.pairs T.Store.capacity self.old) name.now element).1 }
        ensures refusal { T.Store.sound self.old.texts → is_ok result ≡ false → self.new ≡ self.old }
        ensures store { T.Store.sound self.old.texts → T.Store.sound self.new.texts }
        ensures sound { Sound (meaning S.Source.stock T.Store.pairs T.Store.capacity self.old) → T.Store.sound self.old.texts → Sound (meaning S.Source.stock T.Store.pairs T.Store.capacity self.new) }
    {
        let n = self.number(name)?;
        let element = element.ok_or(RegisterFault::ElementWord)?;
        if self.drop_text(TextKey { number: n, element }) {
            Ok(n)
        } else {
            Err(RegisterFault::NoText)
        }
    }

    // Copies the text under a name and an element to the caller's place, as the project's rules have it: no text is handed out by value.
    pub fn fetch(
        &self,
        name: &[u8],
        element: Option<Element>,
        place: &mut Text,
    ) -> Result<u64, RegisterFault>
        ensures answer { T.Store.sound self.now.texts → result ≡ (fetch (meaning S.Source.stock T.Store.pairs T.Store.capacity self.now) name.now element).1 }
        ensures text { T.Store.sound self.now.texts → is_ok result ≡ true → Some (bytes_of place.new) ≡ fetched (meaning S.Source.stock T.Store.pairs T.Store.capacity self.now) name.now element }
        ensures refusal { T.Store.sound self.now.texts → is_ok result ≡ false → place.new ≡ place.old }
    {
        let n = self.number(name)?;
        let element = element.ok_or(RegisterFault::ElementWord)?;
        let key = TextKey { number: n, element };
        if self.texts.get(&key, place) {
            Ok(n)
        } else {
            Err(RegisterFault::NoText)
        }
    }
}
