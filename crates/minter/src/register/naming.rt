// From a handed text to a number of the source, and back; whether a number waits.
ghost use Rattle.std.specs.Prelude.{◌≡◌};
ghost use Rattle.names.specs.Texts.{text_of};
ghost use Rattle.sources.specs.Stock.{is_ahead};
ghost use Rattle.machine.specs.Machine.{waiting, validate, number_of};
ghost use Rattle.minter.specs.Meaning.{meaning};
ghost use Rattle.machine.specs.Names.{bare};

use super::Register;
use machine::fault::RegisterFault;
use machine::text::Text;
use names::name::Name;
use sources::fault::SourceFault;
use sources::source::{Source, Stand};
use stores::store::Store;
use stores::text::TextKey;

// The name that a handed text stands for.
fn bare(text: &[u8]) -> &[u8]
    ensures { result.now ≡ bare text.now }
{
    text
}

impl<S: Source, T: Store<TextKey, Text>> Register<S, T> {
    // The name of n.
    pub fn name(&self, n: u64) -> Name
        ensures { text_of result ≡ (meaning S.Source.stock T.Store.pairs T.Store.capacity self.now).source.named n }
    {
        self.source.name(n)
    }

    // The number of a handed text that is a name of the template, or why it is none.
    pub fn validate(&self, name: &[u8]) -> Result<u64, RegisterFault>
        ensures { result ≡ validate (meaning S.Source.stock T.Store.pairs T.Store.capacity self.now) name.now }
    {
        Ok(self.source.validate(bare(name))?)
    }

    // The same for a name of the source.
    pub(crate) fn number(&self, name: &[u8]) -> Result<u64, RegisterFault>
        ensures { result ≡ number_of (meaning S.Source.stock T.Store.pairs T.Store.capacity self.now) name.now }
    {
        let n = self.validate(name)?;
        if self.source.stand(n) == Stand::Foreign {
            return Err(SourceFault::Foreign.into());
        }
        Ok(n)
    }

    // Whether n is to come in the source.
    pub(crate) fn is_ahead(&self, n: u64) -> bool
        ensures { result ≡ is_ahead ((S.Source.stock self.now.source).stands n) }
    {
        self.source.stand(n) == Stand::Ahead
    }

    // Whether n is to come, in the source or in one of the lists.
    pub(crate) fn waits(&self, n: u64) -> bool
        ensures { result ≡ waiting (meaning S.Source.stock T.Store.pairs T.Store.capacity self.now) n }
    {
        self.is_ahead(n) || self.lists.has(n)
    }
}
