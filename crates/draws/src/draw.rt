// A drawn name.
ghost use Rattle.std.specs.Prelude.{◌≡◌};
ghost use Rattle.draws.specs.Draw.{shown, next};
ghost use Rattle.sources.specs.Stock.{drawn};

use names::name::Name;
use sources::source::Source;

// The next number of a source, which is given from then on, and its name; none where the source has no more.
pub fn draw_name<S: Source>(source: &mut S) -> Option<(u64, Name)>
    ensures answer { shown result ≡ next (S.Source.stock source.old) }
    ensures after { S.Source.stock source.new ≡ drawn (S.Source.stock source.old) }
{
    let n = source.draw()?;
    Some((n, source.name(n)))
}
