// A scope left.
ghost use Rattle.std.specs.Prelude.{◌≡◌, [], ◌∷◌};
ghost use Rattle.rules.specs.Machine.{Frame};
ghost use Rattle.outcomes.specs.Lent.{StoresEveryAfter};
ghost use Rattle.stores.specs.Lent.{SameSlices};

use bindings::close;
use outcomes::Outcome;
use stores::lent::Stores;

// After the last expression of a scope, or the body of an arm; the scope before it begins at `scope`. A break leaves it to the loop that it ends.
pub fn leave_scope(stores: &mut Stores, scope: u64, one: Outcome) -> Outcome
    ensures store { StoresEveryAfter (Frame.end_of scope ∷ []) one stores.old stores.new result }
    ensures words { stores.new.words.now ≡ stores.old.words.now }
    ensures bytes { stores.new.bytes.now ≡ stores.old.bytes.now }
    ensures same { SameSlices stores.old stores.new }
{
    if let Outcome::Done(_) = one {
        close(stores, scope);
    }
    one
}
