ghost use Rattle.std.specs.Prelude.{◌≡◌, Ok, IfOk};
ghost use Rattle.cs_script.specs.Readings.{Reading, Gives, both, earlier, rank, not_memory};

use crate::LineCause;
use cs_types::Items;
use std::alloc::Global;

/// In which order causes are tried; behind want of memory nothing else is told.
fn rank(cause: &LineCause) -> u8
    ensures { result ≡ rank cause.now }
{
    match cause {
        LineCause::Memory => 0,
        LineCause::NotJson => 1,
        LineCause::NotBuilt => 2,
        LineCause::Member(_) => 3,
        LineCause::Stamp(_) => 4,
        LineCause::Order => 5,
        LineCause::Syntax(_) => 6,
        LineCause::Schema(_) => 7,
        LineCause::NoTable(_) => 8,
        LineCause::NoColumn(_) => 9,
        LineCause::Value(_) => 10,
        LineCause::TooManyAtStamp => 11,
        LineCause::Txn(_) => 12,
        LineCause::Layout(_) => 13,
    }
}

/// The one of two causes that is tried before the other; of two of a kind the first.
#[tactic(auto, unfolding(crate::specs::Readings::earlier))]
fn earlier(one: LineCause, other: LineCause) -> LineCause
    ensures { result ≡ earlier one other }
{
    if rank(&other) < rank(&one) {
        return other;
    }
    one
}

/// Both of two answers, or the cause that is tried before the other.
pub(crate) fn both<A: Drop, B: Drop>(
    one: Result<A, LineCause>,
    other: Result<B, LineCause>,
) -> Result<(A, B), LineCause>
    ensures reading { (a : Reading A) (b : Reading B) → Gives one a → Gives other b → Gives result (both a b) }
    ensures parts { IfOk result (λ p. (one ≡ Ok p.0) × (other ≡ Ok p.1)) }
{
    match one {
        Ok(one) => match other {
            Ok(other) => Ok((one, other)),
            Err(cause) => Err(cause),
        },
        Err(cause) => match other {
            Ok(_) => Err(cause),
            Err(next) => Err(earlier(cause, next)),
        },
    }
}

/// What was read of a list so far: its elements, or the cause that is tried before the others.
#[derive(Drop)]
pub(crate) struct Gathered<T> {
    pub items: Items<T>,
    pub cause: Option<LineCause>,
}

impl<T: Drop> Gathered<T> {
    ghost use Rattle.std.specs.Prelude.{◌≡◌, ◌++◌, ◌∷◌, List, IfOk, IfErr, Ok, [], None};
    ghost use Rattle.cs_script.specs.Readings.{Reading, Gives, and_more, behind};
    ghost use Rattle.cs_script.specs.declared.fault.LineCause.TheVariants.{Memory};

    /// Of no element.
    pub fn new(alloc: Global) -> Gathered<T>
        ensures items { result.items ≡ [] }
        ensures cause { result.cause ≡ None }
    {
        Gathered {
            items: Items::new(alloc),
            cause: None,
        }
    }

    #[tactic(auto, using(crate::proofs::Causes::one_more, crate::proofs::Causes::still_refused, crate::proofs::Causes::now_refused, crate::proofs::Causes::refused_again))]
    /// And one more element, or the cause that it was refused for.
    pub fn with(self, item: Result<T, LineCause>) -> Result<Gathered<T>, LineCause>
        ensures more { (r : Reading T) (rest : Reading (List T)) → Gives item r → IfOk result (λ g. behind g.cause g.items rest ≡ behind self.cause self.items (and_more r rest)) }
        ensures err { IfErr result (λ e. e ≡ Memory) }
        ensures kept { IfOk result (λ g. g.cause ≡ None → (t : T) × (item ≡ Ok t) × (self.cause ≡ None) × (g.items ≡ self.items ++ t ∷ [])) }
    {
        let Gathered { items, cause } = self;
        match item {
            Ok(item) => match cause {
                None => {
                    let mut items = items;
                    items.push(item)?;
                    Ok(Gathered { items, cause: None })
                }
                Some(cause) => Ok(Gathered {
                    items,
                    cause: Some(cause),
                }),
            },
            Err(next) => {
                if next.is_memory() {
                    return Err(LineCause::Memory);
                }
                match cause {
                    None => Ok(Gathered {
                        items,
                        cause: Some(next),
                    }),
                    Some(cause) => Ok(Gathered {
                        items,
                        cause: Some(earlier(cause, next)),
                    }),
                }
            }
        }
    }

    /// The elements, or the cause.
    pub fn finish(self) -> Result<Items<T>, LineCause>
        ensures reading { Gives result (behind self.cause self.items (Ok [])) }
        ensures ok { IfOk result (λ items. (self.cause ≡ None) × (items ≡ self.items)) }
    {
        let Gathered { items, cause } = self;
        match cause {
            None => Ok(items),
            Some(cause) => Err(cause),
        }
    }
}
