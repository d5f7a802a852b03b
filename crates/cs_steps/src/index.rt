ghost use Rattle.cs_steps.specs.Lines.{StartsEmpty, TakesHeld, PassesOther, EndsWhole, CutsTransactions, IsWhole};

/// A law: how the index of a part is made by one walk over what its stream captured. A change goes to
/// the line of the part that holds it, where it joins the last record or begins another; the end of
/// a transaction gives its records their sequences and its totals; and when all transactions are
/// whole, the records at the places of the line are the data records of the part.
pub fn index_is_the_definition()
    ensures starts { StartsEmpty }
    ensures takes { TakesHeld }
    ensures passes { PassesOther }
    ensures ends { EndsWhole }
    ensures cuts { CutsTransactions }
    ensures index { IsWhole }
{}
