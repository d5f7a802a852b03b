ghost use Rattle.std.specs.Prelude.{◌≡◌, IfOk};
ghost use Rattle.cs_txn.specs.Digests.{row_digest};

use cs_types::{Duplicate, Memory, RowName};
use std::hash::{FoldHasher, Hash, Hasher};
use std::marker::Model;

/// A row beside a number that is made of it once, which is all that a map of rows hashes and
/// compares first. Rows that share a number, by chance or since somebody chose them so, are still
/// told apart as rows. Contracts see it as the row.
#[derive(Drop)]
pub(crate) struct RowKey {
    digest: u64,
    row: RowName,
}

impl Model for RowKey {
    ghost use Rattle.std.specs.Prelude.{◌≡◌};
    ghost use Rattle.cs_types.specs.declared.change.RowName.{RowName};
    ghost use Rattle.cs_txn.specs.Digests.{row_digest};

    ghost Value = { RowName };

    ghost view = { λ k. k.row };

    ghost invariant = { λ k. k.digest ≡ row_digest k.row };
}

#[tactic(auto, unfolding(crate::specs::Digests::row_digest))]
fn digest(row: &RowName) -> u64
    ensures { result ≡ row_digest row.now }
{
    let mut hasher = FoldHasher::default();
    row.hash(&mut hasher);
    hasher.finish()
}

impl RowKey {
    /// The key of a row.
    pub(crate) fn of(row: &RowName) -> Result<RowKey, Memory>
        ensures { IfOk result (λ k. k ≡ row.now) }
    {
        Ok(RowKey {
            digest: digest(row),
            row: row.copy()?,
        })
    }

    /// The row itself.
    pub(crate) fn row(&self) -> &RowName
        ensures { result.now ≡ self.now }
    {
        &self.row
    }
}

impl PartialEq for RowKey {
    ghost use Rattle.std.proofs.Common.{rules};
    ghost use Rattle.std.specs.Cmp.Rules.{comparing};
    ghost use Rattle.std.specs.Ordering.{eq_by_cmp};
    ghost use Rattle.std.specs.Cmp.{eq_by_cmp_equiv};
    ghost use Rattle.cs_types.specs.Row.{row_cmp, rows_total};

    ghost eq = { eq_by_cmp row_cmp };

    ghost laws = { Prim.search (eq_by_cmp_equiv, rows_total, comparing, rules) };

    fn eq(&self, other: &RowKey) -> bool {
        if self.digest != other.digest {
            return false;
        }
        self.row.is(&other.row)
    }
}

impl Eq for RowKey {
    ghost use Rattle.std.specs.Cmp.{eq_by_cmp_equiv};
    ghost use Rattle.cs_types.specs.Row.{rows_total};

    ghost laws = { eq_by_cmp_equiv rows_total };
}

impl Hash for RowKey {
    ghost use Rattle.cs_txn.specs.Digests.{digest_fed, digests_fed_alike};

    ghost hash_input = { digest_fed };

    ghost respects_eq = { digests_fed_alike.fed };

    fn hash<H: Hasher>(&self, state: &mut H) {
        self.digest.hash(state);
    }
}
