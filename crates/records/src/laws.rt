//! What holds of every list of calls, and of all octets of records.
ghost use Rattle.std.specs.Prelude.{◌≡◌, ◌++◌, ◌<◌, ◌^◌, ℕ, List, length};
ghost use Rattle.records.specs.Once.{ContainersStandOnce};
ghost use Rattle.records.specs.InOrder.{ContainersInOrder};
ghost use Rattle.records.specs.Reading.{SpellsRecord};
ghost use Rattle.records.specs.declared.record.Record.{Record as RecordSeen};

use ber::prefix_free;

/// After every list of calls each container that came to a session stands in exactly one of its records, closed or not, as
/// often as it came: a law for proofs, which does nothing.
pub fn containers_stand_once()
    ensures { ContainersStandOnce }
{}

/// After every list of calls the containers that came to a session, in order, are divided into its records, closed ones in
/// order of closing and then the one that is not closed, each container in one: a law for proofs, which does nothing.
pub fn containers_in_order()
    ensures { ContainersInOrder }
{}

/// Of octets that memory can hold at most one beginning spells a record, and one record alone, so that no spelling of a record
/// begins another: a law for proofs, which does nothing.
pub fn no_record_begins_another()
    ensures { (a b x y : List ℕ) (r s : RecordSeen × ℕ) → length (a ++ x) < 2 ^ 63 → SpellsRecord a r → SpellsRecord b s → a ++ x ≡ b ++ y → (a ≡ b) × (r ≡ s) }
{
    prefix_free();
}
