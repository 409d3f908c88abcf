//! What holds of all entries.
ghost use Rattle.chf_replay.specs.Laws.{CommandsGoOn, FirstAreEntries, NoPlace, OneList, OnePlace};

use chf_payloads::payloads_differ;

/// A law of entries; it does nothing. Entries are the payloads of one list of commands at most; the first of them are
/// those of the first of its commands (this product's own).
pub fn entries_are_of_one_list()
    ensures one { OneList }
    ensures go_on { CommandsGoOn }
    ensures first { FirstAreEntries }
{
    payloads_differ();
}

/// A law of entries; it does nothing. The first bad entry is at one place, which a refusal names; entries that are the
/// payloads of commands have none (this product's own).
pub fn entries_are_bad_at_one_place()
    ensures one { OnePlace }
    ensures none { NoPlace }
{
    payloads_differ();
}
