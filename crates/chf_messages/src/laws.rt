//! What holds of every list of commands.
ghost use Rattle.chf_messages.specs.Laws.{EachMessageIsAnswered};

/// A law of all lists of commands; it does nothing. A message has a response whatever commands were accepted before it (this
/// product's own).
pub fn each_message_is_answered()
    ensures { EachMessageIsAnswered }
{
    chf_core::requests_are_answered();
    chf_core::verdicts_suit_commands();
    chf_core::states_are_joined();
}
