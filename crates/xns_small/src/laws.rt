//! What the definitions imply, each as the contract of a function that does nothing.

ghost use Rattle.xns_small.specs.Laws.{WrittenEchoIsReadAgain, WrittenErrorIsReadAgain, WrittenExchangeIsReadAgain};
ghost use Rattle.xns_small.specs.Laws.{AnAnsweredEchoCarriesTheRequest, ErrorNumbersAreTheStandards};

use xns_idp::laws::written_packet_is_read_again;

/// The bytes that are written for an Echo are read again as that Echo.
pub fn written_echo_is_read_again()
    ensures { WrittenEchoIsReadAgain }
{}

/// The bytes that are written for an Error report are read again as that report.
pub fn written_error_is_read_again()
    ensures { WrittenErrorIsReadAgain }
{}

/// The bytes that are written for a packet exchange are read again as that packet exchange.
pub fn written_exchange_is_read_again()
    ensures { WrittenExchangeIsReadAgain }
{}

/// The reply to an Echo request carries the request's bytes: whoever decodes the reply, whatever follows it, finds the
/// reply to that request.
pub fn an_answered_echo_carries_the_request()
    ensures { AnAnsweredEchoCarriesTheRequest }
{
    written_packet_is_read_again();
}

/// The numbers of [`crate::error_number`] are those of the standard.
pub fn error_numbers_are_the_standards()
    ensures { ErrorNumbersAreTheStandards }
{}
