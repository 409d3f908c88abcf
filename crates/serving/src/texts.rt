//! The responses that serving itself gives.
ghost use Rattle.std.specs.Prelude.{◌≡◌};
ghost use Rattle.serving.specs.Texts.{no_memory, refusal_text};

use wire::WireRefusal;

/// The response where memory was wanting for a message, which a text in the program needs none for.
#[tactic(auto, unfolding(crate::specs::Texts::no_memory))]
pub fn no_memory(close: bool) -> &'static [u8]
    ensures { result.now ≡ no_memory close }
{
    if close {
        b"HTTP/1.1 503 Service Unavailable\r\nConnection: close\r\nContent-Length: 34\r\nContent-Type: application/problem+json\r\n\r\n{\"cause\":\"NO_MEMORY\",\"status\":503}"
    } else {
        b"HTTP/1.1 503 Service Unavailable\r\nContent-Length: 34\r\nContent-Type: application/problem+json\r\n\r\n{\"cause\":\"NO_MEMORY\",\"status\":503}"
    }
}

/// The response to a rest that is refused.
#[tactic(auto, unfolding(crate::specs::Texts::refusal_text))]
pub fn refusal_text(refusal: WireRefusal) -> &'static [u8]
    ensures { result.now ≡ refusal_text refusal }
{
    match refusal {
        WireRefusal::BadHead =>
            b"HTTP/1.1 400 Bad Request\r\nConnection: close\r\nContent-Length: 43\r\nContent-Type: application/problem+json\r\n\r\n{\"cause\":\"INVALID_MSG_FORMAT\",\"status\":400}",
        WireRefusal::TooLong { head: true } =>
            b"HTTP/1.1 431 Request Header Fields Too Large\r\nConnection: close\r\nContent-Length: 33\r\nContent-Type: application/problem+json\r\n\r\n{\"cause\":\"TOO_LONG\",\"status\":431}",
        WireRefusal::TooLong { head: false } =>
            b"HTTP/1.1 413 Payload Too Large\r\nConnection: close\r\nContent-Length: 33\r\nContent-Type: application/problem+json\r\n\r\n{\"cause\":\"TOO_LONG\",\"status\":413}",
        WireRefusal::Chunked =>
            b"HTTP/1.1 501 Not Implemented\r\nConnection: close\r\nContent-Length: 32\r\nContent-Type: application/problem+json\r\n\r\n{\"cause\":\"CHUNKED\",\"status\":501}",
        _ => b"",
    }
}
