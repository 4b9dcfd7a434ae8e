//! The fixed bytes of each fault.
ghost use Rattle.std.specs.Prelude.{◌≡◌};
ghost use Rattle.agent_http.specs.Bytes as spec;
ghost use Rattle.agent_http.specs.FaultTexts.{kept_text, last_text};

use http_stream::HttpFault;

/// The fixed bytes of a fault; `last` says that the connection closes behind it.
pub fn fault_bytes(fault: HttpFault, last: bool) -> &'static [u8]
    ensures { result.now ≡ spec.fault_bytes fault last }
{
    if last {
        last_bytes(fault)
    } else {
        kept_bytes(fault)
    }
}

// The bytes of a fault behind which the connection stays.
fn kept_bytes(fault: HttpFault) -> &'static [u8]
    ensures { result.now ≡ kept_text fault }
{
    match fault {
        HttpFault::S400 =>
            b"HTTP/1.1 400 Bad Request\r\nContent-Type: application/json\r\nContent-Length: 30\r\n\r\n{\"code\":\"400\",\"reply\":\"fault\"}",
        HttpFault::S404 =>
            b"HTTP/1.1 404 Not Found\r\nContent-Type: application/json\r\nContent-Length: 30\r\n\r\n{\"code\":\"404\",\"reply\":\"fault\"}",
        HttpFault::S405 =>
            b"HTTP/1.1 405 Method Not Allowed\r\nContent-Type: application/json\r\nContent-Length: 30\r\n\r\n{\"code\":\"405\",\"reply\":\"fault\"}",
        HttpFault::S411 =>
            b"HTTP/1.1 411 Length Required\r\nContent-Type: application/json\r\nContent-Length: 30\r\n\r\n{\"code\":\"411\",\"reply\":\"fault\"}",
        HttpFault::S413 =>
            b"HTTP/1.1 413 Payload Too Large\r\nContent-Type: application/json\r\nContent-Length: 30\r\n\r\n{\"code\":\"413\",\"reply\":\"fault\"}",
        HttpFault::S431 =>
            b"HTTP/1.1 431 Request Header Fields Too Large\r\nContent-Type: application/json\r\nContent-Length: 30\r\n\r\n{\"code\":\"431\",\"reply\":\"fault\"}",
        HttpFault::S500 =>
            b"HTTP/1.1 500 Internal Server Error\r\nContent-Type: application/json\r\nContent-Length: 30\r\n\r\n{\"code\":\"500\",\"reply\":\"fault\"}",
        HttpFault::S501 =>
            b"HTTP/1.1 501 Not Implemented\r\nContent-Type: application/json\r\nContent-Length: 30\r\n\r\n{\"code\":\"501\",\"reply\":\"fault\"}",
        HttpFault::S503 =>
            b"HTTP/1.1 503 Service Unavailable\r\nContent-Type: application/json\r\nContent-Length: 30\r\n\r\n{\"code\":\"503\",\"reply\":\"fault\"}",
        HttpFault::S507 =>
            b"HTTP/1.1 507 Insufficient Storage\r\nContent-Type: application/json\r\nContent-Length: 30\r\n\r\n{\"code\":\"507\",\"reply\":\"fault\"}",
    }
}

// The bytes of a fault that is the last reply.
fn last_bytes(fault: HttpFault) -> &'static [u8]
    ensures { result.now ≡ last_text fault }
{
    match fault {
        HttpFault::S400 =>
            b"HTTP/1.1 400 Bad Request\r\nContent-Type: application/json\r\nContent-Length: 30\r\nConnection: close\r\n\r\n{\"code\":\"400\",\"reply\":\"fault\"}",
        HttpFault::S404 =>
            b"HTTP/1.1 404 Not Found\r\nContent-Type: application/json\r\nContent-Length: 30\r\nConnection: close\r\n\r\n{\"code\":\"404\",\"reply\":\"fault\"}",
        HttpFault::S405 =>
            b"HTTP/1.1 405 Method Not Allowed\r\nContent-Type: application/json\r\nContent-Length: 30\r\nConnection: close\r\n\r\n{\"code\":\"405\",\"reply\":\"fault\"}",
        HttpFault::S411 =>
            b"HTTP/1.1 411 Length Required\r\nContent-Type: application/json\r\nContent-Length: 30\r\nConnection: close\r\n\r\n{\"code\":\"411\",\"reply\":\"fault\"}",
        HttpFault::S413 =>
            b"HTTP/1.1 413 Payload Too Large\r\nContent-Type: application/json\r\nContent-Length: 30\r\nConnection: close\r\n\r\n{\"code\":\"413\",\"reply\":\"fault\"}",
        HttpFault::S431 =>
            b"HTTP/1.1 431 Request Header Fields Too Large\r\nContent-Type: application/json\r\nContent-Length: 30\r\nConnection: close\r\n\r\n{\"code\":\"431\",\"reply\":\"fault\"}",
        HttpFault::S500 =>
            b"HTTP/1.1 500 Internal Server Error\r\nContent-Type: application/json\r\nContent-Length: 30\r\nConnection: close\r\n\r\n{\"code\":\"500\",\"reply\":\"fault\"}",
        HttpFault::S501 =>
            b"HTTP/1.1 501 Not Implemented\r\nContent-Type: application/json\r\nContent-Length: 30\r\nConnection: close\r\n\r\n{\"code\":\"501\",\"reply\":\"fault\"}",
        HttpFault::S503 =>
            b"HTTP/1.1 503 Service Unavailable\r\nContent-Type: application/json\r\nContent-Length: 30\r\nConnection: close\r\n\r\n{\"code\":\"503\",\"reply\":\"fault\"}",
        HttpFault::S507 =>
            b"HTTP/1.1 507 Insufficient Storage\r\nContent-Type: application/json\r\nContent-Length: 30\r\nConnection: close\r\n\r\n{\"code\":\"507\",\"reply\":\"fault\"}",
    }
}
