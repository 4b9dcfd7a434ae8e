//! The faults that are answered with a fixed reply.

/// A fault by the status of its reply.
#[derive(Clone, Copy, Debug, PartialEq, Eq)]
pub enum HttpFault {
    /// No head of a request, two lengths, or a length that isn't in its form.
    S400,
    /// No route has the path.
    S404,
    /// The route hasn't the method.
    S405,
    /// A POST without a length.
    S411,
    /// The length is past the limit.
    S413,
    /// The head is past a limit.
    S431,
    /// What was kept is damaged.
    S500,
    /// The body is in a coding.
    S501,
    /// What keeps the rows failed.
    S503,
    /// There was no memory.
    S507,
}
