use wire_tokens::ReplyFault;

/// Why an exchange with a host came to no whole reply.
#[derive(Clone, Copy, Debug, PartialEq, Eq)]
pub enum Cause {
    /// There was no link.
    Dial,
    /// A send failed.
    Send,
    /// A receive failed.
    Recv,
    /// The link ended after this many bytes, before the reply was whole.
    Truncated { have: u64 },
    /// This fault is in what was given, at this place, counted in bytes from 0.
    BadReply { at: u64, fault: ReplyFault },
    /// A send took no byte.
    Stopped,
}
