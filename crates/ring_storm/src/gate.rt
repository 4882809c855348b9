//! The trait that decides which threads start, and when a client may send.

/// Decides the order in which the clients of a storm send. Each client asks the gate on its own thread when it may
/// send, and reports each reply to the gate there.
pub trait Gate {
    /// Returns whether the client may send its command with this number. The client asks again until the result is
    /// true. The number of the first client is 0, and the number of its first command is 1.
    fn may_send(&self, client: u32, number: u32) -> bool;

    /// Notes that the client's command with this number had its reply.
    fn answered(&self, client: u32, number: u32);

    /// Returns whether a thread may start. The number of a thread is the number of its client, or the number of clients
    /// for the conductor's thread. The call is made once for each thread, by the thread that starts it. The client with
    /// the highest number is the first one. If the result is false, this thread and the later ones are not started, and
    /// the storm ends with `OutOfMemory`. By default all threads may start.
    fn may_start(&self, _thread: u32) -> bool {
        true
    }
}

/// Lets each client send without waiting.
#[derive(Clone, Copy, Debug, PartialEq, Eq)]
pub struct OpenGate;

impl Gate for OpenGate {
    fn may_send(&self, _client: u32, _number: u32) -> bool {
        true
    }

    fn answered(&self, _client: u32, _number: u32) {}
}
