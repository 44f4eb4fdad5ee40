//! The streams below connections.
//!
//! A stream reads and writes, or answers that it would block. Contracts see its bytes if they can
//! be known: those of a socket are unspecified, those of a stream in memory are known. What stands
//! above is proved for any stream, and `io_stream.rt` has the stream of a socket.
ghost use Rattle.std.specs.Prelude.{◌≡◌, ◌+◌, ◌-◌, ◌^◌, ◌≤◌, ◌↔◌, ◌++◌, min, length, IsTrue};
ghost use Rattle.mc_sockets.specs.Streams.{MovesIn, MovesOut, IsReadAgain, IsWrittenAgain};

/// How often a call that a signal interrupts is made again at once.
const INTERRUPTIONS: u32 = 1000;

/// Why a call moved no bytes.
#[derive(Clone, Copy)]
pub enum NoBytes {
    /// Nothing is there to be read, or nothing can be taken, now.
    WouldBlock,
    /// A signal interrupted the call.
    Interrupted,
    /// The stream failed.
    Fault,
}

/// The answer to a read.
#[derive(Clone, Copy)]
pub enum Received {
    /// This many bytes, now at the front of the piece.
    Bytes(usize),
    /// Nothing more comes.
    End,
    Hindered(NoBytes),
}

/// The answer to a write.
#[derive(Clone, Copy)]
pub enum Sent {
    /// This many bytes, from the first on.
    Bytes(usize),
    Hindered(NoBytes),
}

impl Received {
    /// Returns whether a signal interrupted the read.
    fn is_interrupted(self) -> bool
        ensures { IsTrue result ↔ (self ≡ Received.Hindered NoBytes.Interrupted) }
    {
        match self {
            Received::Hindered(NoBytes::Interrupted) => true,
            Received::Hindered(NoBytes::WouldBlock | NoBytes::Fault) => false,
            Received::Bytes(_) | Received::End => false,
        }
    }
}

impl Sent {
    /// Returns whether a signal interrupted the write.
    fn is_interrupted(self) -> bool
        ensures { IsTrue result ↔ (self ≡ Sent.Hindered NoBytes.Interrupted) }
    {
        match self {
            Sent::Hindered(NoBytes::Interrupted) => true,
            Sent::Hindered(NoBytes::WouldBlock | NoBytes::Fault) => false,
            Sent::Bytes(_) => false,
        }
    }
}

/// A stream of bytes in both directions whose calls never block.
pub trait Stream {
    ghost use Rattle.std.specs.Prelude.{◌≡◌, ◌++◌, ℕ, List, [], IfSome};
    ghost use Rattle.mc_sockets.specs.Streams.{Flow, MovesIn, MovesOut};
    ghost use Rattle.mc_sockets.specs.declared.stream.Received.{Received};
    ghost use Rattle.mc_sockets.specs.declared.stream.Sent.{Sent};

    /// The bytes that it will still give, and those that it gave and took until now.
    ghost flow: { Self → Flow };

    /// It answers a read so, and the piece then holds these bytes.
    ghost receives: { Self → List ℕ → Received → Self → Type 0 };

    /// It answers a write of these bytes so.
    ghost sends: { Self → List ℕ → Sent → Self → Type 0 };

    /// Reads bytes into a piece that isn't empty, as many as there are and fit.
    fn receive(&mut self, piece: &mut [u8]) -> Received
        ensures answers { receives self.old piece.new result self.new }
        ensures moves { MovesIn (flow self.old) piece.new result (flow self.new) }
        ensures ends { result ≡ Received.End →
            IfSome (flow self.old).left (λ left. left ≡ []) };

    /// Writes a front of three texts, one after another, in one call.
    fn send(&mut self, first: &[u8], second: &[u8], third: &[u8]) -> Sent
        ensures answers { sends self.old (first.now ++ (second.now ++ third.now)) result
            self.new }
        ensures moves { MovesOut (flow self.old) (first.now ++ (second.now ++ third.now)) result
            (flow self.new) };
}

/// Returns the number of bytes of three texts.
pub(crate) fn len_of_all(first: &[u8], second: &[u8], third: &[u8]) -> usize
    ensures least { length first.now ≤ result }
    ensures next { length second.now ≤ result }
    ensures most { result ≤ length first.now + (length second.now + length third.now) }
    ensures all { result ≡ min (length first.now + (length second.now + length third.now))
        (2 ^ 64 - 1) }
{
    first
        .len()
        .saturating_add(second.len())
        .saturating_add(third.len())
}

/// Reads from a stream, and again if a signal interrupts the call.
pub fn receive_again<S: Stream>(stream: &mut S, piece: &mut [u8]) -> Received
    ensures answers { IsReadAgain S.receives piece.new stream.old result stream.new }
    ensures moves { MovesIn (S.flow stream.old) piece.new result (S.flow stream.new) }
{
    for _interruption in 0..INTERRUPTIONS {
        let answer = stream.receive(piece);
        if !answer.is_interrupted() {
            return answer;
        }
    }
    stream.receive(piece)
}

/// Writes three texts to a stream, and again if a signal interrupts the call.
pub fn send_again<S: Stream>(stream: &mut S, first: &[u8], second: &[u8], third: &[u8]) -> Sent
    ensures answers { IsWrittenAgain S.sends (first.now ++ (second.now ++ third.now)) stream.old
        result stream.new }
    ensures moves { MovesOut (S.flow stream.old) (first.now ++ (second.now ++ third.now)) result
        (S.flow stream.new) }
{
    for _interruption in 0..INTERRUPTIONS {
        let answer = stream.send(first, second, third);
        if !answer.is_interrupted() {
            return answer;
        }
    }
    stream.send(first, second, third)
}
