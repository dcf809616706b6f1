//! One direction of a line's connection, as it is traced.

ghost use Rattle.std.specs.Prelude.{◌≡◌, ◌≢◌, ◌≤◌, ◌⊎◌, ◌+◌, ◌%◌, ◌^◌, [], Bool, ◌++◌, length, take};
ghost use Rattle.xp_clearing.specs.Frames.{IsUnfinished, IsWhole};
ghost use Rattle.xp_trace.specs.Streams.{Follows, Hands, first_stream};
ghost use Rattle.xp_trace.specs.steps.Finishing.{FinishesFrame, Skips};

use std::marker::Model;
use xp_clearing::FrameWatch;

/// One direction of a line's connection. It knows where frames end (RFC 1613), so that after octets that were left out the next
/// piece begins with a frame.
#[derive(Drop)]
pub struct TracedStream {
    watch: FrameWatch,
    /// The sequence number of the next octet.
    sequence: u32,
    /// Whether the octets before the next one were left out.
    is_cut: bool,
}

impl Model for TracedStream {
    ghost use Rattle.xp_clearing.specs.Frames.{IsUnfinished};
    ghost use Rattle.xp_trace.specs.Streams.{Stream};

    ghost Value = { Stream };

    ghost view = { λ stream. record { sequence = stream.sequence; part = stream.watch; is_cut = stream.is_cut } };

    ghost invariant = { λ stream. IsUnfinished stream.watch };
}

/// What is handed on of octets that pass.
#[derive(Clone, Copy)]
pub struct Part<'a> {
    /// The sequence number of the first of them.
    pub sequence: u32,
    pub octets: &'a [u8],
}

impl TracedStream {
    /// The stream of a connection before its first octet. The connections of a line are counted from 0.
    pub fn new(connection: u32) -> TracedStream
        ensures { result ≡ first_stream connection }
    {
        TracedStream {
            watch: FrameWatch::new(),
            sequence: connection.wrapping_mul(65_536).wrapping_add(1),
            is_cut: false,
        }
    }

    /// The sequence number of the next octet.
    pub fn sequence(&self) -> u32
        ensures { result ≡ self.now.sequence }
    {
        self.sequence
    }

    /// At most 4,096 octets pass. What is handed on of them: all, or where octets before them were left out, those from the next
    /// frame on.
    pub fn pass<'a>(&mut self, octets: &'a [u8]) -> Part<'a>
        requires { length octets.now ≤ 4_096 }
        ensures handed { Hands self.old octets.now result.sequence result.octets.now }
        ensures sequence { self.new.sequence ≡ (self.old.sequence + length octets.now) % 2 ^ 32 }
        ensures frames { Follows self.old.part octets.now self.new.part }
        ensures cut { self.new.is_cut ≡ self.old.is_cut }
    {
        let before = self.sequence;
        let skipped = skip(self.is_cut, &mut self.watch, octets);
        let rest = &octets[skipped..];
        follow(&mut self.watch, rest);
        self.sequence = before.wrapping_add(octets.len() as u32);
        Part {
            sequence: before.wrapping_add(skipped as u32),
            octets: rest,
        }
    }

    /// Notes whether what was handed on was left out.
    pub fn note(&mut self, is_left_out: bool)
        ensures { self.new ≡ record self.old { is_cut = is_left_out } }
    {
        self.is_cut = is_left_out;
    }
}

/// Octets pass that are left out: behind others that were, those to the end of the frame that is not whole yet. How many of them.
fn skip(is_cut: bool, watch: &mut FrameWatch, octets: &[u8]) -> usize
    requires { IsUnfinished watch.old }
    ensures within { result ≤ length octets.now }
    ensures skips { Skips is_cut watch.old octets.now result watch.new }
    ensures unfinished { IsUnfinished watch.new }
{
    if is_cut {
        finish_frame(watch, octets)
    } else {
        0
    }
}

/// Octets pass, to the end of the frame that is not whole yet. How many of them.
fn finish_frame(watch: &mut FrameWatch, octets: &[u8]) -> usize
    requires { IsUnfinished watch.old }
    ensures within { result ≤ length octets.now }
    ensures finishes { FinishesFrame watch.old octets.now result watch.new }
    ensures unfinished { IsUnfinished watch.new }
{
    if watch.is_between_frames() {
        return 0;
    }
    for (place, octet) in octets.iter().enumerate() {
        if watch.pass(*octet).is_some() {
            return place + 1;
        }
    }
    octets.len()
}

/// Octets pass.
fn follow(watch: &mut FrameWatch, octets: &[u8])
    requires { IsUnfinished watch.old }
    ensures { Follows watch.old octets.now watch.new }
{
    for octet in octets {
        watch.pass(*octet);
    }
}
