//! A capture file, frame by frame.

ghost use Rattle.std.specs.Prelude.{◌≡◌, ◌<◌, ◌≤◌, ◌++◌, IfOk, OnErr, OnOk, length, replicate};
ghost use Rattle.xp_capture.specs.Segment.{ends_of};

use crate::ends::Ends;
use crate::flow::Flow;
use crate::segment::{Segment, write_segment};
use std::alloc::{AllocError, Allocator, Global};
use std::marker::Model;
use xp_words::Direction;

/// A frame of a line, or any other octets that go over its connection.
#[derive(Clone, Copy)]
pub struct Frame<'a> {
    /// The second in which it goes. A file tells seconds up to 4,294,967,295, and that one in the place of later ones.
    pub moment: u64,
    /// The number of the line. Its address in the file is as many addresses behind 10.1.0.0.
    pub line: u16,
    pub direction: Direction,
    /// At most 65,495 octets.
    pub octets: &'a [u8],
}

/// The connections of the lines in a capture file: how many octets went over each, in both directions.
#[derive(Drop)]
pub struct Capture {
    flows: Vec<Flow>,
}

impl Model for Capture {
    ghost use Rattle.std.specs.Prelude.{List};
    ghost use Rattle.xp_capture.specs.declared.flow.Flow.{Flow};

    ghost Value = { List Flow };

    ghost view = { λ capture. capture.flows.items };
}

impl Capture {
    ghost use Rattle.xp_capture.specs.Capture.{first_flow, flows_after, frame_octets};

    /// The connections of so many lines, before any octet.
    ///
    /// # Errors
    ///
    /// An allocation failed.
    pub fn new(alloc: Global, lines: u16) -> Result<Capture, AllocError>
        ensures { IfOk result (λ capture. capture ≡ replicate lines first_flow) }
    {
        Ok(Capture {
            flows: vec![in alloc; Flow::first(); usize::from(lines)]?,
        })
    }

    /// Appends a frame to the octets of the file, as a TCP segment between its line and the exchange.
    ///
    /// # Errors
    ///
    /// An allocation failed. Then both are as they were.
    pub fn write<A: Allocator>(
        &mut self,
        out: &mut Vec<u8, A>,
        frame: Frame<'_>,
    ) -> Result<(), AllocError>
        requires line { frame.line < length self.old }
        requires most { length frame.octets.now ≤ 65_495 }
        ensures written { OnOk result (out.new.items ≡ out.old.items ++ frame_octets self.old frame.entry) }
        ensures counted { OnOk result (self.new ≡ flows_after self.old frame.entry) }
        ensures refused { OnErr result (out.new.items ≡ out.old.items) }
        ensures same { OnErr result (self.new ≡ self.old) }
        ensures lines { length self.new ≡ length self.old }
    {
        let flow = self.flows[usize::from(frame.line)];
        write_segment(out, &frame.segment(flow))?;
        self.flows[usize::from(frame.line)] = flow.after(
            frame.direction,
            frame.octets.len() as u32,
        );
        Ok(())
    }
}

impl<'a> Frame<'a> {
    ghost use Rattle.xp_capture.specs.Capture.{numbers_of};

    /// The frame as a segment, of which these sequence numbers come next.
    fn segment(self, flow: Flow) -> Segment<'a>
        ensures moment { result.moment ≡ self.entry.moment }
        ensures ends { result.ends ≡ ends_of self.entry.line self.entry.direction }
        ensures numbers { (result.sequence, result.acknowledged) ≡ numbers_of flow self.entry.direction }
        ensures octets { result.octets.now ≡ self.entry.octets.now }
    {
        let (sequence, acknowledged) = match self.direction {
            Direction::FromDte => (flow.from_line, flow.from_exchange),
            Direction::FromDce => (flow.from_exchange, flow.from_line),
        };
        Segment {
            moment: self.moment,
            ends: Ends::of(self.line, self.direction),
            sequence,
            acknowledged,
            octets: self.octets,
        }
    }
}
