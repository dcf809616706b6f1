//! The text of what is put out.

ghost use Rattle.std.specs.Prelude.{◌≡◌, ◌<◌, ◌≤◌, ◌++◌, drop, length, None, OnOk};
ghost use Rattle.xp_core.specs.Writable.{IsWritable};
ghost use Rattle.xp_frames.specs.Frame.{frame};
ghost use Rattle.xp_packets.specs.Encodability.{encoding_fault};
ghost use Rattle.xp_packets.specs.Writing.{written};
ghost use Rattle.xp_charge.specs.steps.Text.{Keeps};
ghost use Rattle.xp_script.specs.Text.{output_text};
ghost use Rattle.xp_subs.specs.Tables.{line_count, modulus_of};

use crate::text::{push_front, push_octets};
use std::alloc::{AllocError, Allocator};
use xp_frames::frame_header;
use xp_packets::{Modulus, Packet, write_packet};
use xp_step::{Output, Put};
use xp_subs::Subs;

/// How many octets of a frame stand before its packet.
const HEAD: usize = 4;

/// Adds the line of a packet that is put out; a close has none. Its frame is made in this memory, whatever it holds.
pub fn push_output<A: Allocator>(
    subs: &Subs,
    output: &Output<A>,
    memory: &mut Vec<u8, A>,
    text: &mut Vec<u8, A>,
) -> Result<(), AllocError>
    requires writable { IsWritable (modulus_of subs.now output.now.line) output.now.outgoing.put }
    requires line { output.now.line < line_count subs.now }
    ensures ok { OnOk result (text.new.items ≡ text.old.items ++ output_text subs.now output.now) }
    ensures kept { Keeps text.old.items text.new.items }
{
    match &output.outgoing.put {
        Put::Close => Ok(()),
        Put::Send { identifier, packet } => {
            let modulus = subs.modulus_of(output.line);
            put_frame(modulus, *identifier, packet, memory)?;
            push_front(text, subs.name_of(output.line).as_bytes())?;
            push_octets(text, memory)?;
            text.push(b'\n')?;
            Ok(())
        }
    }
}

/// Puts the frame of a packet of a line of this modulus into a vector, whatever it holds. One that has a spelling has 3
/// to 1,028 octets, so that only memory can be wanting.
fn put_frame<A: Allocator>(
    modulus: Modulus,
    identifier: u16,
    packet: &Packet<A>,
    octets: &mut Vec<u8, A>,
) -> Result<(), AllocError>
    requires { encoding_fault modulus identifier packet.now ≡ None }
    ensures frame { OnOk result (octets.new.items ≡ frame (written modulus identifier packet.now)) }
    ensures most { OnOk result (length octets.new.items ≤ 1032) }
{
    octets.clear();
    // The head comes into its place when the packet's length is known.
    octets.resize(HEAD, 0)?;
    write_packet(modulus, identifier, packet, octets).map_err(|_| AllocError)?;
    let head = frame_header(&octets[HEAD..]).map_err(|_| AllocError)?;
    put_head(octets, &head);
    Ok(())
}

/// Puts a head into its place.
fn put_head(octets: &mut [u8], head: &[u8])
    requires head { length head.now ≡ 4 }
    requires room { 4 ≤ length octets.old }
    ensures head { octets.new ≡ head.now ++ drop 4 octets.old }
    ensures len { length octets.new ≡ length octets.old }
{
    octets[..HEAD].copy_from_slice(head);
}
